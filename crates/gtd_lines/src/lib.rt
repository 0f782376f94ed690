//! What a file holds whose bytes were read already: its records, and the line on which each row begins, found in one walk over
//! the bytes.
#![tactic(auto)]

pub use cut::Place;
pub use lines::lines_of;
pub use records::records_of;

mod cut;
mod device;
pub mod laws;
mod lines;
mod records;
