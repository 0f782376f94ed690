//! What the calls for C stand on: handles and what they stand for, answers as numbers, bytes that are written for C, and devices
//! over memory.
#![tactic(auto)]

pub use answers::{KIND, MEMORY, NO, RANGE, SHORT, YEAR, YES};
pub use given::Given;
pub use handle::{Handle, Thing};
pub use openers::{open, open_spans, open_text};
pub use output::Collected;
pub use shared_records::SharedRecords;
pub use writing::write;

mod answers;
mod given;
mod handle;
mod loose;
mod openers;
mod output;
mod parts;
mod shared_records;
mod writing;
