//! Restriction records of road elements: files of them, and the seconds in which an element is open.
//!
//! A record closes a road element in one direction or both, for some vehicle types, at the seconds of a time domain.
//! [`read_records`] reads a record file of either version from a device, and answers its [`Records`] or its first fault.
//! [`Records::closed_at`] says whether some record closes an element at a second, [`schedule_of`] says when it is open, and
//! [`open_seconds`] says the same span by span. [`next_change`] says when that changes.
#![tactic(auto)]

pub use alike::are_closed_alike;
pub use change::next_change;
pub use closed_when::{ClosedDirection, ClosedDirections, ClosedWhen};
pub use fault::RecordFault;
pub use faults::{faults_of, read_faults};
pub use index::Records;
pub use reader::read_records;
pub use record::Record;
pub use row::RowReader;
pub use schedule::{open_by_domains, open_seconds, schedule_of};

mod alike;
mod always;
mod change;
mod closed_when;
mod closing_cursors;
mod fault;
mod faults;
mod file;
mod index;
mod known;
pub mod laws;
mod reader;
mod record;
mod row;
mod row_place;
mod schedule;
mod shared;
mod week;
