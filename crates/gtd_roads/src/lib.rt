//! Record files: devices, records, and the runs over them, at one root.
//!
//! This crate has no function of its own. It hands on what a caller of a run would otherwise take from several crates:
//! devices that give bytes and take them, the records of a file, the seconds and horizons that they are asked about, and the
//! runs. The headline is proved of the call [`run_schedule`]; `specs/Theorem.antt` states it.
#![tactic(auto)]

pub use gtd_core::{Fault, Horizon, HorizonFault, Sec, Span, TextFault};
pub use gtd_devices::{
    Host, HostOut, Input, InputFault, MemoryIn, MemoryOut, Output, Pull, Put, read_whole,
};
pub use gtd_gathered::{GATHERED, Gathered};
pub use gtd_migrate::{Migration, run_migrate};
pub use gtd_records::{
    Record, RecordFault, Records, faults_of, open_seconds, read_faults, read_records, schedule_of,
};
pub use gtd_report::{Report, RunFault, Subject, run_report};
pub use gtd_rows::{Closed, Codes, Direction, Vehicles, read_direction, read_number};
pub use gtd_schedule::{Schedule, run_schedule};
pub use gtd_spans::{SpanList, SpanSource};
pub use gtd_year::run_year;

pub mod laws;
