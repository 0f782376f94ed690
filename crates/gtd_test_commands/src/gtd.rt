//! Commands and runs of `gtd`: outputs that count their calls, texts of faults, and refused memory.

mod devices;
mod faults;
mod job;
mod refusals;
mod without_memory;
