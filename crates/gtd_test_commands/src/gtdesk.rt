//! Commands of `gtdesk`: outputs that count their calls, and calls that take no memory.

mod devices;
mod plans;
mod without_memory;
