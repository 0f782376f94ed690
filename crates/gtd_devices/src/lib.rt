//! Devices: what gives bytes and what takes them.
//!
//! An [`Input`] gives its bytes in pieces, may have none just now, may end and may fail. An [`Output`] takes a first part
//! of what it is offered, or fails. Both count their failures. [`Host`] and [`HostOut`] work over any reader and any
//! writer, [`MemoryIn`] and [`MemoryOut`] over memory; those over memory can be told to fail. [`read_whole`] pulls an input
//! to its end.
#![tactic(auto)]

pub use device::{Input, Output, Pull, Put};
pub use host::Host;
pub use host_out::HostOut;
pub use memory::{MemoryIn, MemoryOut};
pub use waiting::Waiting;
pub use whole::{InputFault, read_whole};

mod device;
mod host;
mod host_out;
mod memory;
mod waiting;
mod whole;
