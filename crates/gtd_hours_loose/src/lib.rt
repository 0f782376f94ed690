//! Opening hours of OpenStreetMap as people write them: the strict form of a text that is written loosely.
//!
//! The hours of a text are those of its strict form. A text that is hours as it is written is its own strict form.
#![tactic(auto)]

mod behind;
pub mod laws;
mod manner;
mod mending;
mod pairs;
mod places;
mod reader;
mod strict;

pub use manner::{Manner, read_hours_in};
pub use mending::strict_form;
pub use pairs::pair_fault;
pub use places::{is_loose, strict_place, written_place, written_places};
pub use reader::{LooseFault, LooseHours, LooseReadFault, read_loose_hours};
pub use strict::{Part, StrictForm, stretch};
