//! The places of a file's rows, in the order of their road elements, so that the rows of an element are found soon.
//!
//! [`by_element`] orders places, [`elements_of`] lists their elements, and [`places_below_near`] looks for an element, first from
//! the place on that [`Sections::start_near`] returns.
#![tactic(auto)]

pub use order::{OrderedPlaces, by_element, elements_of};
pub use place::{RowDirections, RowPlace, RowVehicles};
pub use sections::{Sections, places_below_near};

mod order;
mod place;
mod sections;
mod spread;
