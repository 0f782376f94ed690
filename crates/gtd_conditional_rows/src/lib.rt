//! Rows of a record file, from steps that close and open a road element.
//!
//! A [`Step`] closes or opens an element for some vehicle types, always or within hours; the last step that applies to a type
//! at a second says whether it is closed then. [`rows_of`] answers the rows that say the same, and [`rows_of_both`] those of
//! steps that do the same in both directions.
#![tactic(auto)]

pub use fault::RowsFault;
pub use listing::{Listing, listing_of};
pub use row::Row;
pub use rows::{rows_of, rows_of_both};
pub use step::Step;
pub use types::Types;
pub use vehicles::types_of;

mod alike;
mod count;
mod expr;
mod fault;
mod flags;
mod groups;
mod kept;
mod listing;
mod overrides;
mod row;
mod rows;
mod step;
mod times;
mod types;
mod vehicles;
