//! The rows of files with four columns, and columns that are an element, directions, or vehicle types.
//!
//! [`take_rows`] hands the rows of a file's bytes to a [`RowTaker`], one after another: it is the one loop over the rows of record
//! files, of tables of holidays, of tags and of means. [`four_columns`] gives a row's columns. [`read_number`], [`read_closed`]
//! and [`read_vehicles`] read those that name an element, its [`Direction`]s, and its [`Vehicles`].
#![tactic(auto)]

pub use column::{read_closed, read_direction, read_number};
pub use direction::{Closed, DirectedElement, Direction};
pub use row::{Columns, four_columns};
pub use rows::{RowTaker, RowsEnd, next_row, table, take_rows};
pub use vehicles::{Codes, Vehicles, Version, read_vehicles};

mod column;
mod direction;
mod row;
mod rows;
mod vehicles;
