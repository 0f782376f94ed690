//! Rules of opening hours for cells: as few as their days and times can be said in.
#![tactic(auto)]

pub use drafts::rules_of_cells;

mod drafts;
mod selectors;
