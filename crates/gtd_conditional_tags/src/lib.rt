//! Files of tags of ways: which of them say when a way may be used, and of which element.
//!
//! [`read_tags`] reads the tags of a file and all its faults, by the names of a table of means. [`by_element`] puts items
//! together that are of one element.
#![tactic(auto)]

pub use fault::{TagsFault, TagsFaultText};
pub use groups::{ElementItem, ElementItems, by_element};
pub use key::Key;
pub use row::Tag;
pub use tags::{TagsFile, read_tags};

mod columns;
mod fault;
mod groups;
mod key;
mod row;
mod table;
mod tags;
