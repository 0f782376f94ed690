//! Phrases of time in several languages: the table of words of each, and the one order of parts in all.
//!
//! A line is a list of [`Piece`]s. [`push_pieces`] appends its words in a [`Language`]. By the laws in [`laws`], the words say
//! which pieces they are of, if these stand in an order of the grammar.
#![tactic(auto)]

pub mod laws;
mod phrase;
mod printer;
mod table;

pub use gtd_languages::{Counted, Fixed, Role, Unit, Word};
pub use phrase::{Figures, Language, Phrase, Piece};
pub use printer::{push_pieces, push_word};
