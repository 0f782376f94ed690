//! Time domains in plain words, in English, German or French.
//!
//! [`write_words`] gives the words of a domain. `specs/Words.antt` says which these are. By the laws in [`laws`], two domains
//! have the same words in a language exactly if they are equal, and each end that words say is right.
#![tactic(auto)]

mod duration;
pub mod laws;
mod start;
mod until;
mod words;

pub use gtd_phrases::Language;
pub use words::{write_words, write_words_in};
