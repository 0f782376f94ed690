//! The tokens of opening hours that are written loosely.
//!
//! A text is cut into tokens, each with its place: names, numbers, clock times in their many forms, signs and spaces. `tokens_of`
//! answers them all, or where the first is that can be none.
#![tactic(auto)]

mod clock;
mod lexer;
mod runs;
mod signs;
mod stop;
mod token;
mod words;

pub use lexer::tokens_of;
pub use signs::{end_length, other_space};
pub use stop::LooseStop;
pub use token::{DayNames, LooseKind, LooseToken, TokenFault};
