//! Opening hours of OpenStreetMap as texts: their tokens.
//!
//! Which tokens a text is made of is a relation in `specs/Lexing.antt`, apart from the code. [`next_token`] hands out one token
//! after another and keeps no list of them, so that it takes no memory. The laws in [`laws`] say that a text has one token at
//! most at each place, and one answer.
#![tactic(auto)]

pub mod laws;
mod lexer;
mod numbers;
mod signs;
mod token;
mod words;

pub use lexer::{check_tokens, next_token};
pub use token::{BadToken, Token, TokenKind};
