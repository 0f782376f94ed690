//! The tokens of opening hours of OpenStreetMap, strict and loose, in one pass.
//!
//! `first_cursor` and `next_piece` hand out the tokens of a text and its loose spaces one after another, or its first fault. No
//! call takes memory.
#![tactic(auto)]

mod clock;
mod cursor;
mod found;
mod lexer;
mod pairs;
mod runs;
mod signs;
mod token;
mod words;

pub use cursor::{Cursor, first_cursor, next_piece};
pub use token::{DayNames, Event, Piece, Token, TokenFault, TokenFaultKind, TokenKind, Word};
