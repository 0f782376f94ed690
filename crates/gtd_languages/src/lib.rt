//! The words of English, German and French: a table for each.
//!
//! A table gives the text of each name, of each phrase and of what stands before and after a number. It is read by somebody who
//! looks for nothing but the language.
#![tactic(auto)]

pub mod english;
pub mod french;
pub mod german;
mod shared;
mod word;

pub use word::{Counted, Fixed, Form, Role, Unit, Word, form_of};
