//! What each language of tokens has: spaces between them, longest runs of letters and digits, and numbers.
//!
//! `specs/` says what they are, and what it is that a text is tokens from one place to another, for tokens of any type. That a
//! text is read in one way, and has one first place at most where no token begins, is proved once for all such languages
//! (`specs/facts/OneReading.antt`): of a language must be known no more than `IsLanguage`.
#![tactic(auto)]

mod numbers;
mod runs;
mod spaces;

pub use numbers::{digits_value, two_digits_value};
pub use runs::{after_digits, after_letters, digits_at_front, letters_at_front};
pub use spaces::after_spaces;
