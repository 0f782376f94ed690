//! What is wrong with a text of opening hours, in words: where it is, what it is, and what is accepted there.
//!
//! [`OptionsFaultText`] shows a fault, and [`hours_snippet`] what stands below it: the text around the place, and what may stand
//! there.
#![tactic(auto)]

pub use accepted::{Expectation, accepted};
pub use place::place_in;
pub use refused::{RefusalSnippet, domain_snippet, hours_snippet, too_many_snippet};
pub use words::OptionsFaultText;

mod accepted;
mod place;
mod refused;
mod words;
