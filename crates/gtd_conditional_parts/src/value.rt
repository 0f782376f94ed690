//! Values, and why one is not read.

use crate::said::Said;
use gtd_conditional_values::{Term, TermFault};
use std::alloc::AllocError;

/// A part of a value.
#[derive(Drop)]
pub struct Part {
    /// What its name says.
    pub said: Said,
    /// The terms of its condition, in order. It says so where all of them hold: always, if there are none.
    pub terms: Vec<Term>,
}

/// What a value says.
#[derive(Drop)]
pub struct Value {
    /// Its parts, in order, one at least. The last one that applies wins.
    pub parts: Vec<Part>,
}

/// What is wrong with a value. Places are numbers of bytes of the value before them.
#[derive(Clone, Copy, Debug, PartialEq, Eq)]
pub enum ValueFault {
    /// A part without `@`, at its first byte but spaces; a `)` too many; or the end, if a parenthesis or a comment is open there.
    Part {
        /// The place.
        place: usize,
    },
    /// A name that says nothing.
    Value {
        /// The place of the name.
        place: usize,
    },
    /// A term is at fault.
    Term(TermFault),
}

/// Why a value is not read.
#[derive(Clone, Copy, Debug, PartialEq, Eq)]
pub enum UnreadValue {
    /// Its first fault.
    Fault(ValueFault),
    /// Memory was refused.
    NoMemory,
}

impl From<AllocError> for UnreadValue {
    ghost use Rattle.std.specs.Prelude.{◌≡◌};
    ghost use Rattle.gtd_conditional_parts.specs.declared.value.UnreadValue.TheVariants.{NoMemory};

    ghost from_gives = { λ _ why. why ≡ NoMemory };

    fn from(_: AllocError) -> UnreadValue {
        UnreadValue::NoMemory
    }
}
