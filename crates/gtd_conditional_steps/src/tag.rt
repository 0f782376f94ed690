//! Tags, and why they have no steps.

use gtd_conditional_parts::Value;
use gtd_rows::Direction;
use std::alloc::AllocError;
use thiserror::Error;

/// A tag of a way that says when it may be used.
#[derive(Drop)]
pub struct Tag {
    /// The mode of transport that it speaks of: the number of rows of the table of means before that of the mode.
    pub mode: usize,
    /// The direction that it speaks of, or both.
    pub direction: Option<Direction>,
    /// Whether its key is one of values with conditions.
    pub conditional: bool,
    /// What its value says.
    pub value: Value,
}

/// Why there are no steps.
#[derive(Clone, Copy, Debug, PartialEq, Eq, Error)]
pub enum StepsFault {
    /// The hours of a part would need more than 128 basic domains.
    #[error("TooMany")]
    TooMany,
    /// Memory was refused.
    #[error("NoMemory")]
    NoMemory,
}

impl From<AllocError> for StepsFault {
    ghost use Rattle.std.specs.Prelude.{◌≡◌};
    ghost use Rattle.gtd_conditional_steps.specs.declared.tag.StepsFault.TheVariants.{NoMemory};

    ghost from_gives = { λ _ why. why ≡ NoMemory };

    fn from(_: AllocError) -> StepsFault {
        StepsFault::NoMemory
    }
}
