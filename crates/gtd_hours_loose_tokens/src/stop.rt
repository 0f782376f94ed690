//! Why the strict form of a text is not found.

use crate::token::TokenFault;
use std::alloc::AllocError;

/// Why the strict form of a text is not found.
#[derive(Clone, Copy, Debug, PartialEq, Eq)]
pub enum LooseStop {
    /// A token is wrong.
    Token(TokenFault),
    /// There is no memory.
    NoMemory,
}

impl From<AllocError> for LooseStop {
    ghost use Rattle.std.specs.Prelude.{◌≡◌};
    ghost use Rattle.gtd_hours_loose_tokens.specs.declared.stop.LooseStop.TheVariants.{NoMemory};

    ghost from_gives = { λ _ stop. stop ≡ NoMemory };

    fn from(_: AllocError) -> LooseStop {
        LooseStop::NoMemory
    }
}
