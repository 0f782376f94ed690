//! Why a text is not read as times.

use gtd_hours_tokens::BadToken;
use std::alloc::AllocError;
use thiserror::Error;

/// Why a text is not read.
#[derive(Clone, Copy, Debug, PartialEq, Eq, Error)]
pub enum NoMomentText {
    /// No token begins at a byte that is no space.
    #[error("BadToken at {place}")]
    BadToken {
        /// The number of bytes before it.
        place: usize,
    },
    /// There is no memory.
    #[error("out of memory")]
    NoMemory,
}

impl From<AllocError> for NoMomentText {
    ghost use Rattle.std.specs.Prelude.{◌≡◌};
    ghost use Rattle.gtd_hours_times.specs.declared.stop.NoMomentText.TheVariants.{NoMemory};

    ghost from_gives = { λ _ stop. stop ≡ NoMemory };

    fn from(_: AllocError) -> NoMomentText {
        NoMomentText::NoMemory
    }
}

impl From<BadToken> for NoMomentText {
    ghost use Rattle.std.specs.Prelude.{◌≡◌};
    ghost use Rattle.gtd_hours_times.specs.declared.stop.NoMomentText.TheVariants as stops;

    ghost from_gives = { λ bad stop. stop ≡ stops.BadToken bad.place };

    fn from(bad: BadToken) -> NoMomentText {
        NoMomentText::BadToken { place: bad.place }
    }
}
