//! Why a text has no rules with holidays.

use gtd_hours_tokens::BadToken;
use std::alloc::AllocError;

/// Why a text has no rules.
#[derive(Clone, Copy, Debug, PartialEq, Eq)]
pub enum NoHolidayText {
    /// No token begins at a byte that is no space, or a comment begins there that does not end or has a control byte.
    BadToken {
        /// The number of bytes before it.
        place: usize,
    },
    /// There is no memory.
    NoMemory,
}

impl From<AllocError> for NoHolidayText {
    ghost use Rattle.std.specs.Prelude.{◌≡◌};
    ghost use Rattle.gtd_hours_items.specs.declared.stop.NoHolidayText.TheVariants.{NoMemory};

    ghost from_gives = { λ _ stop. stop ≡ NoMemory };

    fn from(_: AllocError) -> NoHolidayText {
        NoHolidayText::NoMemory
    }
}

impl From<BadToken> for NoHolidayText {
    ghost use Rattle.std.specs.Prelude.{◌≡◌};
    ghost use Rattle.gtd_hours_items.specs.declared.stop.NoHolidayText.TheVariants as stops;

    ghost from_gives = { λ bad stop. stop ≡ stops.BadToken bad.place };

    fn from(bad: BadToken) -> NoHolidayText {
        NoHolidayText::BadToken { place: bad.place }
    }
}
