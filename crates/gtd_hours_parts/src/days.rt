//! The days of offsets.

ghost use Rattle.std.specs.Prelude.{◌≡◌, ◌↔◌, IfSome, IsSome, Some};
ghost use Rattle.gtd_hours_parts.specs.Numbers.{IsOffsetNumber};
ghost use Rattle.gtd_hours_parts.specs.Values.{AreDaysOf};

use crate::digits::Digits;
use crate::piece::Offset;

/// So many days after places in the month, or before them.
#[derive(Clone, Copy, Debug, PartialEq, Eq)]
pub struct Days {
    /// Whether they are before the places.
    pub is_before: bool,
    /// How many days, 1 to 27.
    pub count: u8,
}

impl Digits {
    /// The number as the days of an offset, or `None` exactly if it does not have one or two digits or is not from 1 to 27.
    pub fn offset(self) -> Option<u8>
        ensures kept { IfSome result (λ days. days ≡ self.value) }
        ensures accepted { IsSome result ↔ IsOffsetNumber self }
    {
        if 1 <= self.count && self.count <= 2 && 1 <= self.value && self.value <= 27 {
            Some(self.value as u8)
        } else {
            None
        }
    }
}

/// `-2 days`, or `None` exactly if the number is not that of an offset.
pub fn days_of(offset: Offset) -> Option<Days>
    ensures kept { IfSome result (λ x. AreDaysOf (Some x) (Some offset)) }
    ensures accepted { IsSome result ↔ IsOffsetNumber offset.days }
{
    let count = offset.days.offset()?;
    Some(Days {
        is_before: offset.is_before,
        count,
    })
}
