//! Places of a weekday in the month.

ghost use Rattle.std.specs.Prelude.{◌≡◌, ◌↔◌, IfSome, IsSome};
ghost use Rattle.gtd_hours.specs.Ranges.{IsWeekday};
ghost use Rattle.gtd_hours_parts.specs.Numbers.{IsPlaceNumber};

use crate::digits::Digits;
use gtd_hours::WeekdayPlace;

/// The `1` of `We[1]` and of `We[-1]`: a weekday by its place in the month. `None` exactly if the weekday is not from 1 to 7 or
/// the number is no place.
pub fn place(weekday: u8, number: Digits) -> Option<WeekdayPlace>
    ensures kept { IfSome result (λ x. (x.weekday ≡ weekday) × (x.number ≡ number.value)) }
    ensures accepted { IsSome result ↔ (IsWeekday weekday × IsPlaceNumber number) }
{
    let place = number.place()?;
    WeekdayPlace::new(weekday, place)
}
