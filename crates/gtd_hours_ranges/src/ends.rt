//! The ends of a range that is written, as days of each year.

ghost use Rattle.std.specs.Prelude.{◌≡◌, ◌≤◌, IfNone, IfSome, pos};
ghost use Rattle.gtd_hours.specs.Moving.{day_from};
ghost use Rattle.gtd_hours.specs.declared.places.End.{End};
ghost use Rattle.gtd_hours.specs.declared.places.MonthPlace.{MonthPlace};
ghost use Rattle.gtd_hours_days.specs.declared.offset.Offset.{Offset};
ghost use Rattle.gtd_hours_days.specs.declared.yearly_day.YearlyDay.{YearlyDay};
ghost use Rattle.gtd_hours_ranges.specs.Days.{IsEndOf, IsPlaceOf};

use crate::written::{WrittenEnd, WrittenPlace};
use gtd_hours::{End, MonthDay, MonthPlace, MovedPlace, WeekdayPlace};
use gtd_hours_days::{Offset, YearlyDay};

// The place that is written.
fn place_of(written: WrittenPlace, days: u8, is_before: bool) -> Option<MonthPlace>
    ensures kept { IfSome result (IsPlaceOf written days is_before) }
    ensures none { IfNone result ((x : MonthPlace) → IsPlaceOf written days is_before x → ⊥) }
{
    let place = WeekdayPlace::new(written.weekday, written.number)?;
    let moved = MovedPlace::new(place, written.is_back, days, is_before)?;
    MonthPlace::new(written.month, moved)
}

fn days_from(is_before: bool, days: u16) -> i64
    requires { days ≤ 366 }
    ensures { result ≡ day_from is_before days (pos 0) }
{
    if is_before {
        -i64::from(days)
    } else {
        i64::from(days)
    }
}

// The offset that is written.
fn offset_of(days: u16, is_before: bool) -> Option<Offset>
    ensures kept { IfSome result (λ x. x.days ≡ day_from is_before days (pos 0)) }
    ensures none { IfNone result ((x : Offset) → x.days ≡ day_from is_before days (pos 0) → ⊥) }
{
    if days <= 366 {
        Some(Offset {
            days: days_from(is_before, days),
        })
    } else {
        None
    }
}

/// The end that is written.
pub(crate) fn end_of(written: WrittenEnd) -> Option<YearlyDay>
    ensures kept { IfSome result (IsEndOf written) }
    ensures none { IfNone result ((x : YearlyDay) → IsEndOf written x → ⊥) }
{
    match written {
        WrittenEnd::Day { month, day } => match MonthDay::new(month, day) {
            Some(date) => Some(YearlyDay::Calendar(End::Date(date))),
            None => None,
        },
        WrittenEnd::Place {
            place,
            days,
            is_before,
        } => match place_of(place, days, is_before) {
            Some(place) => Some(YearlyDay::Calendar(End::Place(place))),
            None => None,
        },
        WrittenEnd::Easter {
            days,
            is_before,
            ..
        } => match offset_of(days, is_before) {
            Some(offset) => Some(YearlyDay::Easter(offset)),
            None => None,
        },
    }
}
