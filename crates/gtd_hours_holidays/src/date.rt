//! Dates of a table.

ghost use Rattle.std.specs.Prelude.{◌≡◌, ◌<◌, ℤ, IfSome, MatchOption};
ghost use Rattle.gtd_calendar.specs.Calendar.{IsCalendarDay};
ghost use Rattle.gtd_calendar.specs.ReadParts.{IsFourDigits, IsTwoDigits, IsYmd};
ghost use Rattle.gtd_hours_holidays.specs.Dates.{IsDayText};

use gtd_calendar::day_of;

// The value of two digits.
fn two(a: u8, b: u8) -> Option<u8>
    ensures { IsTwoDigits a b result }
{
    if a.is_ascii_digit() && b.is_ascii_digit() {
        Some(10 * (a - b'0') + (b - b'0'))
    } else {
        None
    }
}

// The value of four digits.
fn four(a: u8, b: u8, c: u8, d: u8) -> Option<u16>
    ensures { IsFourDigits a b c d result }
{
    let high = two(a, b)?;
    let low = two(c, d)?;
    Some(100 * u16::from(high) + u16::from(low))
}

// The numbers of a text of the shape `YYYY-MM-DD`.
fn ymd(text: &[u8]) -> Option<(u16, u8, u8)>
    ensures { IsYmd text.now result }
{
    let [y1, y2, y3, y4, b'-', m1, m2, b'-', d1, d2] = text else {
        return None;
    };
    let year = four(*y1, *y2, *y3, *y4)?;
    let month = two(*m1, *m2)?;
    let day = two(*d1, *d2)?;
    Some((year, month, day))
}

/// The day of a text `YYYY-MM-DD`, or `None` exactly if the text does not have this form, there is no such date, or its year is
/// not from 1800 to 2799. Takes no memory.
pub(crate) fn read_day(text: &[u8]) -> Option<i64>
    ensures day { MatchOption result ((n : ℤ) → IsDayText text.now n → ⊥) (IsDayText text.now) }
    ensures near { IfSome result IsCalendarDay }
{
    let (year, month, day) = ymd(text)?;
    day_of(i64::from(year), month, day)
}
