//! The fields of starts and durations: their letters, the numbers that they may have, and what they give.

ghost use Rattle.std.specs.Prelude.{◌≡◌, ◌≢◌, ◌≤◌, true, false};
ghost use Rattle.gtd_core.specs.FieldTable.{at_letter, start_fields, duration_fields, is_from_to, is_place_value};

use crate::duration::DurationParts;
use crate::start::StartParts;

/// The greatest year of a start, of which the least is 0.
pub const MOST_YEAR: u16 = 9999;

/// The greatest month of a start, December. The least is 1.
pub const MOST_MONTH: u8 = 12;

/// The greatest week of a start, by ISO 8601. The least is 1.
pub const MOST_WEEK: u8 = 53;

/// The greatest day of the month of a start. The least is 1.
pub const MOST_DAY: u8 = 31;

/// The greatest weekday, Saturday. The least is 1, Sunday.
pub const MOST_WEEKDAY: u8 = 7;

/// The greatest number of a place in the month: no weekday comes more often. The least is 1.
pub const MOST_PLACE: u8 = 5;

/// The greatest hour of a start, of which the least is 0.
pub const MOST_HOUR: u8 = 23;

/// The greatest minute of a start, of which the least is 0.
pub const MOST_MINUTE: u8 = 59;

/// The greatest second of a start, of which the least is 0.
pub const MOST_SECOND: u8 = 59;

/// Whether a field of a start has this letter.
pub fn is_start_letter(letter: u8) -> bool
    ensures { result ≡ at_letter start_fields (λ row. true) false letter }
{
    matches!(
        letter,
        b'y' | b'M' | b'w' | b'f' | b'l' | b'd' | b't' | b'h' | b'm' | b's'
    )
}

/// Whether a field of a duration has this letter.
pub fn is_duration_letter(letter: u8) -> bool
    ensures { result ≡ at_letter duration_fields (λ row. true) false letter }
{
    matches!(letter, b'y' | b'M' | b'w' | b'd' | b'h' | b'm' | b's')
}

fn is_from_one(value: u32, most: u8) -> bool
    ensures { result ≡ is_from_to 1 most value }
{
    (1..=u32::from(most)).contains(&value)
}

// A place in the month: a number and a weekday, one digit each.
fn is_place_value(value: u32, digits: u8) -> bool
    ensures { result ≡ is_place_value value digits }
{
    digits == 2 && is_from_one(value / 10, MOST_PLACE) && is_from_one(value % 10, MOST_WEEKDAY)
}

/// Whether a field of a start with this letter may have this number, written in this many digits.
pub fn is_start_value(letter: u8, value: u32, digits: u8) -> bool
    ensures { result ≡ at_letter start_fields (λ row. row.takes value digits) false letter }
{
    match letter {
        b'y' => digits == 4 && value <= u32::from(MOST_YEAR),
        b'M' => is_from_one(value, MOST_MONTH),
        b'w' => is_from_one(value, MOST_WEEK),
        b'f' | b'l' => is_place_value(value, digits),
        b'd' => is_from_one(value, MOST_DAY),
        b't' => is_from_one(value, MOST_WEEKDAY),
        b'h' => value <= u32::from(MOST_HOUR),
        b'm' => value <= u32::from(MOST_MINUTE),
        b's' => value <= u32::from(MOST_SECOND),
        _ => false,
    }
}

/// The start with one more field.
pub fn start_with(parts: StartParts, letter: u8, value: u32) -> StartParts
    requires year { letter ≡ 121 → value ≤ 9999 }
    requires byte { letter ≢ 121 → value ≤ 59 }
    requires weekday { letter ≡ 116 → (1 ≤ value) × (value ≤ 7) }
    ensures { result ≡ at_letter start_fields (λ row. row.gives parts value) parts letter }
{
    match letter {
        b'y' => StartParts {
            year: Some(value as u16),
            ..parts
        },
        _ => start_with_byte(parts, letter, value as u8),
    }
}

fn start_with_byte(parts: StartParts, letter: u8, value: u8) -> StartParts
    requires letter { letter ≢ 121 }
    requires weekday { letter ≡ 116 → (1 ≤ value) × (value ≤ 7) }
    ensures { result ≡ at_letter start_fields (λ row. row.gives parts value) parts letter }
{
    let mut new = parts;
    match letter {
        b'M' => new.month = Some(value),
        b'w' => new.week = Some(value),
        b'f' => new.nth = Some((value / 10, value % 10)),
        b'l' => new.nth_back = Some((value / 10, value % 10)),
        b'd' => new.day = Some(value),
        b't' => new.weekdays |= 1 << (value - 1),
        b'h' => new.hour = Some(value),
        b'm' => new.minute = Some(value),
        b's' => new.second = Some(value),
        _ => {}
    }
    new
}

/// The duration with one more field.
pub fn duration_with(parts: DurationParts, letter: u8, value: u32) -> DurationParts
    ensures { result ≡ at_letter duration_fields (λ row. row.gives parts value) parts letter }
{
    let mut new = parts;
    match letter {
        b'y' => new.years = value,
        b'M' => new.months = value,
        b'w' => new.weeks = value,
        b'd' => new.days = value,
        b'h' => new.hours = value,
        b'm' => new.minutes = value,
        b's' => new.seconds = value,
        _ => {}
    }
    new
}
