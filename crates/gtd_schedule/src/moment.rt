//! The text of a moment, written over the one of the line before.

ghost use Rattle.std.specs.Prelude.{◌≡◌, ◌+◌, ◌*◌, ◌/◌, ◌%◌, ◌<◌, ◌≤◌, ◌++◌, ℤ, ℕ, List, pos, ◌+ℤ◌, length, take, drop, IfSome};
ghost use Rattle.gtd_calendar.specs.Calendar.{IsCalendarDay, month_length};
ghost use Rattle.gtd_calendar.specs.Clock.{second_of_day as clock_of};
ghost use Rattle.gtd_calendar.specs.Stamp as spec;
ghost use Rattle.gtd_calendar.specs.Stamp.{date_text, stamp_text};
ghost use Rattle.gtd_core.specs.Limits.{day_seconds};
ghost use Rattle.gtd_core.specs.Seconds.{day_of_second};
ghost use Rattle.gtd_schedule.specs.Lines.{clock_bytes};
ghost use Rattle.gtd_schedule.specs.Months.{IsDated};
ghost use Rattle.gtd_schedule.specs.Moments.{IsDayOfMonth, IsKeptOf, IsMonthOf, IsShown, IsSomeMonth};

use crate::months::Months;
use gtd_calendar::{second_of_day, write_date};
use gtd_core::Sec;
use gtd_core::limits::DAY_SECONDS;

/// The two digits of each number below 100.
static PAIRS: [u8; 200] = *b"\
    0001020304050607080910111213141516171819202122232425262728293031323334353637383940414243444546474849\
    5051525354555657585960616263646566676869707172737475767778798081828384858687888990919293949596979899\
";

/// The month of a day.
#[derive(Clone, Copy)]
pub(crate) struct Month {
    /// The first second of its first day.
    pub(crate) begins: i64,
    /// The seconds of the days that such a month has in every year.
    pub(crate) seconds: u32,
}

/// What the text of a moment shows. Only what differs from it is written for the next moment.
#[derive(Clone, Copy)]
pub(crate) struct Shown {
    /// The month of its day.
    pub(crate) month: Month,
    /// The second of its day.
    pub(crate) clock: u32,
    /// The second of its hour.
    pub(crate) past_hour: u32,
}

/// Where a second is in a month: its day, from 1 on, and the second of that day.
#[derive(Clone, Copy)]
struct Place {
    day: u32,
    clock: u32,
}

// The two decimal digits of a number.
#[inline(always)]
fn digits_of(value: u32) -> (u8, u8)
    requires small { value < 100 }
    ensures tens { result.0 ≡ spec.digit (value / 10) }
    ensures ones { result.1 ≡ spec.digit value }
{
    let at = 2 * value as usize;
    (PAIRS[at], PAIRS[at + 1])
}

// Writes two decimal digits over the two bytes at a place.
#[inline(always)]
fn write_two(text: &mut [u8], place: usize, value: u32)
    requires small { value < 100 }
    requires inside { place + 2 ≤ length text.old }
    ensures text { text.new ≡ take place text.old ++ (spec.two_digits value ++ drop (place + 2) text.old) }
{
    let (tens, ones) = digits_of(value);
    text[place] = tens;
    text[place + 1] = ones;
}

// The last day that a month of this number has in every year.
fn last_day_of(month: u8) -> u32
    ensures reached { (y : ℤ) → result ≤ month_length y month }
{
    match month {
        2 => 28,
        4 | 6 | 9 | 11 => 30,
        _ => 31,
    }
}

// Writes a day over the one that the text begins with, and answers its month.
#[cold]
#[inline(never)]
pub(crate) fn write_whole_day(text: &mut [u8], day: i64) -> Month
    requires day { IsCalendarDay day }
    requires inside { 10 ≤ length text.old }
    ensures text { text.new ≡ date_text day ++ drop 10 text.old }
    ensures month { IsMonthOf day result }
{
    let date = write_date(day);
    let (front, _) = text.split_at_mut(10);
    front.copy_from_slice(&date);
    let [_, _, _, _, _, month_tens, month_ones, _, tens, ones] = date;
    Month {
        begins: DAY_SECONDS * (day + 1 - i64::from(10 * (tens - b'0') + (ones - b'0'))),
        seconds: 86_400 * last_day_of(10 * (month_tens - b'0') + (month_ones - b'0')),
    }
}

// The place of a second in a month, if each year's has such a day.
#[inline(always)]
fn place_in_month(month: Month, second: Sec) -> Option<Place>
    requires day { IsCalendarDay (day_of_second second.0) }
    requires month { IsSomeMonth month }
    ensures day { IfSome result (λ at. IsDayOfMonth month (day_of_second second.0) at.day) }
    ensures clock { IfSome result (λ at. at.clock ≡ clock_of second.0) }
{
    let since = second.0 - month.begins;
    let seconds = i64::from(month.seconds);
    if since < 0 || seconds <= since {
        return None;
    }
    let since = since as u32;
    let before = since / 86_400;
    let clock = since - 86_400 * before;
    Some(Place {
        day: before + 1,
        clock,
    })
}

// Writes the day of a second over the one that the text begins with, where the known month does not have it: mostly a date of
// its month was computed before the run. Answers the second of the day.
#[cold]
#[inline(never)]
fn write_other_month(text: &mut [u8], month: &mut Month, months: &Months, second: Sec) -> u32
    requires day { IsCalendarDay (day_of_second second.0) }
    requires inside { 10 ≤ length text.old }
    ensures text { text.new ≡ date_text (day_of_second second.0) ++ drop 10 text.old }
    ensures month { IsMonthOf (day_of_second second.0) month.new }
    ensures clock { result ≡ clock_of second.0 }
{
    if let Some(known) = months.near(second) {
        if let Some(at) = place_in_month(known.month, second) {
            let (front, _) = text.split_at_mut(8);
            let (same, _) = known.date.split_at(8);
            front.copy_from_slice(same);
            write_two(text, 8, at.day);
            *month = known.month;
            return at.clock;
        }
    }
    *month = write_whole_day(text, second.day());
    second_of_day(second)
}

// Writes the day of a second over the one of a known month that the text begins with: mostly the new day is in that month
// too. Answers the second of the day.
#[inline(always)]
fn write_day(text: &mut [u8], month: &mut Month, months: &Months, second: Sec) -> u32
    requires day { IsCalendarDay (day_of_second second.0) }
    requires month { IsDated month.old text.old }
    ensures text { text.new ≡ date_text (day_of_second second.0) ++ drop 10 text.old }
    ensures month { IsMonthOf (day_of_second second.0) month.new }
    ensures clock { result ≡ clock_of second.0 }
{
    if let Some(at) = place_in_month(*month, second) {
        write_two(text, 8, at.day);
        return at.clock;
    }
    write_other_month(text, month, months, second)
}

// Writes a clock over the one after the day, if it is another one.
#[inline(always)]
fn write_clock(text: &mut [u8], shown: &mut Shown, clock: u32)
    requires shown { shown.old.clock < day_seconds }
    requires past_hour { shown.old.past_hour ≡ shown.old.clock % 3600 }
    requires clock { clock < day_seconds }
    requires inside { 19 ≤ length text.old }
    ensures text { (n : ℤ) (rest : List ℕ) → text.old ≡ date_text n ++ (clock_bytes shown.old.clock ++ rest)
        → text.new ≡ date_text n ++ (clock_bytes clock ++ rest) }
    ensures month { shown.new.month ≡ shown.old.month }
    ensures clock { shown.new.clock ≡ clock }
    ensures past_hour { shown.new.past_hour ≡ clock % 3600 }
{
    if clock == shown.clock {
        return;
    }
    shown.clock = clock;
    let hours = clock / 3600;
    let seconds = clock - 3600 * hours;
    write_two(text, 11, hours);
    if seconds != shown.past_hour {
        shown.past_hour = seconds;
        let minutes = seconds / 60;
        write_two(text, 14, minutes);
        write_two(text, 17, seconds - 60 * minutes);
    }
}

/// Writes the text of a moment over the one that a text begins with.
#[inline(always)]
pub(crate) fn write_moment(text: &mut [u8], shown: &mut Shown, months: &Months, second: Sec)
    requires day { IsCalendarDay (day_of_second second.0) }
    requires shown { IsShown shown.old text.old }
    ensures text { text.new ≡ stamp_text second.0 ++ drop 19 text.old }
    ensures kept { IsKeptOf second.0 shown.new }
{
    let clock = write_day(text, &mut shown.month, months, second);
    write_clock(text, shown, clock);
}
