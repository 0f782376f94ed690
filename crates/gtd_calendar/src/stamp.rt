//! The texts of dates and moments.

ghost use Rattle.std.specs.Prelude.{◌≡◌, ◌↔◌, ◌<◌, ◌+◌, ◌*◌, ◌+ℤ◌, ◌*ℤ◌, pos, IsSome, IfSome, codes};
ghost use Rattle.jiff.specs.Words.{IsEpochDay};
ghost use Rattle.gtd_core.specs.Seconds.{day_of_second};
ghost use Rattle.gtd_calendar.specs.Calendar.{IsCalendarDay};
ghost use Rattle.gtd_calendar.specs.Clock.{IsClock};
ghost use Rattle.gtd_calendar.specs.Names.{stamp_fault_name};
ghost use Rattle.gtd_calendar.specs.Stamp as spec;
ghost use Rattle.gtd_calendar.specs.Stamp.{IsDateText, IsStampText};
ghost use Rattle.gtd_calendar.specs.Read.{IsReadDate, IsReadStamp, date_in, stamp_in};
ghost use Rattle.gtd_calendar.specs.ReadParts.{IsTwoDigits, IsFourDigits, IsYmd, IsHms, IsMoment};
ghost use Rattle.gtd_core.specs.Limits.{day_seconds};

use crate::clock::second_of_day;
use crate::day::{date_of, day_of_date};
use gtd_core::Sec;
use gtd_core::limits::{DAY_SECONDS, FIRST_HORIZON_DAY, FIRST_MOMENT, HORIZONS_END, LAST_MOMENT};
use thiserror::Error;

/// Why a text is not a date, or not a moment.
#[derive(Clone, Copy, Debug, PartialEq, Eq, Error)]
pub enum StampFault {
    /// The text does not have exactly the form of a date, or of a moment, in ASCII digits.
    #[error("Shape")]
    Shape,
    /// There is no such date, or the hour, the minute or the second is too large.
    #[error("NoSuchDate")]
    NoSuchDate,
    /// A date before 1901-01-01 or after 2700-01-01; a moment before 1901-01-01T00:00:00 or after 2199-12-31T23:59:59.
    #[error("Range")]
    Range,
}

impl StampFault {
    /// The fault's name, as fault lines show it.
    pub fn name(&self) -> &'static str
        ensures text { result.now ≡ stamp_fault_name self.now }
    {
        match self {
            StampFault::Shape => "Shape",
            StampFault::NoSuchDate => "NoSuchDate",
            StampFault::Range => "Range",
        }
    }
}

// The two decimal digits of a number below 100.
fn two_digits(value: u32) -> [u8; 2]
    requires { value < 100 }
    ensures { result ≡ spec.two_digits value }
{
    let tens = value / 10;
    [b'0' + tens as u8, b'0' + (value - 10 * tens) as u8]
}

/// The text of a day, `YYYY-MM-DD`. The day must be from 1800-01-01 to 2799-12-31.
pub fn write_date(day: i64) -> [u8; 10]
    requires { IsCalendarDay day }
    ensures text { IsDateText day result }
    ensures value { result ≡ spec.date_text day }
{
    let date = date_of(day);
    let year = date.year() as u32;
    let century = year / 100;
    let [y1, y2] = two_digits(century);
    let [y3, y4] = two_digits(year - 100 * century);
    let [m1, m2] = two_digits(date.month() as u32);
    let [d1, d2] = two_digits(date.day() as u32);
    [y1, y2, y3, y4, b'-', m1, m2, b'-', d1, d2]
}

/// The text of the clock at a second, `Thh:mm:ss`.
pub fn write_clock(second: Sec) -> [u8; 9]
    ensures value { result ≡ spec.clock_text second.0 }
{
    let clock = second_of_day(second);
    let minutes = clock / 60;
    let hours = clock / 3600;
    let [h1, h2] = two_digits(hours);
    let [m1, m2] = two_digits(minutes - 60 * hours);
    let [s1, s2] = two_digits(clock - 60 * minutes);
    [b'T', h1, h2, b':', m1, m2, b':', s1, s2]
}

/// The text of a second, `YYYY-MM-DDThh:mm:ss`. Its day must be from 1800-01-01 to 2799-12-31.
pub fn write_stamp(second: Sec) -> [u8; 19]
    requires { IsCalendarDay (day_of_second second.0) }
    ensures text { IsStampText second.0 result }
    ensures value { result ≡ spec.stamp_text second.0 }
{
    let [y1, y2, y3, y4, _, m1, m2, _, d1, d2] = write_date(second.day());
    let [t, h1, h2, _, min1, min2, _, s1, s2] = write_clock(second);
    [
        y1, y2, y3, y4, b'-', m1, m2, b'-', d1, d2, t, h1, h2, b':', min1, min2, b':', s1, s2,
    ]
}

// The value of two digits.
fn two(a: u8, b: u8) -> Option<u8>
    ensures { IsTwoDigits a b result }
{
    if a.is_ascii_digit() && b.is_ascii_digit() {
        Some(10 * (a - b'0') + (b - b'0'))
    } else {
        None
    }
}

// The value of four digits.
fn four(a: u8, b: u8, c: u8, d: u8) -> Option<u16>
    ensures { IsFourDigits a b c d result }
{
    let high = two(a, b)?;
    let low = two(c, d)?;
    Some(100 * u16::from(high) + u16::from(low))
}

// The numbers of a text of the shape `YYYY-MM-DD`.
fn ymd(text: &[u8]) -> Option<(u16, u8, u8)>
    ensures { IsYmd text.now result }
{
    let [y1, y2, y3, y4, b'-', m1, m2, b'-', d1, d2] = text else {
        return None;
    };
    let year = four(*y1, *y2, *y3, *y4)?;
    let month = two(*m1, *m2)?;
    let day = two(*d1, *d2)?;
    Some((year, month, day))
}

// The numbers of a text of the shape `Thh:mm:ss`.
fn hms(text: &[u8]) -> Option<(u8, u8, u8)>
    ensures { IsHms text.now result }
{
    let [b'T', h1, h2, b':', m1, m2, b':', s1, s2] = text else {
        return None;
    };
    let hour = two(*h1, *h2)?;
    let minute = two(*m1, *m2)?;
    let second = two(*s1, *s2)?;
    Some((hour, minute, second))
}

// The numbers of a text of the shape `YYYY-MM-DDThh:mm:ss`.
fn moment(text: &[u8]) -> Option<(u16, u8, u8, u8, u8, u8)>
    ensures { IsMoment text.now result }
{
    let (date, clock) = text.split_at_checked(10)?;
    let (year, month, day) = ymd(date)?;
    let (hour, minute, second) = hms(clock)?;
    Some((year, month, day, hour, minute, second))
}

// The second of a day at a clock time, or `None` if there is no such time.
fn second_on_day(day: i64, hour: u8, minute: u8, second: u8) -> Option<i64>
    requires day_in { IsEpochDay day }
    ensures exists { IsSome result ↔ IsClock hour minute second }
    ensures value { IfSome result
        (λ s. s ≡ pos day_seconds *ℤ day +ℤ pos (3600 * hour + 60 * minute + second)) }
{
    if hour > 23 || minute > 59 || second > 59 {
        return None;
    }
    let clock = 3600 * u32::from(hour) + 60 * u32::from(minute) + u32::from(second);
    Some(DAY_SECONDS * day + i64::from(clock))
}

/// The day of a text `YYYY-MM-DD`.
///
/// The faults, in their order: `Shape` if the text does not have exactly this form in ASCII digits; `NoSuchDate` if the
/// calendar has no such date; `Range` if the date is before 1901-01-01 or after 2700-01-01.
pub fn read_date(text: &[u8]) -> Result<i64, StampFault>
    ensures day { IsReadDate text.now result }
    ensures value { result ≡ date_in text.now }
{
    let (year, month, day) = ymd(text).ok_or(StampFault::Shape)?;
    let number = day_of_date(year as i16, month, day).ok_or(StampFault::NoSuchDate)?;
    if number < FIRST_HORIZON_DAY || number > HORIZONS_END {
        return Err(StampFault::Range);
    }
    Ok(number)
}

/// The second of a text `YYYY-MM-DDThh:mm:ss`.
///
/// The faults, in their order: `Shape` if the text does not have exactly this form in ASCII digits; `NoSuchDate` if the
/// calendar has no such date, or the hour is over 23, or the minute or the second over 59; `Range` if the moment is
/// before 1901-01-01T00:00:00 or after 2199-12-31T23:59:59.
pub fn read_stamp(text: &[u8]) -> Result<Sec, StampFault>
    ensures second { IsReadStamp text.now result }
    ensures value { result ≡ stamp_in text.now }
{
    let (year, month, day, hour, minute, second) = moment(text).ok_or(StampFault::Shape)?;
    let day = day_of_date(year as i16, month, day).ok_or(StampFault::NoSuchDate)?;
    let number = second_on_day(day, hour, minute, second).ok_or(StampFault::NoSuchDate)?;
    if number < FIRST_MOMENT || number > LAST_MOMENT {
        return Err(StampFault::Range);
    }
    Ok(Sec(number))
}
