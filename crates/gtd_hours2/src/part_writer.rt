//! Parts of rules, as they are written.

ghost use Rattle.std.specs.Prelude.{◌≡◌, ◌==◌, ◌&&◌, ◌++◌, [], not, OnOk, codes, decimal, if◌then◌else◌};
ghost use Rattle.gtd_hours2.specs.Written.{closing_text, dated_text, days_text, end_text, event_text, holidays_text, months_text, next_text};
ghost use Rattle.gtd_hours2.specs.Written.{month_name, nth_text, offset_text, part_text, same_day, same_flag, same_offset, share};
ghost use Rattle.gtd_hours2.specs.Written.{shared_text, step_text, tail_text, time_text, weekday_name, weekdays_text, weeks_text};
ghost use Rattle.gtd_hours2.specs.Written.{yearly_text, years_text};

use crate::names::{
    event_name, month_name, push_clock, push_nth, push_number, push_offset, push_step, weekday_name,
};
use crate::values::{DayOffset, HolidayKind, RulePart, SunEvent, TimeOfDay, TimeTail, YearlyDay};
use std::alloc::AllocError;

fn same_flag(one: bool, other: bool) -> bool
    ensures { result ≡ same_flag one other }
{
    if one { other } else { !other }
}

fn same_offset(one: DayOffset, other: DayOffset) -> bool
    ensures { result ≡ same_offset one other }
{
    one.days == other.days && same_flag(one.is_before, other.is_before)
}

// Whether both are the same day of each year.
fn same_day(one: YearlyDay, other: YearlyDay) -> bool
    ensures { result ≡ same_day one other }
{
    match one {
        YearlyDay::Date { month, day } => match other {
            YearlyDay::Date { month: m, day: d } => month == m && day == d,
            _ => false,
        },
        YearlyDay::NthWeekday {
            month,
            weekday,
            number,
            is_back,
            offset,
        } => match other {
            YearlyDay::NthWeekday {
                month: m,
                weekday: w,
                number: n,
                is_back: b,
                offset: o,
            } => {
                month == m
                    && weekday == w
                    && number == n
                    && same_flag(is_back, b)
                    && same_offset(offset, o)
            }
            _ => false,
        },
        YearlyDay::Easter(offset) => match other {
            YearlyDay::Easter(o) => same_offset(offset, o),
            _ => false,
        },
    }
}

fn push_date(out: &mut Vec<u8>, month: u8, day: u8) -> Result<(), AllocError>
    ensures { OnOk result (out.new.items ≡ out.old.items ++ (month_name month ++ codes " " ++ decimal day)) }
{
    out.extend_from_slice(month_name(month))?;
    out.extend_from_slice(b" ")?;
    push_number(out, u16::from(day))
}

// A weekday and which of those of its month it is, without the closing bracket.
fn push_nth_weekday(
    out: &mut Vec<u8>,
    weekday: u8,
    number: u8,
    is_back: bool,
) -> Result<(), AllocError>
    ensures { OnOk result (out.new.items
        ≡ out.old.items ++ (weekday_name weekday ++ codes "[" ++ nth_text is_back number)) }
{
    out.extend_from_slice(weekday_name(weekday))?;
    out.extend_from_slice(b"[")?;
    push_nth(out, is_back, number)
}

fn push_bracket(out: &mut Vec<u8>, offset: DayOffset) -> Result<(), AllocError>
    ensures { OnOk result (out.new.items ≡ out.old.items ++ (codes "]" ++ offset_text offset)) }
{
    out.extend_from_slice(b"]")?;
    push_offset(out, offset)
}

fn push_yearly(out: &mut Vec<u8>, day: YearlyDay) -> Result<(), AllocError>
    ensures { OnOk result (out.new.items ≡ out.old.items ++ yearly_text day) }
{
    match day {
        YearlyDay::Date { month, day } => push_date(out, month, day),
        YearlyDay::NthWeekday {
            month,
            weekday,
            number,
            is_back,
            offset,
        } => {
            out.extend_from_slice(month_name(month))?;
            out.extend_from_slice(b" ")?;
            push_nth_weekday(out, weekday, number, is_back)?;
            push_bracket(out, offset)
        }
        YearlyDay::Easter(offset) => {
            out.extend_from_slice(b"easter")?;
            push_offset(out, offset)
        }
    }
}

fn push_years(
    out: &mut Vec<u8>,
    follows: bool,
    first: u16,
    last: Option<u16>,
    step: u16,
) -> Result<(), AllocError>
    ensures { OnOk result (out.new.items ≡ out.old.items ++ years_text follows first last step) }
{
    push_number(out, first)?;
    match last {
        None => {
            if step == 1 {
                return out.extend_from_slice(b"+");
            }
            push_step(out, step)
        }
        Some(last) => {
            if first == last && step == 1 && !follows {
                return Ok(());
            }
            push_last(out, last, step)
        }
    }
}

// The last number of a range and its step.
fn push_last(out: &mut Vec<u8>, last: u16, step: u16) -> Result<(), AllocError>
    ensures { OnOk result (out.new.items ≡ out.old.items ++ (codes "-" ++ decimal last ++ step_text step)) }
{
    out.extend_from_slice(b"-")?;
    push_number(out, last)?;
    push_step(out, step)
}

fn push_months(out: &mut Vec<u8>, first: u8, last: u8) -> Result<(), AllocError>
    ensures { OnOk result (out.new.items ≡ out.old.items ++ months_text first last) }
{
    out.extend_from_slice(month_name(first))?;
    if first == last {
        return Ok(());
    }
    out.extend_from_slice(b"-")?;
    out.extend_from_slice(month_name(last))
}

fn push_days(out: &mut Vec<u8>, first: YearlyDay, last: YearlyDay) -> Result<(), AllocError>
    ensures { OnOk result (out.new.items ≡ out.old.items ++ days_text first last) }
{
    push_yearly(out, first)?;
    if same_day(first, last) {
        return Ok(());
    }
    out.extend_from_slice(b"-")?;
    push_yearly(out, last)
}

// A day of a year.
fn push_dated_day(out: &mut Vec<u8>, year: u16, day: YearlyDay) -> Result<(), AllocError>
    ensures { OnOk result (out.new.items ≡ out.old.items ++ (decimal year ++ codes " " ++ yearly_text day)) }
{
    push_number(out, year)?;
    out.extend_from_slice(b" ")?;
    push_yearly(out, day)
}

fn push_dated(
    out: &mut Vec<u8>,
    year: u16,
    first: YearlyDay,
    last_year: u16,
    last: YearlyDay,
) -> Result<(), AllocError>
    ensures { OnOk result (out.new.items ≡ out.old.items ++ dated_text year first last_year last) }
{
    push_dated_day(out, year, first)?;
    if year == last_year && same_day(first, last) {
        return Ok(());
    }
    out.extend_from_slice(b"-")?;
    push_dated_day(out, last_year, last)
}

fn push_weeks(out: &mut Vec<u8>, first: u8, last: u8, step: u16) -> Result<(), AllocError>
    ensures { OnOk result (out.new.items ≡ out.old.items ++ weeks_text first last step) }
{
    push_number(out, u16::from(first))?;
    if first == last && step == 1 {
        return Ok(());
    }
    push_last(out, u16::from(last), step)
}

fn push_holidays(out: &mut Vec<u8>, kind: HolidayKind, offset: DayOffset) -> Result<(), AllocError>
    ensures { OnOk result (out.new.items ≡ out.old.items ++ holidays_text kind offset) }
{
    match kind {
        HolidayKind::Public => {
            out.extend_from_slice(b"PH")?;
            push_offset(out, offset)
        }
        HolidayKind::School => out.extend_from_slice(b"SH"),
    }
}

fn push_weekdays(out: &mut Vec<u8>, first: u8, last: u8) -> Result<(), AllocError>
    ensures { OnOk result (out.new.items ≡ out.old.items ++ weekdays_text first last) }
{
    out.extend_from_slice(weekday_name(first))?;
    if first == last {
        return Ok(());
    }
    out.extend_from_slice(b"-")?;
    out.extend_from_slice(weekday_name(last))
}

fn push_event(
    out: &mut Vec<u8>,
    event: SunEvent,
    minutes: u16,
    is_before: bool,
) -> Result<(), AllocError>
    ensures { OnOk result (out.new.items ≡ out.old.items ++ event_text event minutes is_before) }
{
    if minutes == 0 {
        return out.extend_from_slice(event_name(event));
    }
    out.extend_from_slice(b"(")?;
    out.extend_from_slice(event_name(event))?;
    out.extend_from_slice(if is_before { b"-" } else { b"+" })?;
    push_clock(out, minutes)?;
    out.extend_from_slice(b")")
}

fn push_time_of_day(out: &mut Vec<u8>, time: TimeOfDay) -> Result<(), AllocError>
    ensures { OnOk result (out.new.items ≡ out.old.items ++ time_text time) }
{
    match time {
        TimeOfDay::Clock(minute) => push_clock(out, minute),
        TimeOfDay::Event {
            event,
            minutes,
            is_before,
        } => push_event(out, event, minutes, is_before),
    }
}

fn push_end(out: &mut Vec<u8>, last: Option<TimeOfDay>) -> Result<(), AllocError>
    ensures { OnOk result (out.new.items ≡ out.old.items ++ end_text last) }
{
    match last {
        None => Ok(()),
        Some(time) => {
            out.extend_from_slice(b"-")?;
            push_time_of_day(out, time)
        }
    }
}

fn push_tail(out: &mut Vec<u8>, tail: TimeTail) -> Result<(), AllocError>
    ensures { OnOk result (out.new.items ≡ out.old.items ++ tail_text tail) }
{
    match tail {
        TimeTail::Plain => Ok(()),
        TimeTail::Open => out.extend_from_slice(b"+"),
        TimeTail::Every(minutes) => {
            out.extend_from_slice(b"/")?;
            push_number(out, minutes)
        }
    }
}

fn push_times(
    out: &mut Vec<u8>,
    first: TimeOfDay,
    last: Option<TimeOfDay>,
    tail: TimeTail,
) -> Result<(), AllocError>
    ensures { OnOk result (out.new.items ≡ out.old.items ++ (time_text first ++ end_text last ++ tail_text tail)) }
{
    push_time_of_day(out, first)?;
    push_end(out, last)?;
    push_tail(out, tail)
}

// A part, where other selectors follow its list or not; weekdays of a month are without the closing bracket.
pub(crate) fn push_part(out: &mut Vec<u8>, follows: bool, part: RulePart) -> Result<(), AllocError>
    ensures { OnOk result (out.new.items ≡ out.old.items ++ part_text follows part) }
{
    match part {
        RulePart::Years { first, last, step } => push_years(out, follows, first, last, step),
        RulePart::Months { first, last } => push_months(out, first, last),
        RulePart::Days { first, last } => push_days(out, first, last),
        RulePart::Dated {
            year,
            first,
            last_year,
            last,
        } => push_dated(out, year, first, last_year, last),
        RulePart::Weeks { first, last, step } => push_weeks(out, first, last, step),
        RulePart::Holidays { kind, offset } => push_holidays(out, kind, offset),
        RulePart::Weekdays { first, last } => push_weekdays(out, first, last),
        RulePart::NthWeekday {
            weekday,
            number,
            is_back,
            ..
        } => push_nth_weekday(out, weekday, number, is_back),
        RulePart::Time { first, last, tail } => push_times(out, first, last, tail),
    }
}

// Whether both are the same but for their numbers, so that they share their brackets.
fn share(one: RulePart, other: RulePart) -> bool
    ensures { result ≡ share one other }
{
    match one {
        RulePart::NthWeekday {
            weekday,
            offset,
            ..
        } => match other {
            RulePart::NthWeekday {
                weekday: w,
                offset: o,
                ..
            } => weekday == w && same_offset(offset, o),
            _ => false,
        },
        _ => false,
    }
}

// A later number in the same brackets.
fn push_shared(out: &mut Vec<u8>, part: RulePart) -> Result<(), AllocError>
    ensures { OnOk result (out.new.items ≡ out.old.items ++ shared_text part) }
{
    match part {
        RulePart::NthWeekday {
            number,
            is_back,
            ..
        } => push_nth(out, is_back, number),
        _ => Ok(()),
    }
}

pub(crate) fn push_closing(out: &mut Vec<u8>, part: RulePart) -> Result<(), AllocError>
    ensures { OnOk result (out.new.items ≡ out.old.items ++ closing_text part) }
{
    match part {
        RulePart::NthWeekday { offset, .. } => push_bracket(out, offset),
        _ => Ok(()),
    }
}

// A part after another one of its list.
pub(crate) fn push_next(
    out: &mut Vec<u8>,
    before: RulePart,
    part: RulePart,
) -> Result<(), AllocError>
    ensures { OnOk result (out.new.items ≡ out.old.items ++ next_text before part) }
{
    if share(before, part) {
        out.extend_from_slice(b",")?;
        return push_shared(out, part);
    }
    push_closing(out, before)?;
    out.extend_from_slice(b",")?;
    push_part(out, false, part)
}
