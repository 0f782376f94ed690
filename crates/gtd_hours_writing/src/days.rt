//! Holidays and days of Easter, as they are written.

ghost use Rattle.std.specs.Prelude.{◌≡◌, ◌++◌, ◌∷◌, [], false, IfOk, OnOk};
ghost use Rattle.gtd_hours.specs.Written.{end_text, kind_text, offset_text};
ghost use Rattle.gtd_hours_writing.specs.Days.{days_text, easter_day_text, easter_range_text, easter_text, holiday_text};
ghost use Rattle.gtd_hours_writing.specs.Days.{with_days, with_easter, with_holidays, with_month_days, with_selectors};
ghost use Rattle.gtd_hours_writing.specs.Days.{yearly_text};
ghost use Rattle.gtd_hours_writing.specs.Joining.{listed};

use crate::copies::{behind, first_of};
use crate::joining::push_joined;
use crate::rule::MendedRule;
use crate::selectors::text_of;
use gtd_hours::{Dates, End, Months, Selector};
use gtd_hours_dated::MonthItem;
use gtd_hours_days::{EasterDays, EasterRange, Listed, Offset, YearlyDay};
use gtd_hours_holiday_rules::before_holiday;
use itoa::Buffer;
use std::alloc::{AllocError, Global};

// So many days after a day, or before it.
fn push_offset(out: &mut Vec<u8>, before: bool, days: u64) -> Result<(), AllocError>
    ensures { OnOk result (out.new.items ≡ out.old.items ++ offset_text before days) }
{
    if days == 0 {
        return Ok(());
    }
    out.extend_from_slice(if before { b" -" } else { b" +" })?;
    out.extend_from_slice(Buffer::new().format(days).as_bytes())?;
    out.extend_from_slice(if days == 1 { b" day" } else { b" days" })
}

fn push_days(out: &mut Vec<u8>, offset: Offset) -> Result<(), AllocError>
    ensures { OnOk result (out.new.items ≡ out.old.items ++ days_text offset) }
{
    push_offset(out, offset.days.is_negative(), offset.days.unsigned_abs())
}

fn push_easter_day(out: &mut Vec<u8>, offset: Offset) -> Result<(), AllocError>
    ensures { OnOk result (out.new.items ≡ out.old.items ++ easter_day_text offset) }
{
    out.extend_from_slice(b"easter")?;
    push_days(out, offset)
}

fn push_selector(alloc: Global, out: &mut Vec<u8>, selector: Selector) -> Result<(), AllocError>
    ensures { OnOk result (out.new.items ≡ out.old.items ++ kind_text false (selector ∷ [])) }
{
    let text = text_of(alloc, &[selector])?;
    out.extend_from_slice(text.as_slice())
}

fn push_end(alloc: Global, out: &mut Vec<u8>, end: End) -> Result<(), AllocError>
    ensures { OnOk result (out.new.items ≡ out.old.items ++ end_text end) }
{
    match end {
        End::Date(date) => {
            let dates = Dates {
                first: date,
                last: date,
            };
            push_selector(alloc, out, Selector::Dates(dates))
        }
        End::Place(place) => {
            let months = Months {
                first: place.month,
                last: place.month,
            };
            push_selector(alloc, out, Selector::Months(months))?;
            out.push(b' ')?;
            push_selector(alloc, out, Selector::Moved(place.place))
        }
    }
}

fn push_yearly(alloc: Global, out: &mut Vec<u8>, day: YearlyDay) -> Result<(), AllocError>
    ensures { OnOk result (out.new.items ≡ out.old.items ++ yearly_text day) }
{
    match day {
        YearlyDay::Calendar(end) => push_end(alloc, out, end),
        YearlyDay::Easter(offset) => push_easter_day(out, offset),
    }
}

fn push_easter_range(alloc: Global, out: &mut Vec<u8>, range: EasterRange) -> Result<(), AllocError>
    ensures { OnOk result (out.new.items ≡ out.old.items ++ easter_range_text range) }
{
    push_yearly(alloc, out, range.first)?;
    out.push(b'-')?;
    push_yearly(alloc, out, range.last)
}

fn push_easter(alloc: Global, out: &mut Vec<u8>, days: EasterDays) -> Result<(), AllocError>
    ensures { OnOk result (out.new.items ≡ out.old.items ++ easter_text days) }
{
    match days {
        EasterDays::Day { offset } => push_easter_day(out, offset),
        EasterDays::Range(range) => push_easter_range(alloc, out, range),
    }
}

fn push_holiday(alloc: Global, out: &mut Vec<u8>, holiday: Listed) -> Result<(), AllocError>
    ensures { OnOk result (out.new.items ≡ out.old.items ++ holiday_text holiday) }
{
    match holiday {
        Listed::Public { offset } => {
            out.extend_from_slice(b"PH")?;
            push_days(out, offset)
        }
        Listed::School => out.extend_from_slice(b"SH"),
        Listed::Easter(days) => push_easter(alloc, out, days),
    }
}

fn easter_text(alloc: Global, days: EasterDays) -> Result<Vec<u8>, AllocError>
    ensures { IfOk result (λ text. text.items ≡ easter_text days) }
{
    let mut text = Vec::new(alloc);
    push_easter(alloc, &mut text, days)?;
    Ok(text)
}

fn holiday_text(alloc: Global, holiday: Listed) -> Result<Vec<u8>, AllocError>
    ensures { IfOk result (λ text. text.items ≡ holiday_text holiday) }
{
    let mut text = Vec::new(alloc);
    push_holiday(alloc, &mut text, holiday)?;
    Ok(text)
}

// Puts days of Easter behind a list.
fn push_easter_list(
    alloc: Global,
    out: &mut Vec<u8>,
    easter: &[EasterDays],
) -> Result<(), AllocError>
    ensures { OnOk result (out.new.items ≡ with_easter out.old.items easter.now) }
{
    let mut rest = easter;
    while let Some((days, more)) = rest.split_first() {
        let text = easter_text(alloc, *days)?;
        push_joined(out, b',', text.as_slice())?;
        rest = more;
    }
    Ok(())
}

// Puts a holiday behind a list.
fn push_one(alloc: Global, out: &mut Vec<u8>, holiday: Listed) -> Result<(), AllocError>
    ensures { OnOk result (out.new.items ≡ listed out.old.items (holiday_text holiday)) }
{
    let text = holiday_text(alloc, holiday)?;
    push_joined(out, b',', text.as_slice())
}

/// Puts holidays behind a list.
pub(crate) fn push_holidays(
    alloc: Global,
    out: &mut Vec<u8>,
    holidays: &[Listed],
) -> Result<(), AllocError>
    ensures { OnOk result (out.new.items ≡ with_holidays out.old.items holidays.now) }
{
    let mut rest = holidays;
    while let Some((holiday, more)) = rest.split_first() {
        push_one(alloc, out, *holiday)?;
        rest = more;
    }
    Ok(())
}

// Puts selectors of plain hours behind a list.
fn push_selectors(
    alloc: Global,
    out: &mut Vec<u8>,
    selectors: &[Selector],
) -> Result<(), AllocError>
    ensures { OnOk result (out.new.items ≡ with_selectors out.old.items selectors.now) }
{
    let text = text_of(alloc, selectors)?;
    push_joined(out, b',', text.as_slice())
}

/// Puts the month days of a rule behind a list, in their order. Those of its own text are given.
pub(crate) fn push_month_days(
    alloc: Global,
    out: &mut Vec<u8>,
    own: &[Selector],
    rule: &MendedRule,
) -> Result<(), AllocError>
    ensures { OnOk result (out.new.items
        ≡ with_month_days out.old.items rule.now.month_items.items own.now rule.now.dates.items rule.now.easter.items) }
{
    let mut own = own;
    let mut dates = rule.dates.as_slice();
    let mut easter = rule.easter.as_slice();
    let mut rest = rule.month_items.as_slice();
    while let Some((item, later)) = rest.split_first() {
        match item {
            MonthItem::Own => {
                push_selectors(alloc, out, first_of(own, 1))?;
                own = behind(own, 1);
            }
            MonthItem::Moving => {
                push_selectors(alloc, out, first_of(dates, 1))?;
                dates = behind(dates, 1);
            }
            MonthItem::Easter => {
                push_easter_list(alloc, out, first_of(easter, 1))?;
                easter = behind(easter, 1);
            }
        }
        rest = later;
    }
    push_selectors(alloc, out, own)?;
    push_selectors(alloc, out, dates)?;
    push_easter_list(alloc, out, easter)
}

/// Puts weekdays and holidays behind a list, in this order.
pub(crate) fn push_in_order(
    alloc: Global,
    out: &mut Vec<u8>,
    order: &[bool],
    weekdays: &[Selector],
    holidays: &[Listed],
) -> Result<(), AllocError>
    ensures { OnOk result (out.new.items ≡ with_days out.old.items order.now weekdays.now holidays.now) }
{
    let mut order = order;
    let mut weekdays = weekdays;
    let mut rest = holidays;
    while let Some((holiday, more)) = rest.split_first() {
        let place = before_holiday(order);
        push_selectors(alloc, out, first_of(weekdays, place))?;
        push_one(alloc, out, *holiday)?;
        weekdays = behind(weekdays, place);
        order = behind(behind(order, place), 1);
        rest = more;
    }
    push_selectors(alloc, out, weekdays)
}
