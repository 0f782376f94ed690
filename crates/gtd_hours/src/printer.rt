//! Opening hours, written in the syntax of OpenStreetMap.

ghost use Rattle.std.specs.Prelude.{◌==◌, ◌≡◌, ◌≤◌, ◌<◌, ◌+◌, ◌++◌, [], ◌∷◌, if◌then◌else◌, string_bytes, codes, decimal};
ghost use Rattle.std.specs.Prelude.{IfOk, OnOk};
ghost use Rattle.gtd_hours.specs.Written.{are_back_weeks, are_moved_alike, begun_place, begun_text, dated_text, go_on};
ghost use Rattle.gtd_hours.specs.Written.{is_one_date, joined_text, joins, listed_text, place_end, places_join, weeks_join};
ghost use Rattle.gtd_hours.specs.Ranges.{IsMonth, IsWeekday};
ghost use Rattle.gtd_hours.specs.Written.{clock_text, dates_text, four_digits, goes_into, hours_text, is_some_kind, kind_text};
ghost use Rattle.gtd_hours.specs.Written.{kind_word, kinds_text, link_text, modifier_text, month_day_text, month_name};
ghost use Rattle.gtd_hours.specs.Written.{months_text, more_rules_text, more_selectors_text, more_times_text, needs_word};
ghost use Rattle.gtd_hours.specs.Written.{rule_text, rules_text, selector_text, spans_text, step_text, time_text, times_text};
ghost use Rattle.gtd_hours.specs.Written.{two_digits, weekday_name, weekdays_text, weeks_text, year_date_text, years_text};
ghost use Rattle.gtd_hours.specs.Written.{end_text, moved_text, offset_text, selectors_text, yearly_text};

use crate::hours::{
    Dated, Dates, Hours, Kind, Link, Modifier, MonthDay, Months, Rule, Selector, TimeRange,
    WeekdayPlace, Weekdays, Weeks, YearDate, YearlyDays, Years,
};
use crate::moving::Moving;
use crate::places::{End, MonthPlace, MovedPlace};
use itoa::Buffer;
use std::alloc::{AllocError, Global};

/// The text of the hours, or an error if memory was refused.
///
/// Years up to 2799 are written without this last year where a text can have them so, weeks over New Year as one range, and
/// neighbouring places of one weekday with the same days from them in the same brackets.
///
/// Rules have `; `, `, ` or ` || ` before them, as their links say, kinds of selectors and times a space, and a closed rule ends
/// in ` off`. An open rule ends in ` open` only where the comma of the next rule would else go on with its times or selectors. A
/// rule without selectors and times begins with `24/7`.
pub fn print_hours(alloc: Global, hours: &Hours) -> Result<String, AllocError>
    ensures exact { IfOk result (λ text. string_bytes text ≡ hours_text hours.now) }
{
    let mut out = String::new(alloc);
    push_rules(&mut out, hours.rules.as_slice())?;
    Ok(out)
}

fn push_rules(out: &mut String, rules: &[Rule]) -> Result<(), AllocError>
    ensures { OnOk result (string_bytes out.new ≡ string_bytes out.old ++ rules_text rules.now) }
{
    match rules.split_first() {
        None => Ok(()),
        Some((first, more)) => {
            push_rule(out, first, more)?;
            push_more_rules(out, more)
        }
    }
}

fn push_more_rules(out: &mut String, rules: &[Rule]) -> Result<(), AllocError>
    ensures { OnOk result (string_bytes out.new ≡ string_bytes out.old ++ more_rules_text rules.now) }
{
    let mut rest = rules;
    while let Some((rule, more)) = rest.split_first() {
        push_link(out, rule.link)?;
        push_rule(out, rule, more)?;
        rest = more;
    }
    Ok(())
}

fn push_link(out: &mut String, link: Link) -> Result<(), AllocError>
    ensures { OnOk result (string_bytes out.new ≡ string_bytes out.old ++ link_text link) }
{
    match link {
        Link::Instead => out.push_str("; "),
        Link::Also => out.push_str(", "),
        Link::Fallback => out.push_str(" || "),
    }
}

// A rule, where these follow.
fn push_rule(out: &mut String, rule: &Rule, more: &[Rule]) -> Result<(), AllocError>
    ensures { OnOk result (string_bytes out.new ≡ string_bytes out.old ++ rule_text rule.now more.now) }
{
    push_spans(out, rule.kinds.as_slice(), rule.times.as_slice())?;
    push_modifier(out, rule.modifier, needs_word(rule, more))
}

fn push_modifier(out: &mut String, modifier: Modifier, needed: bool) -> Result<(), AllocError>
    ensures { OnOk result (string_bytes out.new ≡ string_bytes out.old ++ modifier_text modifier needed) }
{
    match modifier {
        Modifier::Open => {
            if needed {
                return out.push_str(" open");
            }
            Ok(())
        }
        Modifier::Closed => out.push_str(" off"),
    }
}

// Whether the comma of the next rule would go on with a list of this one.
fn needs_word(rule: &Rule, more: &[Rule]) -> bool
    ensures { result ≡ needs_word rule.now more.now }
{
    match more.first() {
        None => false,
        Some(next) => match next.link {
            Link::Also => goes_into(rule, next),
            Link::Instead | Link::Fallback => false,
        },
    }
}

fn goes_into(rule: &Rule, next: &Rule) -> bool
    ensures { result ≡ goes_into rule.now next.now }
{
    if rule.times.is_empty() {
        return !rule.kinds.is_empty();
    }
    !next.times.is_empty() && next.kinds.is_empty()
}

fn push_spans(out: &mut String, kinds: &[Kind], times: &[TimeRange]) -> Result<(), AllocError>
    ensures { OnOk result (string_bytes out.new ≡ string_bytes out.old ++ spans_text kinds.now times.now) }
{
    if kinds.is_empty() {
        if times.is_empty() {
            return out.push_str("24/7");
        }
        return push_times(out, times);
    }
    push_kinds(out, kinds)?;
    if times.is_empty() {
        return Ok(());
    }
    out.push_str(" ")?;
    push_times(out, times)
}

fn push_kinds(out: &mut String, kinds: &[Kind]) -> Result<(), AllocError>
    ensures { OnOk result (string_bytes out.new ≡ string_bytes out.old ++ kinds_text kinds.now) }
{
    let mut rest = kinds;
    while let Some((kind, more)) = rest.split_first() {
        push_kind(out, kind.selectors.as_slice(), more)?;
        rest = more;
    }
    Ok(())
}

// A kind, and a space if more follow.
fn push_kind(out: &mut String, selectors: &[Selector], more: &[Kind]) -> Result<(), AllocError>
    ensures { OnOk result (string_bytes out.new ≡ string_bytes out.old ++ kind_text (is_some_kind more.now) selectors.now
        ++ (if is_some_kind more.now then codes " " else [])) }
{
    if more.is_empty() {
        return push_selectors(out, false, selectors);
    }
    push_selectors(out, true, selectors)?;
    out.push_str(" ")
}

fn push_selectors(out: &mut String, follows: bool, selectors: &[Selector]) -> Result<(), AllocError>
    ensures { OnOk result (string_bytes out.new ≡ string_bytes out.old ++ kind_text follows selectors.now) }
{
    match selectors.split_first() {
        None => Ok(()),
        Some((first, more)) => {
            push_word(out, *first)?;
            push_one_or_more(out, follows, *first, more)
        }
    }
}

// A selector by itself, or a list that begins with it.
fn push_one_or_more(
    out: &mut String,
    follows: bool,
    first: Selector,
    more: &[Selector],
) -> Result<(), AllocError>
    ensures { OnOk result (string_bytes out.new ≡ string_bytes out.old ++ selectors_text follows first more.now) }
{
    match more.split_first() {
        None => push_selector(out, follows, first),
        Some(_) => {
            push_listed(out, first, more)?;
            push_more_selectors(out, first, more)
        }
    }
}

fn push_word(out: &mut String, selector: Selector) -> Result<(), AllocError>
    ensures { OnOk result (string_bytes out.new ≡ string_bytes out.old ++ kind_word selector) }
{
    match selector {
        Selector::Weeks(_) => out.push_str("week "),
        _ => Ok(()),
    }
}

// Selectors behind one of their kind.
fn push_more_selectors(
    out: &mut String,
    first: Selector,
    selectors: &[Selector],
) -> Result<(), AllocError>
    ensures { OnOk result (string_bytes out.new ≡ string_bytes out.old ++ more_selectors_text first selectors.now) }
{
    let mut before = first;
    let mut rest = selectors;
    while let Some((selector, more)) = rest.split_first() {
        if joins(before, rest) {
            push_joined(out, *selector, more)?;
        } else {
            out.push_str(",")?;
            push_listed(out, *selector, more)?;
        }
        before = *selector;
        rest = more;
    }
    Ok(())
}

// Whether a selector is written in one with the first of those behind it.
fn joins(selector: Selector, more: &[Selector]) -> bool
    ensures { result ≡ joins selector more.now }
{
    match selector {
        Selector::Weeks(weeks) => weeks_join(weeks, more),
        Selector::Moved(place) => places_join(place, more),
        _ => false,
    }
}

fn weeks_join(weeks: Weeks, more: &[Selector]) -> bool
    ensures { result ≡ weeks_join weeks more.now }
{
    match more.first() {
        None => false,
        Some(next) => match *next {
            Selector::Weeks(next) => are_back_weeks(weeks, next),
            _ => false,
        },
    }
}

// Weeks to the last one, before those from the first one to one that is before them.
fn are_back_weeks(weeks: Weeks, next: Weeks) -> bool
    ensures { result ≡ are_back_weeks weeks next }
{
    weeks.last == 53
        && weeks.step == 1
        && next.first == 1
        && next.step == 1
        && next.last < weeks.first
}

fn places_join(place: MovedPlace, more: &[Selector]) -> bool
    ensures { result ≡ places_join place more.now }
{
    match more.first() {
        None => false,
        Some(next) => match *next {
            Selector::Moved(next) => are_moved_alike(place, next),
            _ => false,
        },
    }
}

// Places of one weekday that are moved by as many days in the same direction.
fn are_moved_alike(place: MovedPlace, next: MovedPlace) -> bool
    ensures { result ≡ are_moved_alike place next }
{
    place.place.weekday == next.place.weekday
        && place.days == next.days
        && place.is_before == next.is_before
}

// A selector of a list that is not written in one with the one before it, where these follow.
fn push_listed(out: &mut String, selector: Selector, more: &[Selector]) -> Result<(), AllocError>
    ensures { OnOk result (string_bytes out.new ≡ string_bytes out.old ++ listed_text selector more.now) }
{
    if joins(selector, more) {
        return push_begun(out, selector);
    }
    push_selector(out, false, selector)
}

// The first of selectors that are written in one.
fn push_begun(out: &mut String, selector: Selector) -> Result<(), AllocError>
    ensures { OnOk result (string_bytes out.new ≡ string_bytes out.old ++ begun_text selector) }
{
    match selector {
        Selector::Weeks(weeks) => out.push_str(Buffer::new().format(weeks.first)),
        Selector::Moved(place) => push_begun_place(out, place.is_back, place.place),
        _ => Ok(()),
    }
}

// A later one of them, where these follow.
fn push_joined(out: &mut String, selector: Selector, more: &[Selector]) -> Result<(), AllocError>
    ensures { OnOk result (string_bytes out.new ≡ string_bytes out.old ++ joined_text selector more.now) }
{
    match selector {
        Selector::Weeks(weeks) => {
            out.push_str("-")?;
            out.push_str(Buffer::new().format(weeks.last))
        }
        Selector::Moved(place) => push_joined_place(out, place, more),
        _ => Ok(()),
    }
}

fn push_joined_place(
    out: &mut String,
    place: MovedPlace,
    more: &[Selector],
) -> Result<(), AllocError>
    ensures { OnOk result (string_bytes out.new ≡ string_bytes out.old ++ ((if place.is_back then codes ",-" else codes ",")
        ++ decimal place.place.number ++ (if places_join place more.now then [] else place_end place))) }
{
    out.push_str(if place.is_back { ",-" } else { "," })?;
    out.push_str(Buffer::new().format(place.place.number))?;
    if places_join(place, more) {
        return Ok(());
    }
    push_place_end(out, place)
}

fn push_selector(out: &mut String, follows: bool, selector: Selector) -> Result<(), AllocError>
    ensures { OnOk result (string_bytes out.new ≡ string_bytes out.old ++ selector_text follows selector) }
{
    match selector {
        Selector::Years(years) => push_years(out, follows, years),
        Selector::Months(months) => push_months(out, months),
        Selector::Dates(dates) => push_dates(out, dates),
        Selector::Dated(dates) => push_dated(out, dates),
        Selector::Weeks(weeks) => push_weeks(out, weeks),
        Selector::Weekdays(days) => push_weekdays(out, days),
        Selector::Nth(place) => push_place(out, "[", place),
        Selector::NthBack(place) => push_place(out, "[-", place),
        Selector::Moved(place) => push_moved(out, place),
        Selector::Moving(range) => push_moving(out, range),
        Selector::Yearly(days) => push_yearly(out, days),
    }
}

fn push_years(out: &mut String, follows: bool, years: Years) -> Result<(), AllocError>
    ensures { OnOk result (string_bytes out.new
        ≡ string_bytes out.old ++ years_text follows years.first years.last years.step) }
{
    push_four_digits(out, years.first)?;
    if years.first == years.last && years.step == 1 && !follows {
        return Ok(());
    }
    if go_on(years) {
        return push_on(out, years.step);
    }
    out.push_str("-")?;
    push_four_digits(out, years.last)?;
    push_step(out, years.step)
}

// Whether years are written without the last one of the calendar, to which they go on.
fn go_on(years: Years) -> bool
    ensures { result ≡ go_on years.first years.last years.step }
{
    if years.last != 2799 {
        return false;
    }
    if years.step == 1 {
        return years.first < 2799;
    }
    2799 < u32::from(years.first) + 128 * u32::from(years.step)
}

// What is written behind the first of years that go on.
fn push_on(out: &mut String, step: u16) -> Result<(), AllocError>
    ensures { OnOk result (string_bytes out.new
        ≡ string_bytes out.old ++ (if step == 1 then codes "+" else step_text step)) }
{
    if step == 1 {
        return out.push_str("+");
    }
    push_step(out, step)
}

fn push_weeks(out: &mut String, weeks: Weeks) -> Result<(), AllocError>
    ensures { OnOk result (string_bytes out.new
        ≡ string_bytes out.old ++ weeks_text weeks.first weeks.last weeks.step) }
{
    out.push_str(Buffer::new().format(weeks.first))?;
    if weeks.first == weeks.last && weeks.step == 1 {
        return Ok(());
    }
    out.push_str("-")?;
    out.push_str(Buffer::new().format(weeks.last))?;
    push_step(out, weeks.step)
}

fn push_step(out: &mut String, step: u16) -> Result<(), AllocError>
    ensures { OnOk result (string_bytes out.new ≡ string_bytes out.old ++ step_text step) }
{
    if step == 1 {
        return Ok(());
    }
    out.push_str("/")?;
    out.push_str(Buffer::new().format(step))
}

fn push_months(out: &mut String, months: Months) -> Result<(), AllocError>
    ensures { OnOk result (string_bytes out.new ≡ string_bytes out.old ++ months_text months.first months.last) }
{
    out.push_str(month_name(months.first))?;
    if months.first == months.last {
        return Ok(());
    }
    out.push_str("-")?;
    out.push_str(month_name(months.last))
}

fn push_dates(out: &mut String, dates: Dates) -> Result<(), AllocError>
    ensures { OnOk result (string_bytes out.new ≡ string_bytes out.old ++ dates_text dates.first dates.last) }
{
    push_month_day(out, dates.first)?;
    if dates.first.month == dates.last.month && dates.first.day == dates.last.day {
        return Ok(());
    }
    out.push_str("-")?;
    push_month_day(out, dates.last)
}

fn push_month_day(out: &mut String, date: MonthDay) -> Result<(), AllocError>
    ensures { OnOk result (string_bytes out.new ≡ string_bytes out.old ++ month_day_text date) }
{
    out.push_str(month_name(date.month))?;
    out.push_str(" ")?;
    out.push_str(Buffer::new().format(date.day))
}

fn push_dated(out: &mut String, dates: Dated) -> Result<(), AllocError>
    ensures { OnOk result (string_bytes out.new ≡ string_bytes out.old ++ dated_text dates.first dates.last) }
{
    push_year_date(out, dates.first)?;
    if is_one_date(dates.first, dates.last) {
        return Ok(());
    }
    out.push_str("-")?;
    push_year_date(out, dates.last)
}

fn is_one_date(first: YearDate, last: YearDate) -> bool
    ensures { result ≡ is_one_date first last }
{
    first.year == last.year && first.month == last.month && first.day == last.day
}

fn push_year_date(out: &mut String, date: YearDate) -> Result<(), AllocError>
    ensures { OnOk result (string_bytes out.new ≡ string_bytes out.old ++ year_date_text date) }
{
    push_four_digits(out, date.year)?;
    out.push_str(" ")?;
    out.push_str(month_name(date.month))?;
    out.push_str(" ")?;
    out.push_str(Buffer::new().format(date.day))
}

fn push_weekdays(out: &mut String, days: Weekdays) -> Result<(), AllocError>
    ensures { OnOk result (string_bytes out.new ≡ string_bytes out.old ++ weekdays_text days.first days.last) }
{
    out.push_str(weekday_name(days.first))?;
    if days.first == days.last {
        return Ok(());
    }
    out.push_str("-")?;
    out.push_str(weekday_name(days.last))
}

fn push_place(out: &mut String, bracket: &str, place: WeekdayPlace) -> Result<(), AllocError>
    ensures { OnOk result (string_bytes out.new ≡ string_bytes out.old
        ++ (weekday_name place.weekday ++ bracket.now ++ decimal place.number ++ codes "]")) }
{
    out.push_str(weekday_name(place.weekday))?;
    out.push_str(bracket)?;
    out.push_str(Buffer::new().format(place.number))?;
    out.push_str("]")
}

fn push_moved(out: &mut String, place: MovedPlace) -> Result<(), AllocError>
    ensures { OnOk result (string_bytes out.new ≡ string_bytes out.old ++ moved_text place) }
{
    push_begun_place(out, place.is_back, place.place)?;
    push_place_end(out, place)
}

// A place from the beginning of the month, or back from its end, up to its number.
fn push_begun_place(out: &mut String, is_back: bool, place: WeekdayPlace) -> Result<(), AllocError>
    ensures { OnOk result (string_bytes out.new ≡ string_bytes out.old ++ begun_place is_back place) }
{
    out.push_str(weekday_name(place.weekday))?;
    out.push_str(if is_back { "[-" } else { "[" })?;
    out.push_str(Buffer::new().format(place.number))
}

fn push_place_end(out: &mut String, place: MovedPlace) -> Result<(), AllocError>
    ensures { OnOk result (string_bytes out.new ≡ string_bytes out.old ++ place_end place) }
{
    out.push_str("]")?;
    push_offset(out, place.is_before, place.days)
}

// The days after a place, or before it.
fn push_offset(out: &mut String, is_before: bool, days: u8) -> Result<(), AllocError>
    ensures { OnOk result (string_bytes out.new ≡ string_bytes out.old ++ offset_text is_before days) }
{
    if days == 0 {
        return Ok(());
    }
    out.push_str(if is_before { " -" } else { " +" })?;
    out.push_str(Buffer::new().format(days))?;
    out.push_str(if days == 1 { " day" } else { " days" })
}

fn push_moving(out: &mut String, range: Moving) -> Result<(), AllocError>
    ensures { OnOk result (string_bytes out.new
        ≡ string_bytes out.old ++ (end_text range.first ++ codes "-" ++ end_text range.last)) }
{
    push_end(out, range.first)?;
    out.push_str("-")?;
    push_end(out, range.last)
}

fn push_end(out: &mut String, end: End) -> Result<(), AllocError>
    ensures { OnOk result (string_bytes out.new ≡ string_bytes out.old ++ end_text end) }
{
    match end {
        End::Date(date) => push_month_day(out, date),
        End::Place(place) => push_month_place(out, place),
    }
}

fn push_month_place(out: &mut String, place: MonthPlace) -> Result<(), AllocError>
    ensures { OnOk result (string_bytes out.new
        ≡ string_bytes out.old ++ (month_name place.month ++ codes " " ++ moved_text place.place)) }
{
    out.push_str(month_name(place.month))?;
    out.push_str(" ")?;
    push_moved(out, place.place)
}

fn push_yearly(out: &mut String, days: YearlyDays) -> Result<(), AllocError>
    ensures { OnOk result (string_bytes out.new ≡ string_bytes out.old ++ yearly_text days) }
{
    push_four_digits(out, days.first)?;
    out.push_str("-")?;
    push_four_digits(out, days.last)?;
    out.push_str(" ")?;
    push_first_day(out, days)?;
    push_step(out, days.days)
}

// The month and the day of the first of the days.
fn push_first_day(out: &mut String, days: YearlyDays) -> Result<(), AllocError>
    ensures { OnOk result (string_bytes out.new
        ≡ string_bytes out.old ++ (month_name days.month ++ codes " " ++ decimal days.day)) }
{
    out.push_str(month_name(days.month))?;
    out.push_str(" ")?;
    out.push_str(Buffer::new().format(days.day))
}

fn push_times(out: &mut String, times: &[TimeRange]) -> Result<(), AllocError>
    ensures { OnOk result (string_bytes out.new ≡ string_bytes out.old ++ times_text times.now) }
{
    match times.split_first() {
        None => Ok(()),
        Some((first, more)) => {
            push_time(out, *first)?;
            push_more_times(out, more)
        }
    }
}

fn push_more_times(out: &mut String, times: &[TimeRange]) -> Result<(), AllocError>
    ensures { OnOk result (string_bytes out.new ≡ string_bytes out.old ++ more_times_text times.now) }
{
    let mut rest = times;
    while let Some((time, more)) = rest.split_first() {
        out.push_str(",")?;
        push_time(out, *time)?;
        rest = more;
    }
    Ok(())
}

fn push_time(out: &mut String, time: TimeRange) -> Result<(), AllocError>
    ensures { OnOk result (string_bytes out.new ≡ string_bytes out.old ++ time_text time) }
{
    push_clock(out, time.begin)?;
    out.push_str("-")?;
    push_clock(out, time.last)
}

#[tactic(auto, unfolding(crate::specs::Written::clock_text))]
fn push_clock(out: &mut String, minutes: u16) -> Result<(), AllocError>
    requires { minutes < 6000 }
    ensures { OnOk result (string_bytes out.new ≡ string_bytes out.old ++ clock_text minutes) }
{
    push_two_digits(out, minutes / 60)?;
    out.push_str(":")?;
    push_two_digits(out, minutes % 60)
}

fn push_two_digits(out: &mut String, number: u16) -> Result<(), AllocError>
    requires { number < 100 }
    ensures { OnOk result (string_bytes out.new ≡ string_bytes out.old ++ two_digits number) }
{
    push_digit(out, number / 10)?;
    push_digit(out, number % 10)
}

fn push_four_digits(out: &mut String, number: u16) -> Result<(), AllocError>
    requires { number ≤ 9999 }
    ensures { OnOk result (string_bytes out.new ≡ string_bytes out.old ++ four_digits number) }
{
    push_digit(out, number / 1000)?;
    push_digit(out, number / 100 % 10)?;
    push_digit(out, number / 10 % 10)?;
    push_digit(out, number % 10)
}

#[tactic(auto, using(std::proofs::lemmas::Fmt::decimal_digit))]
fn push_digit(out: &mut String, digit: u16) -> Result<(), AllocError>
    requires { digit < 10 }
    ensures { OnOk result (string_bytes out.new ≡ string_bytes out.old ++ (48 + digit) ∷ []) }
{
    out.push_str(Buffer::new().format(digit))
}

fn month_name(month: u8) -> &'static str
    requires { IsMonth month }
    ensures { result.now ≡ month_name month }
{
    match month {
        1 => "Jan",
        2 => "Feb",
        3 => "Mar",
        4 => "Apr",
        5 => "May",
        6 => "Jun",
        7 => "Jul",
        8 => "Aug",
        9 => "Sep",
        10 => "Oct",
        11 => "Nov",
        _ => "Dec",
    }
}

fn weekday_name(weekday: u8) -> &'static str
    requires { IsWeekday weekday }
    ensures { result.now ≡ weekday_name weekday }
{
    match weekday {
        1 => "Su",
        2 => "Mo",
        3 => "Tu",
        4 => "We",
        5 => "Th",
        6 => "Fr",
        _ => "Sa",
    }
}
