//! Selectors of days, compared as they are written.

ghost use Rattle.std.specs.Prelude.{◌≡◌};
ghost use Rattle.std.specs.List.{list_all, list_any};
ghost use Rattle.gtd_hours_hidden.specs.Hides.{are_among, has_weekday, is_plain, is_round, same_dated, same_dates, same_months};
ghost use Rattle.gtd_hours_hidden.specs.Hides.{same_month_day, same_place, same_selector, same_weekdays_range, same_weeks};
ghost use Rattle.gtd_hours_hidden.specs.Hides.{same_year_date, same_yearly, same_years};

use gtd_hours::{
    Dated, Dates, MonthDay, Months, Selector, WeekdayPlace, Weekdays, Weeks, YearDate, YearlyDays,
    Years,
};

fn same_years(one: Years, other: Years) -> bool
    ensures { result ≡ same_years one other }
{
    one.first == other.first && one.last == other.last && one.step == other.step
}

fn same_months(one: Months, other: Months) -> bool
    ensures { result ≡ same_months one other }
{
    one.first == other.first && one.last == other.last
}

fn same_month_day(one: MonthDay, other: MonthDay) -> bool
    ensures { result ≡ same_month_day one other }
{
    one.month == other.month && one.day == other.day
}

fn same_dates(one: Dates, other: Dates) -> bool
    ensures { result ≡ same_dates one other }
{
    same_month_day(one.first, other.first) && same_month_day(one.last, other.last)
}

fn same_year_date(one: YearDate, other: YearDate) -> bool
    ensures { result ≡ same_year_date one other }
{
    one.year == other.year && one.month == other.month && one.day == other.day
}

fn same_dated(one: Dated, other: Dated) -> bool
    ensures { result ≡ same_dated one other }
{
    same_year_date(one.first, other.first) && same_year_date(one.last, other.last)
}

fn same_weeks(one: Weeks, other: Weeks) -> bool
    ensures { result ≡ same_weeks one other }
{
    one.first == other.first && one.last == other.last && one.step == other.step
}

fn same_weekdays_range(one: Weekdays, other: Weekdays) -> bool
    ensures { result ≡ same_weekdays_range one other }
{
    one.first == other.first && one.last == other.last
}

fn same_place(one: WeekdayPlace, other: WeekdayPlace) -> bool
    ensures { result ≡ same_place one other }
{
    one.weekday == other.weekday && one.number == other.number
}

fn same_yearly(one: YearlyDays, other: YearlyDays) -> bool
    ensures { result ≡ same_yearly one other }
{
    one.first == other.first
        && one.last == other.last
        && one.month == other.month
        && one.day == other.day
        && one.days == other.days
}

fn same_selector(one: Selector, other: Selector) -> bool
    ensures { result ≡ same_selector one other }
{
    match one {
        Selector::Years(years) => are_years(years, other),
        Selector::Months(months) => are_months(months, other),
        Selector::Dates(dates) => are_dates(dates, other),
        Selector::Dated(dates) => are_dated(dates, other),
        Selector::Weeks(weeks) => are_weeks(weeks, other),
        Selector::Weekdays(days) => are_weekdays(days, other),
        Selector::Nth(place) => is_nth(place, other),
        Selector::NthBack(place) => is_nth_back(place, other),
        Selector::Moved(_) => false,
        Selector::Moving(_) => false,
        Selector::Yearly(days) => are_yearly(days, other),
    }
}

fn are_years(years: Years, other: Selector) -> bool
    ensures { result ≡ same_selector (Selector.Years years) other }
{
    match other {
        Selector::Years(others) => same_years(years, others),
        _ => false,
    }
}

fn are_months(months: Months, other: Selector) -> bool
    ensures { result ≡ same_selector (Selector.Months months) other }
{
    match other {
        Selector::Months(others) => same_months(months, others),
        _ => false,
    }
}

fn are_dates(dates: Dates, other: Selector) -> bool
    ensures { result ≡ same_selector (Selector.Dates dates) other }
{
    match other {
        Selector::Dates(others) => same_dates(dates, others),
        _ => false,
    }
}

fn are_dated(dates: Dated, other: Selector) -> bool
    ensures { result ≡ same_selector (Selector.Dated dates) other }
{
    match other {
        Selector::Dated(others) => same_dated(dates, others),
        _ => false,
    }
}

fn are_weeks(weeks: Weeks, other: Selector) -> bool
    ensures { result ≡ same_selector (Selector.Weeks weeks) other }
{
    match other {
        Selector::Weeks(others) => same_weeks(weeks, others),
        _ => false,
    }
}

fn are_weekdays(days: Weekdays, other: Selector) -> bool
    ensures { result ≡ same_selector (Selector.Weekdays days) other }
{
    match other {
        Selector::Weekdays(others) => same_weekdays_range(days, others),
        _ => false,
    }
}

fn is_nth(place: WeekdayPlace, other: Selector) -> bool
    ensures { result ≡ same_selector (Selector.Nth place) other }
{
    match other {
        Selector::Nth(another) => same_place(place, another),
        _ => false,
    }
}

fn is_nth_back(place: WeekdayPlace, other: Selector) -> bool
    ensures { result ≡ same_selector (Selector.NthBack place) other }
{
    match other {
        Selector::NthBack(another) => same_place(place, another),
        _ => false,
    }
}

fn are_yearly(days: YearlyDays, other: Selector) -> bool
    ensures { result ≡ same_selector (Selector.Yearly days) other }
{
    match other {
        Selector::Yearly(others) => same_yearly(days, others),
        _ => false,
    }
}

fn is_one_of(selectors: &[Selector], one: Selector) -> bool
    ensures { result ≡ list_any (same_selector one) selectors.now }
{
    let mut rest = selectors;
    while let Some((other, more)) = rest.split_first() {
        if same_selector(one, *other) {
            return true;
        }
        rest = more;
    }
    false
}

/// Whether each of some selectors is one of the others.
pub fn are_among(selectors: &[Selector], others: &[Selector]) -> bool
    ensures { result ≡ are_among selectors.now others.now }
{
    let mut rest = selectors;
    while let Some((one, more)) = rest.split_first() {
        if !is_one_of(others, *one) {
            return false;
        }
        rest = more;
    }
    true
}

fn is_plain(selector: Selector) -> bool
    ensures { result ≡ is_plain selector }
{
    match selector {
        Selector::Weekdays(_) => true,
        _ => false,
    }
}

/// Whether all selectors are weekdays without a place in the month.
pub fn are_plain(selectors: &[Selector]) -> bool
    ensures { result ≡ list_all is_plain selectors.now }
{
    let mut rest = selectors;
    while let Some((one, more)) = rest.split_first() {
        if !is_plain(*one) {
            return false;
        }
        rest = more;
    }
    true
}

fn is_round(first: u8, last: u8, weekday: u8) -> bool
    ensures { result ≡ is_round first last weekday }
{
    if last < first {
        return first <= weekday || weekday <= last;
    }
    first <= weekday && weekday <= last
}

fn has_weekday(weekday: u8, selector: Selector) -> bool
    ensures { result ≡ has_weekday weekday selector }
{
    match selector {
        Selector::Weekdays(days) => is_round(days.first, days.last, weekday),
        _ => false,
    }
}

/// Whether a weekday is one of some plain weekdays.
pub fn some_has_weekday(selectors: &[Selector], weekday: u8) -> bool
    ensures { result ≡ list_any (has_weekday weekday) selectors.now }
{
    let mut rest = selectors;
    while let Some((one, more)) = rest.split_first() {
        if has_weekday(weekday, *one) {
            return true;
        }
        rest = more;
    }
    false
}
