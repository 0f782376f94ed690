//! The places of weekdays that days are counted on from.

ghost use Rattle.std.specs.Prelude.{◌≡◌, ◌↔◌, ◌==◌, ◌≤◌, ◌+◌, ◌-◌, ◌*◌, if◌then◌else◌, true, IfSome, ℤ};
ghost use Rattle.gtd_calendar.specs.Calendar.{weekday_of};
ghost use Rattle.gtd_calendar.specs.ComputedDates.{month_of};
ghost use Rattle.gtd_calendar.specs.ComputedFields.{day_fields};
ghost use Rattle.gtd_recur.specs.FieldMatches.{HoldsOnDay};
ghost use Rattle.gtd_hours.specs.Moving.{days_on, end_days, end_month, is_yearly, leads_out, months_between, weeks_back};
ghost use Rattle.gtd_hours.specs.declared.places.End.TheVariants as end;
ghost use Rattle.gtd_hours.specs.Ranges.{IsMonth, IsWeekdayPlace};
ghost use Rattle.gtd_hours_selectors.specs.Days.{HasPlace, on_back, on_number, start_day};
ghost use Rattle.gtd_hours_leaves.specs.Leaves.{AreDayParts};

use gtd_core::StartParts;
use gtd_hours::{End, MonthDay, MonthPlace, MovedPlace, Moving};
use gtd_hours_leaves::NO_PARTS;

// How many weeks before a place the one is that days are counted on from.
fn weeks_back(place: MovedPlace) -> u8
    ensures value { result ≡ weeks_back place.is_before place.days }
    ensures few { result ≤ 4 }
    ensures whole { place.days ≤ 7 * result + (if place.is_before then 0 else 27) }
{
    if place.is_before {
        (place.days + 6) / 7
    } else {
        0
    }
}

/// How many days after the place that days are counted on from the day of a place is.
pub fn days_on(place: MovedPlace) -> u8
    ensures value { result ≡ days_on place.is_before place.days }
    ensures few { result ≤ 27 }
{
    if place.is_before {
        7 * weeks_back(place) - place.days
    } else {
        place.days
    }
}

/// Whether it is in the month before.
fn leads_out(place: MovedPlace) -> bool
    ensures { result ≡ leads_out place }
{
    !place.is_back && place.place.number <= weeks_back(place)
}

fn on_back(place: MovedPlace) -> bool
    ensures { result ≡ on_back place }
{
    place.is_back || leads_out(place)
}

fn on_number(place: MovedPlace) -> u8
    ensures value { result ≡ on_number place }
    ensures range { (1 ≤ result) × (result ≤ 4) }
{
    let weeks = weeks_back(place);
    if place.is_back {
        return place.place.number + weeks;
    }
    if place.place.number <= weeks {
        weeks + 1 - place.place.number
    } else {
        place.place.number - weeks
    }
}

// A place of a weekday, in a month if one is given.
fn place_parts(month: Option<u8>, is_back: bool, number: u8, weekday: u8) -> StartParts
    requires month { IfSome month IsMonth }
    requires place { IsWeekdayPlace weekday number }
    ensures parts { AreDayParts result }
    ensures on { (n : ℤ) → HoldsOnDay result (day_fields n)
        ↔ (IfSome month (λ m. m ≡ month_of n) × HasPlace is_back weekday number n) }
{
    if is_back {
        StartParts {
            month,
            nth_back: Some((number, weekday)),
            ..NO_PARTS
        }
    } else {
        StartParts {
            month,
            nth: Some((number, weekday)),
            ..NO_PARTS
        }
    }
}

/// The place that days are counted on from, in each month.
pub(crate) fn on_parts(place: MovedPlace) -> StartParts
    ensures parts { AreDayParts result }
    ensures on { (n : ℤ) → HoldsOnDay result (day_fields n) ↔ HasPlace (on_back place) place.place.weekday (on_number place) n }
{
    place_parts(None, on_back(place), on_number(place), place.place.weekday)
}

/// How many days after the day that it is counted on from an end is.
pub fn end_days(end: End) -> u8
    ensures value { result ≡ end_days end }
    ensures few { result ≤ 27 }
{
    match end {
        End::Date(_) => 0,
        End::Place(place) => days_on(place.place),
    }
}

fn place_month(place: MonthPlace) -> u8
    ensures value { result ≡ (if leads_out place.place then place.month - 1 else place.month) }
    ensures few { result ≤ 12 }
{
    if leads_out(place.place) {
        place.month - 1
    } else {
        place.month
    }
}

// The month of that day, from 1 for January of the end's year; 0 is the December before.
fn end_month(end: End) -> u8
    ensures value { result ≡ end_month end }
    ensures few { result ≤ 12 }
{
    match end {
        End::Date(date) => date.month,
        End::Place(place) => place_month(place),
    }
}

fn less(a: u8, b: u8) -> u8
    requires { b ≤ a }
    ensures { result ≡ a - b }
{
    a - b
}

// The months of one year and two, if a range goes over the end of the year, or two.
fn more(is_over: bool) -> u8
    ensures { result ≡ (if is_over then 14 else 2) }
{
    if is_over { 14 } else { 2 }
}

/// Two months more than from the month of the first end to that of the last, with those of a year between them.
pub fn months_between(range: Moving) -> u8
    ensures value { result ≡ months_between range.is_over range.first range.last }
    ensures few { (1 ≤ result) × (result ≤ 15) }
{
    less(
        end_month(range.last) + more(range.is_over),
        end_month(range.first),
    )
}

// December for no month.
fn month_of_year(month: u8) -> u8
    requires { month ≤ 12 }
    ensures value { result ≡ (if month == 0 then 12 else month) }
    ensures month { IsMonth result }
{
    if month == 0 { 12 } else { month }
}

fn month_place_parts(place: MonthPlace) -> StartParts
    ensures parts { AreDayParts result }
    ensures on { (n : ℤ) → HoldsOnDay result (day_fields n) ↔ ((y : ℤ) × (n ≡ start_day (end.Place place) y)) }
{
    place_parts(
        Some(month_of_year(place_month(place))),
        on_back(place.place),
        on_number(place.place),
        place.place.place.weekday,
    )
}

fn date_parts(date: MonthDay) -> StartParts
    requires { is_yearly (end.Date date) ≡ true }
    ensures parts { AreDayParts result }
    ensures on { (n : ℤ) → HoldsOnDay result (day_fields n) ↔ ((y : ℤ) × (n ≡ start_day (end.Date date) y)) }
{
    StartParts {
        month: Some(date.month),
        day: Some(date.day),
        ..NO_PARTS
    }
}

/// The day that an end is counted on from, in each year.
pub(crate) fn end_parts(end: End) -> StartParts
    requires { is_yearly end ≡ true }
    ensures parts { AreDayParts result }
    ensures on { (n : ℤ) → HoldsOnDay result (day_fields n) ↔ ((y : ℤ) × (n ≡ start_day end y)) }
{
    match end {
        End::Date(date) => date_parts(date),
        End::Place(place) => month_place_parts(place),
    }
}
