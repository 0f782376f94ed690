//! Which numbers, times, months and weekdays fit at a place.

ghost use Rattle.std.specs.Prelude.{◌≡◌, ◌↔◌, ◌==◌, true};
ghost use Rattle.gtd_hours_parts.specs.Numbers.{IsPlaceNumber};
ghost use Rattle.gtd_hours_parts.specs.Pieces.{EndsRange, IsRange, IsWrittenDate};
ghost use Rattle.gtd_hours_moves.specs.Grammar.{by_place, with_years};
ghost use Rattle.gtd_hours_moves.specs.declared.place.Place.TheVariants as places;
ghost use Rattle.gtd_hours_moves.specs.Runs.{is_judged};
ghost use Rattle.gtd_hours_moves.specs.Sound.{Fits, IsPlace, ListedFits, MonthFits, NumberFits, TimeFits, YearOrDayFits};
ghost use Rattle.gtd_hours_moves.specs.Sound.{YearOrListed};
ghost use Rattle.gtd_hours_moves.specs.Sound.{is_last_year, takes_number, takes_time};

use crate::place::Place;
use crate::stage::Stage;
use gtd_hours_parts::{
    ClockTime, Digits, LastDate, WrittenDate, are_few_years, are_months_of_years, dates_of, is_day,
    times, years,
};
use gtd_hours_tokens::TokenKind;

// A range that begins with a date ends with that day or date.
fn ends_range(first: WrittenDate, last: LastDate) -> bool
    requires date { IsWrittenDate first }
    ensures { (result ≡ true) ↔ EndsRange first last }
{
    dates_of(first, Some(last)).is_some()
}

/// Whether a number behind a date and a dash is a year: it has four digits, and the date has a year.
pub fn is_last_year(first: WrittenDate, number: Digits) -> bool
    ensures { result ≡ is_last_year first number }
{
    first.year.is_some() && number.count == 4
}

fn year_or_day_fits(first: WrittenDate, number: Digits) -> bool
    requires date { IsWrittenDate first }
    ensures { (result ≡ true) ↔ YearOrDayFits first number }
{
    if is_last_year(first, number) {
        number.year().is_some()
    } else {
        ends_range(first, LastDate::Day(number))
    }
}

// Behind a date and a comma a number of four digits is a year, and another one a day.
fn year_or_listed_fits(year: Option<Digits>, month: u8, number: Digits) -> bool
    ensures { (result ≡ true) ↔ YearOrListed (number.count == 4) year month number }
{
    if number.count == 4 {
        number.year().is_some()
    } else {
        is_day(year, month, number)
    }
}

// A place in the month that is not before the first one of a range.
fn last_place_fits(first: Digits, number: Digits) -> bool
    ensures { (result ≡ true) ↔ IsRange IsPlaceNumber first number }
{
    first.place().is_some() && number.place().is_some() && first.value <= number.value
}

// The days of an offset of places that have this reach.
fn offset_fits(is_before: bool, reach: u16, days: Digits) -> bool
    ensures { (result ≡ true) ↔ NumberFits (places.OffsetSign is_before reach) days }
{
    days.offset().is_some()
        && (if is_before {
            days.value < reach
        } else {
            1 <= reach
        })
}

// The number goes on with the list of a stage.
fn listed_fits(stage: Stage, number: Digits) -> bool
    ensures { (result ≡ true) ↔ ListedFits stage number }
{
    match stage {
        Stage::Years => number.year().is_some(),
        Stage::MonthDays => number.year().is_some(),
        Stage::Weeks => number.week().is_some(),
        _ => false,
    }
}

fn number_fits(place: Place, number: Digits) -> bool
    requires sound { IsPlace place }
    ensures { (result ≡ true) ↔ NumberFits place number }
{
    match place {
        Place::Front => number.year().is_some(),
        Place::TwentyFour => false,
        Place::TwentyFourSlash => number.value == 7 && number.count == 1,
        Place::Year(_) => false,
        Place::YearMonth { year, month } => is_day(Some(year), month, number),
        Place::MonthAfterYear(_) => false,
        Place::YearMonthDash { year, .. } => years(year, number, None).is_some(),
        Place::MonthDashAfterYear(_) => false,
        Place::ListedYear(_) => false,
        Place::YearDash(first) => years(first, number, None).is_some(),
        Place::YearStep { .. } => number.step().is_some(),
        Place::YearSlash(first) => are_few_years(first, number),
        Place::DateYear(_) => false,
        Place::DateYearMonth { year, month } => is_day(Some(year), month, number),
        Place::DateYearMonthDash { year, .. } => years(year, number, None).is_some(),
        Place::MonthsYear { .. } => false,
        Place::Month(month) => is_day(None, month, number),
        Place::MonthDash(_) => false,
        Place::Date(_) => false,
        Place::ListedDay(_) => false,
        Place::DateDash(first) => year_or_day_fits(first, number),
        Place::DateDashMonth { first, year, month } => {
            let day = number;
            ends_range(first, LastDate::Date(WrittenDate { year, month, day }))
        }
        Place::DateDashYear { .. } => false,
        Place::WeekWord => number.week().is_some(),
        Place::WeekDash(_) => number.week().is_some(),
        Place::WeekStep { .. } => number.step().is_some(),
        Place::Bracket { .. } => number.place().is_some(),
        Place::BracketDash { .. } => number.place().is_some(),
        Place::Nth { .. } => false,
        Place::NthDash { number: first, .. } => last_place_fits(first, number),
        Place::BracketEnd { .. } => false,
        Place::PlacesEnd(_) => false,
        Place::OffsetNumber(_) => false,
        Place::OffsetSign { is_before, reach } => offset_fits(is_before, reach, number),
        Place::AfterDate { .. } => number.year().is_some(),
        Place::CommaDate { year, month } => year_or_listed_fits(year, month, number),
        Place::After(_) => number.year().is_some(),
        Place::Comma(stage) => listed_fits(stage, number),
        _ => false,
    }
}

fn time_fits(place: Place, time: ClockTime) -> bool
    ensures { (result ≡ true) ↔ TimeFits place time }
{
    match place {
        Place::TimeDash(begin) => times(begin, time).is_some(),
        _ => time.begin().is_some(),
    }
}

fn month_fits(place: Place, month: u8) -> bool
    requires sound { IsPlace place }
    ensures { (result ≡ true) ↔ MonthFits place month }
{
    match place {
        Place::MonthsYear {
            first,
            month: first_month,
            last,
        } => are_months_of_years(first, first_month, last, month),
        _ => 1 <= month && month <= 12,
    }
}

/// Whether the number, time, month or weekday that comes next fits.
pub fn fits(place: Place, next: Option<TokenKind>) -> bool
    requires sound { IsPlace place }
    ensures { (result ≡ true) ↔ Fits place next }
{
    match next {
        None => false,
        Some(kind) => match kind {
            TokenKind::Number { value, digits } => {
                let count = digits;
                number_fits(place, Digits { value, count })
            }
            TokenKind::Time { hour, minute } => time_fits(place, ClockTime { hour, minute }),
            TokenKind::Month(month) => month_fits(place, month),
            TokenKind::Weekday(weekday) => 1 <= weekday && weekday <= 7,
            _ => false,
        },
    }
}

/// Whether some number can come next, with digits and a value that fit.
pub fn takes_number(place: Place) -> bool
    ensures { result ≡ takes_number place }
{
    match place {
        Place::TwentyFour => false,
        Place::DateYear(_) => false,
        Place::MonthDash(_) => false,
        Place::Date(_) => false,
        Place::ListedDay(_) => false,
        Place::AfterDate { .. } => false,
        Place::DateDashYear { .. } => false,
        Place::MonthDashAfterYear(_) => false,
        Place::MonthsYear { .. } => false,
        Place::Week(_) => false,
        Place::WeekRange { .. } => false,
        Place::WeekBack { .. } => false,
        Place::WeekAgain { .. } => false,
        Place::Weekday(_) => false,
        Place::WeekdayDash(_) => false,
        Place::Nth { .. } => false,
        Place::BracketEnd { .. } => false,
        Place::PlacesEnd(_) => false,
        Place::OffsetNumber(_) => false,
        Place::Time(_) => false,
        Place::TimeDash(_) => false,
        Place::After(stage) => stage.precedes(Stage::MonthDays),
        _ => true,
    }
}

/// Whether the token fits by its place, and may only come last: the day of a last date, a last month with a year, or the step of
/// weeks that go back.
pub fn is_judged(place: Place, kind: TokenKind) -> bool
    ensures { result ≡ is_judged place kind by_place }
{
    match place {
        Place::DateDashMonth { .. } => matches!(kind, TokenKind::Number { .. }),
        Place::MonthsYear { .. } => matches!(kind, TokenKind::Month(_)),
        Place::WeekBack { .. } => matches!(kind, TokenKind::Slash),
        _ => false,
    }
}

/// Whether the number is the step of years without a last one, which are more than a domain holds if it doesn't fit.
pub fn is_step_of_years(place: Place, kind: TokenKind) -> bool
    ensures { result ≡ is_judged place kind with_years }
{
    match place {
        Place::YearSlash(_) => match kind {
            TokenKind::Number { value, digits } => {
                1 <= digits && digits <= 4 && 1 <= value && value <= 9999
            }
            _ => false,
        },
        _ => false,
    }
}

/// Whether some time can come next.
pub fn takes_time(place: Place) -> bool
    ensures { result ≡ takes_time place }
{
    match place {
        Place::Front => true,
        Place::Year(_) => true,
        Place::YearMonth { .. } => true,
        Place::MonthAfterYear(_) => true,
        Place::ListedYear(_) => true,
        Place::YearRange { .. } => true,
        Place::Month(_) => true,
        Place::Date(_) => true,
        Place::ListedDay(_) => true,
        Place::AfterDate { .. } => true,
        Place::CommaDate { .. } => true,
        Place::Week(_) => true,
        Place::WeekRange { .. } => true,
        Place::WeekBack { .. } => true,
        Place::WeekAgain { .. } => true,
        Place::Weekday(_) => true,
        Place::PlacesEnd(_) => true,
        Place::TimeDash(_) => true,
        Place::After(stage) => stage.precedes(Stage::Times),
        Place::Comma(_) => true,
        _ => false,
    }
}
