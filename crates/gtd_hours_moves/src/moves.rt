//! The moves of the reading: which one a token, or the end of the text, makes at a place.

ghost use Rattle.std.specs.Prelude.{◌≡◌, true, IfSome};
ghost use Rattle.gtd_hours_moves.specs.Moves.{next_move};
ghost use Rattle.gtd_hours_moves.specs.Runs.{IsGood};
ghost use Rattle.gtd_hours_moves.specs.Sound.{Fits, IsPlace};

mod day_lists;
mod month_days;
mod moving;
mod offsets;
mod rules;
mod times;
mod weekdays;
mod weeks;
mod years;

use crate::place::{Move, Place};
use gtd_hours_tokens::TokenKind;

/// The move from a place, or `None` if what comes next cannot stand there.
pub fn next_move(place: Place, next: Option<TokenKind>, fits: bool) -> Option<Move>
    requires sound { IsPlace place }
    requires fit { fits ≡ true → Fits place next }
    ensures computed { result ≡ next_move place next fits }
    ensures good { IfSome result (λ move. IsGood place next move) }
{
    match place {
        Place::Front => rules::front(next, fits),
        Place::TwentyFour => rules::slash(next),
        Place::TwentyFourSlash => rules::always(next, fits),
        Place::Year(n) => years::year(n, next, fits),
        Place::YearMonth { year, month } => years::year_month(year, month, next, fits),
        Place::MonthAfterYear(month) => years::month_after_year(month),
        Place::YearMonthDash { year, month } => years::year_month_dash(year, month, next, fits),
        Place::MonthDashAfterYear(month) => years::month_dash_after_year(month, next),
        Place::ListedYear(n) => years::listed_year(n, next),
        Place::YearDash(first) => years::year_dash(first, next, fits),
        Place::YearRange { first, last } => years::year_range(first, last, next),
        Place::YearStep { first, last } => years::year_step(first, last, next, fits),
        Place::YearSlash(first) => years::year_slash(first, next, fits),
        Place::DateYear(year) => month_days::date_year(year, next, fits),
        Place::DateYearMonth { year, month } => {
            month_days::date_year_month(year, month, next, fits)
        }
        Place::DateYearMonthDash { year, month } => {
            month_days::date_year_month_dash(year, month, next, fits)
        }
        Place::MonthsYear { first, month, last } => {
            month_days::months_year(first, month, last, next, fits)
        }
        Place::Month(month) => month_days::month(month, next, fits),
        Place::MonthDash(first) => month_days::month_dash(first, next, fits),
        Place::Date(first) => month_days::date(first, next),
        Place::ListedDay(day) => day_lists::listed_day(day, next),
        Place::DateDash(first) => month_days::date_dash(first, next, fits),
        Place::DateDashYear { first, year } => month_days::date_dash_year(first, year, next, fits),
        Place::DateDashMonth { first, year, month } => {
            month_days::date_dash_month(first, year, month, next, fits)
        }
        Place::WeekWord => weeks::week_word(next, fits),
        Place::Week(n) => weeks::week(n, next),
        Place::WeekDash(n) => weeks::week_dash(n, next, fits),
        Place::WeekRange { first, last } => weeks::week_range(first, last, next),
        Place::WeekStep { first, last } => weeks::week_step(first, last, next, fits),
        Place::WeekBack { first, last } => weeks::week_back(first, last, next),
        Place::WeekAgain { first, last } => weeks::week_again(first, last),
        Place::Weekday(day) => weekdays::weekday(day, next),
        Place::WeekdayDash(first) => weekdays::weekday_dash(first, next, fits),
        Place::Bracket { weekday, reach } => weekdays::bracket(weekday, reach, next, fits),
        Place::BracketDash { weekday, reach } => weekdays::bracket_dash(weekday, reach, next, fits),
        Place::Nth {
            weekday,
            number,
            reach,
        } => weekdays::nth(weekday, number, reach, next),
        Place::NthDash {
            weekday,
            number,
            reach,
        } => { weekdays::nth_dash(weekday, number, reach, next, fits) }
        Place::BracketEnd { weekday, reach } => weekdays::bracket_end(weekday, reach, next),
        Place::PlacesEnd(reach) => offsets::places_end(reach, next),
        Place::OffsetSign { is_before, reach } => {
            offsets::offset_sign(is_before, reach, next, fits)
        }
        Place::OffsetNumber(offset) => offsets::offset_number(offset, next),
        Place::Time(time) => times::time(time, next),
        Place::TimeDash(begin) => times::time_dash(begin, next, fits),
        Place::AfterDate { year, month } => day_lists::after_date(year, month, next, fits),
        Place::CommaDate { year, month } => day_lists::comma_date(year, month, next, fits),
        Place::After(stage) => rules::after(stage, next, fits),
        Place::Comma(stage) => rules::comma(stage, next, fits),
    }
}
