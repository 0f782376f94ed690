//! What the pieces of a text stand for.

ghost use Rattle.std.specs.Prelude.{◌↔◌, IfSome, IsSome};
ghost use Rattle.gtd_hours_parts.specs.declared.piece.Piece.{Piece};
ghost use Rattle.gtd_hours_parts.specs.declared.piece.Piece.TheVariants as piece;
ghost use Rattle.gtd_hours_parts.specs.SoundPieces.{IsPiece};
ghost use Rattle.gtd_hours_parts.specs.Values.{IsPartOf, IsSelector};

use crate::clock::times;
use crate::days::{Days, days_of};
use crate::digits::Digits;
use crate::piece::{Offset, Piece};
use crate::places::place;
use crate::ranges::{months, one_week, one_year, weekdays, weeks, years};
use crate::written_dates::dates_of;
use gtd_hours::{Link, Selector, TimeRange, WeekdayPlace};

/// What a piece of a text stands for.
#[derive(Clone, Copy)]
pub enum Part {
    /// Another rule begins.
    Rule(Link),
    /// Selectors of another kind begin.
    Kind,
    /// One selector more: of years, of months or dates, of weeks, of weekdays, or of a place back from the end of the month.
    Selector(Selector),
    /// A weekday at each place from one to another.
    Places {
        /// The first place.
        first: WeekdayPlace,
        /// The last one, of the same weekday.
        last: WeekdayPlace,
    },
    /// The places in brackets end, with these days from them.
    PlacesEnd(Option<Days>),
    /// A range of times more.
    Times(TimeRange),
    /// The rule is closed.
    Closed,
}

// `2024`, `2024-2030/2`
fn years_of(first: Digits, last: Option<Digits>, step: Option<Digits>) -> Option<Selector>
    ensures kept { IfSome result (IsSelector (piece.Years first last step)) }
    ensures accepted { IsSome result ↔ IsPiece (piece.Years first last step) }
{
    match last {
        None => match step {
            None => match one_year(first) {
                Some(found) => Some(Selector::Years(found)),
                None => None,
            },
            Some(_) => None,
        },
        Some(last) => match years(first, last, step) {
            Some(found) => Some(Selector::Years(found)),
            None => None,
        },
    }
}

// `10`, `10-20/2`
fn weeks_of(first: Digits, last: Option<Digits>, step: Option<Digits>) -> Option<Selector>
    ensures kept { IfSome result (IsSelector (piece.Weeks first last step)) }
    ensures accepted { IsSome result ↔ IsPiece (piece.Weeks first last step) }
{
    match last {
        None => match step {
            None => match one_week(first) {
                Some(found) => Some(Selector::Weeks(found)),
                None => None,
            },
            Some(_) => None,
        },
        Some(last) => match weeks(first, last, step) {
            Some(found) => Some(Selector::Weeks(found)),
            None => None,
        },
    }
}

// `Apr`, `Apr-Sep`
fn months_of(first: u8, last: Option<u8>) -> Option<Selector>
    ensures kept { IfSome result (IsSelector (piece.Months first last)) }
    ensures accepted { IsSome result ↔ IsPiece (piece.Months first last) }
{
    match months(first, last) {
        Some(found) => Some(Selector::Months(found)),
        None => None,
    }
}

// `Mo`, `Mo-Fr`
fn weekdays_of(first: u8, last: Option<u8>) -> Option<Selector>
    ensures kept { IfSome result (IsSelector (piece.Weekdays first last)) }
    ensures accepted { IsSome result ↔ IsPiece (piece.Weekdays first last) }
{
    match weekdays(first, last) {
        Some(found) => Some(Selector::Weekdays(found)),
        None => None,
    }
}

// `-1`, in brackets after a weekday
fn place_back_of(weekday: u8, number: Digits) -> Option<Selector>
    ensures kept { IfSome result (IsSelector (piece.PlaceBack weekday number)) }
    ensures accepted { IsSome result ↔ IsPiece (piece.PlaceBack weekday number) }
{
    match place(weekday, number) {
        Some(found) => Some(Selector::NthBack(found)),
        None => None,
    }
}

// `1`, `1-2`, in brackets after a weekday
fn places_of(weekday: u8, first: Digits, last: Option<Digits>) -> Option<Part>
    ensures kept { IfSome result (λ x. IsPartOf x (piece.Places weekday first last)) }
    ensures accepted { IsSome result ↔ IsPiece (piece.Places weekday first last) }
{
    let begin = place(weekday, first)?;
    match last {
        None => Some(Part::Places {
            first: begin,
            last: begin,
        }),
        Some(number) => {
            let end = place(weekday, number)?;
            if first.value <= number.value {
                Some(Part::Places {
                    first: begin,
                    last: end,
                })
            } else {
                None
            }
        }
    }
}

// `]`, `] -2 days`
fn places_end_of(offset: Option<Offset>) -> Option<Part>
    ensures kept { IfSome result (λ x. IsPartOf x (piece.PlacesEnd offset)) }
    ensures accepted { IsSome result ↔ IsPiece (piece.PlacesEnd offset) }
{
    match offset {
        None => Some(Part::PlacesEnd(None)),
        Some(offset) => {
            let days = days_of(offset)?;
            Some(Part::PlacesEnd(Some(days)))
        }
    }
}

// A selector as a part.
fn one(selector: Option<Selector>) -> Option<Part>
    ensures kept { (y : Piece) → IfSome selector (IsSelector y) → IfSome result (λ x. IsPartOf x y) }
    ensures accepted { IsSome result ↔ IsSome selector }
{
    match selector {
        Some(selector) => Some(Part::Selector(selector)),
        None => None,
    }
}

/// What a piece stands for, or `None` exactly if its numbers or times are not in range.
pub fn part_of(piece: Piece) -> Option<Part>
    ensures kept { IfSome result (λ x. IsPartOf x piece) }
    ensures accepted { IsSome result ↔ IsPiece piece }
{
    match piece {
        Piece::Rule(link) => Some(Part::Rule(link)),
        Piece::Kind => Some(Part::Kind),
        Piece::Years { first, last, step } => one(years_of(first, last, step)),
        Piece::Months { first, last } => one(months_of(first, last)),
        Piece::Dates { first, last } => one(dates_of(first, last)),
        Piece::Weeks { first, last, step } => one(weeks_of(first, last, step)),
        Piece::Weekdays { first, last } => one(weekdays_of(first, last)),
        Piece::PlaceBack { weekday, number } => one(place_back_of(weekday, number)),
        Piece::Places {
            weekday,
            first,
            last,
        } => places_of(weekday, first, last),
        Piece::PlacesEnd { offset } => places_end_of(offset),
        Piece::Times { begin, last } => match times(begin, last) {
            Some(range) => Some(Part::Times(range)),
            None => None,
        },
        Piece::Closed => Some(Part::Closed),
    }
}
