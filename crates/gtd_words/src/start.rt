//! The pieces of a start's words.

ghost use Rattle.std.specs.Prelude.{◌≡◌, ◌++◌, [], ◌∷◌, vec_items, OnOk};
ghost use Rattle.gtd_words.specs.Starts.{also_back, also_place, also_weekdays, anchor_pieces, back_condition, beginning_pieces};
ghost use Rattle.gtd_words.specs.Starts.{clock_pieces, condition_pieces, count, day_pieces, hour_pieces, minute_pieces};
ghost use Rattle.gtd_words.specs.Starts.{month_pieces, period_pieces, place_condition, place_month, role_of, say};
ghost use Rattle.gtd_words.specs.Starts.{year_pieces};
ghost use Rattle.gtd_words.specs.Starts.{second_pieces, start_pieces, time_pieces, week_pieces, weekdays_condition};

use gtd_core::StartParts;
use gtd_ends::{Anchor, anchor_of};
use gtd_phrases::{Counted, Fixed, Phrase, Piece, Role};
use std::alloc::AllocError;

/// Adds a phrase with its number.
pub(crate) fn count(out: &mut Vec<Piece>, phrase: Phrase, number: u32) -> Result<(), AllocError>
    ensures { OnOk result (vec_items out.new ≡ vec_items out.old ++ count phrase number ∷ []) }
{
    out.push(Piece { phrase, number })?;
    Ok(())
}

/// Adds a phrase.
pub(crate) fn say(out: &mut Vec<Piece>, phrase: Phrase) -> Result<(), AllocError>
    ensures { OnOk result (vec_items out.new ≡ vec_items out.old ++ say phrase ∷ []) }
{
    count(out, phrase, 0)
}

/// Adds the pieces of a start. With `named` it is on its day; otherwise it is from its day.
#[tactic(auto, unfolding(crate::specs::Starts::start_pieces))]
pub(crate) fn push_start(
    out: &mut Vec<Piece>,
    named: bool,
    start: &StartParts,
) -> Result<(), AllocError>
    ensures { OnOk result (vec_items out.new ≡ vec_items out.old ++ start_pieces named start.now) }
{
    let anchor = anchor_of(start);
    push_anchor(out, named, start.month, anchor)?;
    push_period(out, start)?;
    push_conditions(out, anchor, start)?;
    push_clock(out, start.hour, start.minute, start.second)
}

fn role_of(named: bool) -> Role
    ensures { result ≡ role_of named }
{
    if named { Role::On } else { Role::From }
}

fn push_day(out: &mut Vec<Piece>, named: bool, month: Option<u8>, day: u8) -> Result<(), AllocError>
    ensures { OnOk result (vec_items out.new ≡ vec_items out.old ++ day_pieces named month day) }
{
    match month {
        Some(month) => count(out, Phrase::DateOf(named, month), u32::from(day)),
        None => count(out, Phrase::DateOfEach(named), u32::from(day)),
    }
}

// Adds a place and its month, or each month.
fn push_place(out: &mut Vec<Piece>, place: Phrase, month: Option<u8>) -> Result<(), AllocError>
    ensures { OnOk result (vec_items out.new ≡ vec_items out.old ++ say place ∷ place_month month) }
{
    say(out, place)?;
    match month {
        Some(month) => say(out, Phrase::OfMonth(month)),
        None => say(out, Phrase::Said(Fixed::OfEachMonth)),
    }
}

// Adds another day and its month, if it is given.
fn push_in_month(out: &mut Vec<Piece>, day: Phrase, month: Option<u8>) -> Result<(), AllocError>
    ensures { OnOk result (vec_items out.new ≡ vec_items out.old ++ say day ∷ month_pieces month) }
{
    say(out, day)?;
    match month {
        Some(month) => say(out, Phrase::OfMonth(month)),
        None => Ok(()),
    }
}

fn push_beginning(out: &mut Vec<Piece>, month: Option<u8>) -> Result<(), AllocError>
    ensures { OnOk result (vec_items out.new ≡ vec_items out.old ++ beginning_pieces month) }
{
    match month {
        Some(month) => say(out, Phrase::BeginningOf(month)),
        None => say(out, Phrase::Said(Fixed::FromBeginning)),
    }
}

fn push_anchor(
    out: &mut Vec<Piece>,
    named: bool,
    month: Option<u8>,
    anchor: Anchor,
) -> Result<(), AllocError>
    ensures { OnOk result (vec_items out.new ≡ vec_items out.old ++ anchor_pieces named month anchor) }
{
    match anchor {
        Anchor::Day(day) => push_day(out, named, month, day),
        Anchor::Place(place) => {
            push_place(
                out,
                Phrase::PlaceOf(role_of(named), place.0, place.1),
                month,
            )
        }
        Anchor::PlaceBack(place) => {
            push_place(out, Phrase::BackOf(role_of(named), place.0, place.1), month)
        }
        Anchor::Weekdays(weekdays) => {
            push_in_month(out, Phrase::DaysOf(role_of(named), weekdays), month)
        }
        Anchor::EveryDay => push_in_month(out, Phrase::Said(Fixed::EachDay), month),
        Anchor::TheMonday => push_in_month(out, Phrase::MondayOf(named), month),
        Anchor::Beginning => push_beginning(out, month),
    }
}

#[tactic(auto, unfolding(crate::specs::Starts::period_pieces))]
fn push_period(out: &mut Vec<Piece>, start: &StartParts) -> Result<(), AllocError>
    ensures { OnOk result (vec_items out.new ≡ vec_items out.old ++ period_pieces start.now) }
{
    push_week(out, start.week)?;
    push_year(out, start.month.is_some(), start.week.is_some(), start.year)
}

fn push_week(out: &mut Vec<Piece>, week: Option<u8>) -> Result<(), AllocError>
    ensures { OnOk result (vec_items out.new ≡ vec_items out.old ++ week_pieces week) }
{
    match week {
        Some(week) => count(out, Phrase::Numbered(Counted::InWeek), u32::from(week)),
        None => Ok(()),
    }
}

fn push_year(
    out: &mut Vec<Piece>,
    month: bool,
    week: bool,
    year: Option<u16>,
) -> Result<(), AllocError>
    ensures { OnOk result (vec_items out.new ≡ vec_items out.old ++ year_pieces month week year) }
{
    match year {
        Some(year) => {
            if month && !week {
                count(out, Phrase::Numbered(Counted::YearAlone), u32::from(year))
            } else {
                count(out, Phrase::Numbered(Counted::OfYear), u32::from(year))
            }
        }
        None => {
            if month || week {
                say(out, Phrase::Said(Fixed::EveryYear))
            } else {
                Ok(())
            }
        }
    }
}

#[tactic(auto, unfolding(crate::specs::Starts::condition_pieces))]
fn push_conditions(
    out: &mut Vec<Piece>,
    anchor: Anchor,
    start: &StartParts,
) -> Result<(), AllocError>
    ensures { OnOk result (vec_items out.new ≡ vec_items out.old ++ condition_pieces anchor start.now) }
{
    push_place_condition(out, anchor, start.nth)?;
    push_back_condition(out, anchor, start.nth_back)?;
    push_weekdays_condition(out, anchor, start.weekdays)
}

fn push_also_place(out: &mut Vec<Piece>, place: Option<(u8, u8)>) -> Result<(), AllocError>
    ensures { OnOk result (vec_items out.new ≡ vec_items out.old ++ also_place place) }
{
    match place {
        Some(place) => say(out, Phrase::PlaceOf(Role::If, place.0, place.1)),
        None => Ok(()),
    }
}

fn push_place_condition(
    out: &mut Vec<Piece>,
    anchor: Anchor,
    place: Option<(u8, u8)>,
) -> Result<(), AllocError>
    ensures { OnOk result (vec_items out.new ≡ vec_items out.old ++ place_condition anchor place) }
{
    match anchor {
        Anchor::Day(_) => push_also_place(out, place),
        _ => Ok(()),
    }
}

fn push_also_back(out: &mut Vec<Piece>, place: Option<(u8, u8)>) -> Result<(), AllocError>
    ensures { OnOk result (vec_items out.new ≡ vec_items out.old ++ also_back place) }
{
    match place {
        Some(place) => say(out, Phrase::BackOf(Role::If, place.0, place.1)),
        None => Ok(()),
    }
}

fn push_back_condition(
    out: &mut Vec<Piece>,
    anchor: Anchor,
    place: Option<(u8, u8)>,
) -> Result<(), AllocError>
    ensures { OnOk result (vec_items out.new ≡ vec_items out.old ++ back_condition anchor place) }
{
    match anchor {
        Anchor::Day(_) => push_also_back(out, place),
        Anchor::Place(_) => push_also_back(out, place),
        _ => Ok(()),
    }
}

fn push_also_weekdays(out: &mut Vec<Piece>, weekdays: u8) -> Result<(), AllocError>
    ensures { OnOk result (vec_items out.new ≡ vec_items out.old ++ also_weekdays weekdays) }
{
    if weekdays == 0 {
        return Ok(());
    }
    say(out, Phrase::DaysOf(Role::If, weekdays))
}

fn push_weekdays_condition(
    out: &mut Vec<Piece>,
    anchor: Anchor,
    weekdays: u8,
) -> Result<(), AllocError>
    ensures { OnOk result (vec_items out.new ≡ vec_items out.old ++ weekdays_condition anchor weekdays) }
{
    match anchor {
        Anchor::Day(_) => push_also_weekdays(out, weekdays),
        Anchor::Place(_) => push_also_weekdays(out, weekdays),
        Anchor::PlaceBack(_) => push_also_weekdays(out, weekdays),
        _ => Ok(()),
    }
}

fn push_clock(
    out: &mut Vec<Piece>,
    hour: Option<u8>,
    minute: Option<u8>,
    second: Option<u8>,
) -> Result<(), AllocError>
    ensures { OnOk result (vec_items out.new ≡ vec_items out.old ++ clock_pieces hour minute second) }
{
    match hour {
        Some(hour) => push_hour(out, hour, minute, second),
        None => match minute {
            Some(minute) => push_minute(out, minute, second),
            None => match second {
                Some(second) => {
                    count(
                        out,
                        Phrase::Numbered(Counted::FromSecond),
                        u32::from(second),
                    )
                }
                None => Ok(()),
            },
        },
    }
}

fn push_hour(
    out: &mut Vec<Piece>,
    hour: u8,
    minute: Option<u8>,
    second: Option<u8>,
) -> Result<(), AllocError>
    ensures { OnOk result (vec_items out.new ≡ vec_items out.old ++ hour_pieces hour minute second) }
{
    match minute {
        Some(minute) => {
            push_time(out, hour, minute)?;
            push_second(out, minute, second)
        }
        None => match second {
            Some(second) => {
                count(
                    out,
                    Phrase::Numbered(Counted::FromSecondOf),
                    u32::from(second),
                )?;
                count(out, Phrase::Numbered(Counted::OfHour), u32::from(hour))
            }
            None => {
                push_time(out, hour, 0)?;
                say(out, Phrase::Said(Fixed::WholeMinute))
            }
        },
    }
}

fn push_time(out: &mut Vec<Piece>, hour: u8, minute: u8) -> Result<(), AllocError>
    ensures { OnOk result (vec_items out.new ≡ vec_items out.old ++ time_pieces hour minute) }
{
    count(out, Phrase::Numbered(Counted::FromHour), u32::from(hour))?;
    count(out, Phrase::Numbered(Counted::AtMinute), u32::from(minute))
}

fn push_second(out: &mut Vec<Piece>, minute: u8, second: Option<u8>) -> Result<(), AllocError>
    ensures { OnOk result (vec_items out.new ≡ vec_items out.old ++ second_pieces minute second) }
{
    match second {
        Some(second) => count(out, Phrase::Numbered(Counted::AtSecond), u32::from(second)),
        None => {
            if minute == 0 {
                say(out, Phrase::Said(Fixed::Sharp))
            } else {
                say(out, Phrase::Said(Fixed::WholeMinute))
            }
        }
    }
}

fn push_minute(out: &mut Vec<Piece>, minute: u8, second: Option<u8>) -> Result<(), AllocError>
    ensures { OnOk result (vec_items out.new ≡ vec_items out.old ++ minute_pieces minute second) }
{
    match second {
        Some(second) => {
            count(
                out,
                Phrase::Numbered(Counted::FromMinuteAnd),
                u32::from(minute),
            )?;
            count(
                out,
                Phrase::Numbered(Counted::SecondOfEveryHour),
                u32::from(second),
            )
        }
        None => count(
            out,
            Phrase::Numbered(Counted::FromMinute),
            u32::from(minute),
        ),
    }
}
