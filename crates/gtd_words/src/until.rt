//! The pieces of an end's words, and what follows the words of a start.

ghost use Rattle.std.specs.Prelude.{◌≡◌, ◌<◌, ◌++◌, [], ◌∷◌, vec_items, OnOk, IfSome};
ghost use Rattle.gtd_core.specs.Parts.{duration_parts};
ghost use Rattle.gtd_core.specs.Ranges.{HasSixDigits, IsStart};
ghost use Rattle.gtd_ends.specs.Ends.{IsEnd};
ghost use Rattle.gtd_words.specs.Starts.{count};
ghost use Rattle.gtd_words.specs.Untils.{day_after, included, minute_of_end, rest_pieces, tail_pieces, time_after};
ghost use Rattle.gtd_words.specs.Untils.{time_on, until_pieces};

use crate::duration::push_duration;
use crate::start::{count, say};
use gtd_core::{Duration, DurationParts, StartParts};
use gtd_ends::laws::ends_are_right;
use gtd_ends::{End, ending, is_all_day, is_written, usual};
use gtd_phrases::{Counted, Fixed, Phrase, Piece};
use std::alloc::AllocError;

fn push_minute(out: &mut Vec<Piece>, second: u32) -> Result<(), AllocError>
    ensures { OnOk result (vec_items out.new ≡ vec_items out.old ++ minute_of_end second) }
{
    count(out, Phrase::Numbered(Counted::EndMinute), second / 60 % 60)?;
    if second % 60 == 0 {
        return Ok(());
    }
    count(out, Phrase::Numbered(Counted::EndSecond), second % 60)
}

fn push_day_after(out: &mut Vec<Piece>, days: u32) -> Result<(), AllocError>
    ensures { OnOk result (vec_items out.new ≡ vec_items out.old ++ day_after days) }
{
    match days {
        0 => Ok(()),
        1 => say(out, Phrase::Said(Fixed::NextDay)),
        _ => count(out, Phrase::Numbered(Counted::DaysLater), days),
    }
}

// Adds a day that is an end, and the time on it.
fn push_time_on(
    out: &mut Vec<Piece>,
    day: Phrase,
    number: u32,
    second: u32,
) -> Result<(), AllocError>
    ensures { OnOk result (vec_items out.new ≡ vec_items out.old ++ time_on (count day number) second) }
{
    count(out, day, number)?;
    count(out, Phrase::Numbered(Counted::EndHour), second / 3600)?;
    push_minute(out, second)
}

// Adds a day that is included.
fn push_included(out: &mut Vec<Piece>, day: Phrase, number: u32) -> Result<(), AllocError>
    ensures { OnOk result (vec_items out.new ≡ vec_items out.old ++ included (count day number)) }
{
    count(out, day, number)?;
    say(out, Phrase::Said(Fixed::Included))
}

fn push_time_after(out: &mut Vec<Piece>, after: bool, end: (u32, u32)) -> Result<(), AllocError>
    ensures { OnOk result (vec_items out.new ≡ vec_items out.old ++ time_after after end) }
{
    count(out, Phrase::UntilHour(after), end.1 / 3600)?;
    push_minute(out, end.1)?;
    push_day_after(out, end.0)
}

#[tactic(auto, unfolding(crate::specs::Untils::until_pieces))]
fn push_until(out: &mut Vec<Piece>, after: bool, end: End) -> Result<(), AllocError>
    requires { IsEnd end }
    ensures { OnOk result (vec_items out.new ≡ vec_items out.old ++ until_pieces after end) }
{
    match end {
        End::Clock(end) => push_time_after(out, after, end),
        End::Weekday(end) => {
            push_time_on(out, Phrase::UntilWeekday(after, small(end.0)), 0, end.1)
        }
        End::WithWeekday(weekday) => {
            push_included(out, Phrase::UntilWeekday(after, small(weekday)), 0)
        }
        End::Date(end) => {
            push_time_on(out, Phrase::UntilDate(after, small(end.0)), end.1, end.2)
        }
        End::WithDate(end) => { push_included(out, Phrase::UntilDate(after, small(end.0)), end.1) }
        End::WithFebruary => say(out, Phrase::UntilFebruary(after)),
    }
}

fn small(n: u32) -> u8
    requires { n < 256 }
    ensures { result ≡ n }
{
    n as u8
}

fn push_tail(
    out: &mut Vec<Piece>,
    start: &StartParts,
    duration: &DurationParts,
    end: Option<End>,
) -> Result<(), AllocError>
    requires digits { HasSixDigits duration.now }
    requires is_end { IfSome end IsEnd }
    ensures { OnOk result (vec_items out.new ≡ vec_items out.old ++ tail_pieces start.now duration.now end) }
{
    match end {
        Some(end) => {
            if is_written(duration, usual(start, end)) {
                return push_until(out, false, end);
            }
            push_duration(out, duration)?;
            push_until(out, true, end)
        }
        None => push_duration(out, duration),
    }
}

/// Adds what follows the pieces of a start: `all day`, or the end, or the duration.
#[tactic(auto, unfolding(crate::specs::Untils::rest_pieces))]
pub(crate) fn push_rest(
    out: &mut Vec<Piece>,
    start: &StartParts,
    duration: &Duration,
) -> Result<(), AllocError>
    requires { IsStart start.now }
    ensures { OnOk result (vec_items out.new ≡ vec_items out.old
        ++ rest_pieces start.now (duration_parts duration.now)) }
{
    ends_are_right();
    let parts = duration.parts();
    if is_all_day(start, &parts) {
        return say(out, Phrase::Said(Fixed::AllDay));
    }
    push_tail(out, start, &parts, ending(start, duration))
}
