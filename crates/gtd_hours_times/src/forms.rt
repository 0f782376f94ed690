//! Moments and forms of times, as they are read token by token.

ghost use Rattle.std.specs.Prelude.{◌≡◌};
ghost use Rattle.gtd_hours_times.specs.Forms.{behind_moment, begins_event, closed_form, event_form, goes_on, is_dash};
ghost use Rattle.gtd_hours_times.specs.Forms.{is_event, is_last_midnight, is_plus, is_slash, last_time_form, moment_step};
ghost use Rattle.gtd_hours_times.specs.Forms.{opened_form, plain_form, time_form, time_minutes, time_moment, whole_at};

use crate::behind::{Behind, Start, Step, Written};
use crate::moment::{Event, Moment, TimeForm};
use crate::times::{TimeKind, TimeToken};

/// Whether it is a plus.
pub fn is_plus(kind: TimeKind) -> bool
    ensures { result ≡ is_plus kind }
{
    match kind {
        TimeKind::Plus => true,
        _ => false,
    }
}

fn is_dash(kind: TimeKind) -> bool
    ensures { result ≡ is_dash kind }
{
    match kind {
        TimeKind::Dash => true,
        _ => false,
    }
}

fn is_slash(kind: TimeKind) -> bool
    ensures { result ≡ is_slash kind }
{
    match kind {
        TimeKind::Slash => true,
        _ => false,
    }
}

fn is_event(kind: TimeKind) -> bool
    ensures { result ≡ is_event kind }
{
    match kind {
        TimeKind::Event(_) => true,
        _ => false,
    }
}

/// Whether an event comes first.
pub fn begins_event(tokens: &[TimeToken]) -> bool
    ensures { result ≡ begins_event tokens.now }
{
    match tokens.first() {
        None => false,
        Some(token) => is_event(token.kind),
    }
}

/// The minutes of a time.
pub fn time_minutes(hour: u8, minute: u8) -> u16
    ensures { result ≡ time_minutes hour minute }
{
    60 * u16::from(hour) + u16::from(minute)
}

/// A time as a moment.
pub fn time_moment(place: usize, hour: u8, minute: u8) -> Moment
    ensures { result ≡ time_moment place hour minute }
{
    Moment {
        event: None,
        minutes: i32::from(time_minutes(hour, minute)),
        place,
    }
}

// Whether these tokens, behind a moment, go on with its form.
fn goes_on(start: Start, later: &[TimeToken]) -> bool
    ensures { result ≡ goes_on start later.now }
{
    match later.first() {
        None => false,
        Some(next) => match start.first {
            None => is_plus(next.kind) || is_dash(next.kind),
            Some(_) => is_plus(next.kind) || is_slash(next.kind),
        },
    }
}

// ---- what stands for a moment in the checked text

// Whether a second time, behind an event, is 48:00.
fn is_last_midnight(begin: Moment, hour: u8, minute: u8) -> bool
    ensures { result ≡ is_last_midnight begin hour minute }
{
    begin.event.is_some() && hour == 48 && minute == 0
}

fn last_time_form(begin: Moment, hour: u8, minute: u8) -> Written
    ensures { result ≡ last_time_form begin hour minute }
{
    if is_last_midnight(begin, hour, minute) {
        Written::LastMinute
    } else {
        Written::Time
    }
}

/// What stands for a time.
pub fn time_form(start: Start, hour: u8, minute: u8, later: &[TimeToken]) -> Written
    ensures { result ≡ time_form start hour minute later.now }
{
    match start.first {
        Some(begin) => last_time_form(begin, hour, minute),
        None => {
            if goes_on(start, later) {
                Written::Time
            } else {
                Written::TimeToMidnight
            }
        }
    }
}

/// What stands for an event without parentheses.
pub fn event_form(start: Start, later: &[TimeToken]) -> Written
    ensures { result ≡ event_form start later.now }
{
    match start.first {
        Some(_) => Written::Last,
        None => {
            if goes_on(start, later) {
                Written::First
            } else {
                Written::FirstToMidnight
            }
        }
    }
}

/// What stands for the parenthesis with which a moment begins.
pub fn opened_form(start: Start) -> Written
    ensures { result ≡ opened_form start }
{
    match start.first {
        Some(_) => Written::Nothing,
        None => Written::First,
    }
}

/// What stands for the parenthesis with which a moment ends.
pub fn closed_form(start: Start, later: &[TimeToken]) -> Written
    ensures { result ≡ closed_form start later.now }
{
    match start.first {
        Some(_) => Written::Last,
        None => {
            if goes_on(start, later) {
                Written::Nothing
            } else {
                Written::ToMidnight
            }
        }
    }
}

// ---- behind a moment

// A form without a sign.
fn plain_form(start: Start, moment: Moment) -> TimeForm
    ensures { result ≡ plain_form start moment }
{
    match start.first {
        None => TimeForm {
            from: start.from,
            begin: moment,
            last: None,
            is_open: false,
            step: None,
            sign: 0,
        },
        Some(begin) => TimeForm {
            from: start.from,
            begin,
            last: Some(moment),
            is_open: false,
            step: None,
            sign: 0,
        },
    }
}

// The form that is whole with a moment, before these tokens.
fn whole_at(start: Start, moment: Moment, later: &[TimeToken]) -> Option<TimeForm>
    ensures { result ≡ whole_at start moment later.now }
{
    if goes_on(start, later) {
        None
    } else {
        Some(plain_form(start, moment))
    }
}

// What stands behind a moment.
fn behind_moment(start: Start, moment: Moment, later: &[TimeToken]) -> Behind
    ensures { result ≡ behind_moment start moment later.now }
{
    if !goes_on(start, later) {
        return Behind::Whole;
    }
    match start.first {
        None => Behind::Begun {
            from: start.from,
            begin: moment,
        },
        Some(begin) => Behind::Ranged {
            from: start.from,
            begin,
            last: moment,
        },
    }
}

/// What becomes of the last token of a moment.
pub fn moment_step(written: Written, start: Start, moment: Moment, later: &[TimeToken]) -> Step
    ensures { result ≡ moment_step written start moment later.now }
{
    Step {
        written,
        behind: behind_moment(start, moment, later),
        whole: whole_at(start, moment, later),
    }
}
