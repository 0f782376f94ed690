//! What becomes of each token of a text.

ghost use Rattle.std.specs.Prelude.{◌≡◌};
ghost use Rattle.gtd_hours_times.specs.Steps.{begun_step, dashed_step, free_step, moment_front, moved_step, named_step};
ghost use Rattle.gtd_hours_times.specs.Steps.{misfit, misfit_of, offset_step, opened_step, opening_step, ranged_step, is_step};
ghost use Rattle.gtd_hours_times.specs.Steps.{signed_misfit, signed_step, slash_form, slashed_step, step_of, whole_step};
ghost use Rattle.gtd_hours_times.specs.Steps.{offset_minutes, open_form, points_form, step_step, unread_step};

use crate::behind::{Behind, Start, Step, Written};
use crate::forms::{
    begins_event, closed_form, event_form, is_plus, moment_step, opened_form, time_form,
    time_minutes, time_moment,
};
use crate::moment::{Event, Moment, TimeForm};
use crate::times::{TimeKind, TimeToken};
use gtd_hours_grammar::FaultKind;

// A token that cannot stand where it does.
fn misfit(kind: FaultKind) -> Step
    ensures { result ≡ misfit kind }
{
    Step {
        written: Written::Misfit(kind),
        behind: Behind::Free,
        whole: None,
    }
}

// The same, where another token was to go on with a form.
fn misfit_of(kind: TimeKind) -> Step
    ensures { result ≡ misfit_of kind }
{
    match kind {
        TimeKind::Unread => misfit(FaultKind::Unsupported),
        TimeKind::Plus => misfit(FaultKind::Unsupported),
        _ => misfit(FaultKind::Unexpected),
    }
}

// A parenthesis where a moment may begin.
fn opening_step(start: Start, later: &[TimeToken]) -> Option<Step>
    ensures { result ≡ opening_step start later.now }
{
    if !begins_event(later) {
        return None;
    }
    Some(Step {
        written: opened_form(start),
        behind: Behind::Opened { start },
        whole: None,
    })
}

// A token with which a moment begins.
fn moment_front(start: Start, token: TimeToken, later: &[TimeToken]) -> Option<Step>
    ensures { result ≡ moment_front start token later.now }
{
    match token.kind {
        TimeKind::Time { hour, minute } => {
            let moment = time_moment(token.from, hour, minute);
            let written = time_form(start, hour, minute, later);
            Some(moment_step(written, start, moment, later))
        }
        TimeKind::Event(event) => {
            let moment = Moment {
                event: Some(event),
                minutes: 0,
                place: token.from,
            };
            Some(moment_step(event_form(start, later), start, moment, later))
        }
        TimeKind::Opening => opening_step(start, later),
        _ => None,
    }
}

// A token outside of forms, with which no moment begins.
fn unread_step(kind: TimeKind) -> Step
    ensures { result ≡ unread_step kind }
{
    match kind {
        TimeKind::Opening => misfit(FaultKind::Unexpected),
        TimeKind::Closing => misfit(FaultKind::Unexpected),
        _ => Step {
            written: Written::Kept,
            behind: Behind::Free,
            whole: None,
        },
    }
}

fn free_step(token: TimeToken, later: &[TimeToken]) -> Step
    ensures { result ≡ free_step token later.now }
{
    let start = Start {
        from: token.from,
        first: None,
    };
    match moment_front(start, token, later) {
        Some(step) => step,
        None => unread_step(token.kind),
    }
}

fn whole_step(token: TimeToken, later: &[TimeToken]) -> Step
    ensures { result ≡ whole_step token later.now }
{
    if is_plus(token.kind) {
        misfit(FaultKind::Unexpected)
    } else {
        free_step(token, later)
    }
}

// ---- in parentheses

fn opened_step(start: Start, token: TimeToken) -> Step
    ensures { result ≡ opened_step start token }
{
    match token.kind {
        TimeKind::Event(event) => Step {
            written: Written::Nothing,
            behind: Behind::Named {
                start,
                event,
                place: token.from,
            },
            whole: None,
        },
        _ => misfit_of(token.kind),
    }
}

fn named_step(start: Start, event: Event, place: usize, kind: TimeKind) -> Step
    ensures { result ≡ named_step start event place kind }
{
    match kind {
        TimeKind::Plus => Step {
            written: Written::Nothing,
            behind: Behind::Signed {
                start,
                event,
                place,
                is_back: false,
            },
            whole: None,
        },
        TimeKind::Dash => Step {
            written: Written::Nothing,
            behind: Behind::Signed {
                start,
                event,
                place,
                is_back: true,
            },
            whole: None,
        },
        _ => misfit_of(kind),
    }
}

fn offset_minutes(is_back: bool, minutes: u16) -> i32
    ensures { result ≡ offset_minutes is_back minutes }
{
    if is_back {
        -i32::from(minutes)
    } else {
        i32::from(minutes)
    }
}

// The time in parentheses, of this event there.
fn offset_step(start: Start, moment: Moment, hour: u8, minute: u8) -> Step
    ensures { result ≡ offset_step start moment hour minute }
{
    if minute < 60 && time_minutes(hour, minute) <= 1440 {
        Step {
            written: Written::Nothing,
            behind: Behind::Moved { start, moment },
            whole: None,
        }
    } else {
        misfit(FaultKind::Range)
    }
}

// A plus directly behind a plus is unexpected.
fn signed_misfit(is_back: bool, kind: TimeKind) -> Step
    ensures { result ≡ signed_misfit is_back kind }
{
    if is_plus(kind) && !is_back {
        misfit(FaultKind::Unexpected)
    } else {
        misfit_of(kind)
    }
}

fn signed_step(start: Start, event: Event, place: usize, is_back: bool, kind: TimeKind) -> Step
    ensures { result ≡ signed_step start event place is_back kind }
{
    match kind {
        TimeKind::Time { hour, minute } => {
            let moment = Moment {
                event: Some(event),
                minutes: offset_minutes(is_back, time_minutes(hour, minute)),
                place,
            };
            offset_step(start, moment, hour, minute)
        }
        _ => signed_misfit(is_back, kind),
    }
}

fn moved_step(start: Start, moment: Moment, kind: TimeKind, later: &[TimeToken]) -> Step
    ensures { result ≡ moved_step start moment kind later.now }
{
    match kind {
        TimeKind::Closing => moment_step(closed_form(start, later), start, moment, later),
        _ => misfit_of(kind),
    }
}

// ---- behind moments

// A form with an open end.
fn open_form(from: usize, begin: Moment, last: Option<Moment>, sign: usize) -> TimeForm
    ensures { result ≡ open_form from begin last sign }
{
    TimeForm {
        from,
        begin,
        last,
        is_open: true,
        step: None,
        sign,
    }
}

// Points from one moment to another, without their step.
fn points_form(from: usize, begin: Moment, last: Moment, sign: usize) -> TimeForm
    ensures { result ≡ points_form from begin last sign }
{
    TimeForm {
        from,
        begin,
        last: Some(last),
        is_open: false,
        step: None,
        sign,
    }
}

fn begun_step(from: usize, begin: Moment, token: TimeToken) -> Step
    ensures { result ≡ begun_step from begin token }
{
    match token.kind {
        TimeKind::Plus => Step {
            written: Written::ToMidnight,
            behind: Behind::Whole,
            whole: Some(open_form(from, begin, None, token.from)),
        },
        TimeKind::Dash => Step {
            written: Written::Dash,
            behind: Behind::Dashed { from, begin },
            whole: None,
        },
        _ => misfit_of(token.kind),
    }
}

fn dashed_step(from: usize, begin: Moment, token: TimeToken, later: &[TimeToken]) -> Step
    ensures { result ≡ dashed_step from begin token later.now }
{
    let start = Start {
        from,
        first: Some(begin),
    };
    match moment_front(start, token, later) {
        Some(step) => step,
        None => misfit_of(token.kind),
    }
}

// A slash with which the text ends leaves it incomplete.
fn slash_form(later: &[TimeToken]) -> Written
    ensures { result ≡ slash_form later.now }
{
    match later.first() {
        None => Written::Comma,
        Some(_) => Written::Nothing,
    }
}

fn ranged_step(
    from: usize,
    begin: Moment,
    last: Moment,
    token: TimeToken,
    later: &[TimeToken],
) -> Step
    ensures { result ≡ ranged_step from begin last token later.now }
{
    match token.kind {
        TimeKind::Plus => Step {
            written: Written::Nothing,
            behind: Behind::Whole,
            whole: Some(open_form(from, begin, Some(last), token.from)),
        },
        TimeKind::Slash => Step {
            written: slash_form(later),
            behind: Behind::Slashed {
                form: points_form(from, begin, last, token.from),
            },
            whole: None,
        },
        _ => misfit_of(token.kind),
    }
}

// The step of these points, if it is one.
fn step_step(is_step: bool, form: TimeForm) -> Step
    ensures { result ≡ step_step is_step form }
{
    if is_step {
        Step {
            written: Written::Nothing,
            behind: Behind::Whole,
            whole: Some(form),
        }
    } else {
        misfit(FaultKind::Range)
    }
}

fn is_step(minutes: u16) -> bool
    ensures { result ≡ is_step minutes }
{
    1 <= minutes && minutes <= 1440
}

// The step of a form which has all but its step.
fn slashed_step(form: TimeForm, kind: TimeKind) -> Step
    ensures { result ≡ slashed_step form kind }
{
    match kind {
        TimeKind::Number(minutes) => step_step(
            is_step(minutes),
            TimeForm {
                step: Some(minutes),
                ..form
            },
        ),
        TimeKind::Time { hour, minute } => {
            let minutes = time_minutes(hour, minute);
            let step = Some(minutes);
            step_step(minute < 60 && is_step(minutes), TimeForm { step, ..form })
        }
        _ => misfit_of(kind),
    }
}

/// What becomes of a token behind others, where these come behind it.
pub fn step_of(behind: Behind, token: TimeToken, later: &[TimeToken]) -> Step
    ensures { result ≡ step_of behind token later.now }
{
    match behind {
        Behind::Free => free_step(token, later),
        Behind::Whole => whole_step(token, later),
        Behind::Opened { start } => opened_step(start, token),
        Behind::Named {
            start,
            event,
            place,
        } => named_step(start, event, place, token.kind),
        Behind::Signed {
            start,
            event,
            place,
            is_back,
        } => signed_step(start, event, place, is_back, token.kind),
        Behind::Moved { start, moment } => moved_step(start, moment, token.kind, later),
        Behind::Begun { from, begin } => begun_step(from, begin, token),
        Behind::Dashed { from, begin } => dashed_step(from, begin, token, later),
        Behind::Ranged { from, begin, last } => ranged_step(from, begin, last, token, later),
        Behind::Slashed { form } => slashed_step(form, token.kind),
    }
}
