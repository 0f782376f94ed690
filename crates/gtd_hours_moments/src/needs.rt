//! What has to be given for the times of a text, and which of them last too long.

ghost use Rattle.std.specs.Prelude.{◌≡◌};
ghost use Rattle.gtd_hours_moments.specs.Needs.{event_need, first_need, form_need, form_too_long, is_within, last_need};
ghost use Rattle.gtd_hours_moments.specs.Needs.{last_too_long, moment_need, need_at, open_too_long, point_need, range_need};
ghost use Rattle.gtd_hours_moments.specs.Needs.{sign_need, too_long};

use crate::clocks::Clocks;
use crate::minutes::{event_minutes, lasting, minute_after, minute_at};
use gtd_hours_times::{Moment, TimeForm};

/// What is missing or wrong.
#[derive(Clone, Copy, Debug, PartialEq, Eq)]
pub enum NeedKind {
    /// Nothing is given for an event of the sun.
    SunTime,
    /// An event is put out of the day, or a range lasts longer than 24 hours.
    Range,
    /// Nothing is given for open ends, or a range up to what is given lasts longer than 24 hours.
    OpenEnd,
    /// Nothing is given for points of time.
    Point,
}

/// What is missing or wrong at a place.
#[derive(Clone, Copy, Debug, PartialEq, Eq)]
pub struct Need {
    /// What it is.
    pub kind: NeedKind,
    /// The place in the text.
    pub place: usize,
}

fn need_at(kind: NeedKind, place: usize) -> Option<Need>
    ensures { result ≡ need_at kind place }
{
    Some(Need { kind, place })
}

// ---- of a moment

fn is_within(most: u32, minute: Option<u32>) -> bool
    ensures { result ≡ is_within most minute }
{
    match minute {
        None => false,
        Some(minute) => minute <= most,
    }
}

fn range_need(most: u32, minute: Option<u32>, place: usize) -> Option<Need>
    ensures { result ≡ range_need most minute place }
{
    if is_within(most, minute) {
        None
    } else {
        need_at(NeedKind::Range, place)
    }
}

fn event_need(most: u32, base: Option<u16>, moment: Moment) -> Option<Need>
    ensures { result ≡ event_need most base moment }
{
    match base {
        None => need_at(NeedKind::SunTime, moment.place),
        Some(base) => range_need(most, minute_after(base, moment.minutes), moment.place),
    }
}

fn moment_need(most: u32, moment: Moment, clocks: &Clocks) -> Option<Need>
    ensures { result ≡ moment_need most moment clocks.now }
{
    match moment.event {
        None => None,
        Some(event) => event_need(most, event_minutes(clocks, event), moment),
    }
}

fn last_need(last: Option<Moment>, clocks: &Clocks) -> Option<Need>
    ensures { result ≡ last_need last clocks.now }
{
    match last {
        None => None,
        Some(moment) => moment_need(1440, moment, clocks),
    }
}

// ---- of a form

fn point_need(form: TimeForm, clocks: &Clocks) -> Option<Need>
    ensures { result ≡ point_need form clocks.now }
{
    if form.last.is_none() && !form.is_open && clocks.points.is_none() {
        need_at(NeedKind::Point, form.begin.place)
    } else {
        None
    }
}

fn sign_need(form: TimeForm, clocks: &Clocks) -> Option<Need>
    ensures { result ≡ sign_need form clocks.now }
{
    if form.is_open && clocks.open_end.is_none() {
        need_at(NeedKind::OpenEnd, form.sign)
    } else if form.step.is_some() && clocks.points.is_none() {
        need_at(NeedKind::Point, form.sign)
    } else {
        None
    }
}

fn form_need(form: TimeForm, clocks: &Clocks) -> Option<Need>
    ensures { result ≡ form_need form clocks.now }
{
    if let Some(need) = point_need(form, clocks) {
        return Some(need);
    }
    if let Some(need) = moment_need(1439, form.begin, clocks) {
        return Some(need);
    }
    if let Some(need) = last_need(form.last, clocks) {
        return Some(need);
    }
    sign_need(form, clocks)
}

/// The first option that the forms need and that is not given, or the first event that is put out of the day.
pub fn first_need(forms: &[TimeForm], clocks: &Clocks) -> Option<Need>
    ensures need { result ≡ first_need forms.now clocks.now }
{
    let mut rest = forms;
    while let Some((form, later)) = rest.split_first() {
        if let Some(need) = form_need(*form, clocks) {
            return Some(need);
        }
        rest = later;
    }
    None
}

// ---- ranges of more than 24 hours

fn last_too_long(begin: u32, last: Option<Moment>, clocks: &Clocks) -> Option<Need>
    ensures { result ≡ last_too_long begin last clocks.now }
{
    match last {
        None => None,
        Some(moment) => {
            if lasting(begin, minute_at(clocks, moment)) > 1440 {
                need_at(NeedKind::Range, moment.place)
            } else {
                None
            }
        }
    }
}

fn open_too_long(begin: u32, open_end: Option<u16>, sign: usize) -> Option<Need>
    ensures { result ≡ open_too_long begin open_end sign }
{
    match open_end {
        None => None,
        Some(end) => {
            if lasting(begin, u32::from(end)) > 1440 {
                need_at(NeedKind::OpenEnd, sign)
            } else {
                None
            }
        }
    }
}

fn form_too_long(form: TimeForm, clocks: &Clocks) -> Option<Need>
    ensures { result ≡ form_too_long form clocks.now }
{
    let begin = minute_at(clocks, form.begin);
    if let Some(need) = last_too_long(begin, form.last, clocks) {
        return Some(need);
    }
    if form.is_open {
        open_too_long(begin, clocks.open_end, form.sign)
    } else {
        None
    }
}

/// The first form that lasts longer than 24 hours, where nothing is needed.
pub fn too_long(forms: &[TimeForm], clocks: &Clocks) -> Option<Need>
    ensures need { result ≡ too_long forms.now clocks.now }
{
    let mut rest = forms;
    while let Some((form, later)) = rest.split_first() {
        if let Some(need) = form_too_long(*form, clocks) {
            return Some(need);
        }
        rest = later;
    }
    None
}
