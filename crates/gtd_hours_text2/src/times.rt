//! From the tokens of a part to its value: times, offsets, and ends of ranges.

ghost use Rattle.std.specs.Prelude.{◌≡◌, ◌≤◌, drop};
ghost use Rattle.gtd_hours_text2.specs.Parts.{Gives, clock, clock_at, days_at, event_at, event_of, every, every_tail};
ghost use Rattle.gtd_hours_text2.specs.Parts.{first_kind, has_offset, lasts_long, minute_at, moment_at, number, offset};
ghost use Rattle.gtd_hours_text2.specs.Parts.{open_or_point, range_tail, shifted_at, suits, tail_at, time_range};
ghost use Rattle.gtd_hours_text2.specs.Parts.{times};

use crate::years::{after, is, number, place_of};
use gtd_hours_grammar2::Class;
use gtd_hours_tokens2::{Event, Token, TokenKind};
use gtd_hours2::{DayOffset, RulePart, SunEvent, TimeOfDay, TimeTail};

pub(crate) fn first_kind(tokens: &[Token]) -> TokenKind
    ensures { result ≡ first_kind tokens.now }
{
    match tokens {
        [] => TokenKind::Comma,
        [token, ..] => token.kind,
    }
}

fn clock(most: u16, token: Token) -> Result<u16, u16>
    ensures { Gives (λ x. x) result (clock most token token.kind) }
{
    match token.kind {
        TokenKind::Time { hour, minute } => {
            let minutes = 60 * (hour as u16) + minute as u16;
            if minute < 60 && minutes <= most {
                Ok(minutes)
            } else {
                Err(token.from)
            }
        }
        _ => Err(token.from),
    }
}

fn clock_at(most: u16, tokens: &[Token]) -> Result<(u16, &[Token]), u16>
    ensures { Gives (λ x. (x.0, x.1.now)) result (clock_at most tokens.now) }
{
    match tokens {
        [] => Err(0),
        [token, rest @ ..] => {
            let minutes = clock(most, *token)?;
            Ok((minutes, rest))
        }
    }
}

fn event_of(event: Event) -> SunEvent
    ensures { result ≡ event_of event }
{
    match event {
        Event::Sunrise => SunEvent::Sunrise,
        Event::Sunset => SunEvent::Sunset,
        Event::Dawn => SunEvent::Dawn,
        Event::Dusk => SunEvent::Dusk,
    }
}

fn event_at(kind: TokenKind, minutes: u16, is_before: bool) -> TimeOfDay
    ensures { result ≡ event_at kind minutes is_before }
{
    match kind {
        TokenKind::Event(event) => TimeOfDay::Event {
            event: event_of(event),
            minutes,
            is_before,
        },
        _ => TimeOfDay::Clock(0),
    }
}

fn shifted_at(tokens: &[Token]) -> Result<(TimeOfDay, &[Token]), u16>
    ensures { Gives (λ x. (x.0, x.1.now)) result (shifted_at tokens.now) }
{
    let sign = after(tokens);
    let (minutes, rest) = clock_at(1439, after(sign))?;
    let moment = event_at(first_kind(tokens), minutes, is(Class::Dash, sign));
    Ok((moment, after(rest)))
}

fn minute_at(most: u16, tokens: &[Token]) -> Result<(TimeOfDay, &[Token]), u16>
    ensures { Gives (λ x. (x.0, x.1.now)) result (minute_at most tokens.now) }
{
    let (minutes, rest) = clock_at(most, tokens)?;
    Ok((TimeOfDay::Clock(minutes), rest))
}

fn moment_at(most: u16, tokens: &[Token]) -> Result<(TimeOfDay, &[Token]), u16>
    ensures { Gives (λ x. (x.0, x.1.now)) result (moment_at most tokens.now) }
{
    if is(Class::Paren, tokens) {
        return shifted_at(after(tokens));
    }
    if is(Class::Event, tokens) {
        return Ok((event_at(first_kind(tokens), 0, false), after(tokens)));
    }
    minute_at(most, tokens)
}

fn lasts_long(first: TimeOfDay, last: TimeOfDay) -> bool
    ensures { result ≡ lasts_long first last }
{
    match first {
        TimeOfDay::Clock(a) => match last {
            TimeOfDay::Clock(b) => (a as u32) + 1440 < b as u32,
            TimeOfDay::Event { .. } => false,
        },
        TimeOfDay::Event { .. } => false,
    }
}

fn every(tokens: &[Token]) -> Result<(u16, &[Token]), u16>
    ensures { Gives (λ x. (x.0, x.1.now)) result (every tokens.now) }
{
    if is(Class::Time, tokens) {
        clock_at(1440, tokens)
    } else {
        number(4, 1, 1440, tokens)
    }
}

fn every_tail(tokens: &[Token]) -> Result<TimeTail, u16>
    ensures { Gives (λ x. x) result (every_tail tokens.now) }
{
    let (minutes, _) = every(tokens)?;
    if minutes == 0 {
        return Err(place_of(tokens));
    }
    Ok(TimeTail::Every(minutes))
}

fn tail_at(tokens: &[Token]) -> Result<TimeTail, u16>
    ensures { Gives (λ x. x) result (tail_at tokens.now) }
{
    if is(Class::Plus, tokens) {
        return Ok(TimeTail::Open);
    }
    if is(Class::Slash, tokens) {
        return every_tail(after(tokens));
    }
    Ok(TimeTail::Plain)
}

fn range_tail(
    first: TimeOfDay,
    last: TimeOfDay,
    place: u16,
    tokens: &[Token],
) -> Result<RulePart, u16>
    ensures { Gives (λ x. x) result (range_tail first last place tokens.now) }
{
    if lasts_long(first, last) {
        return Err(place);
    }
    let tail = tail_at(tokens)?;
    Ok(RulePart::Time {
        first,
        last: Some(last),
        tail,
    })
}

fn time_range(first: TimeOfDay, tokens: &[Token]) -> Result<RulePart, u16>
    ensures { Gives (λ x. x) result (time_range first tokens.now) }
{
    let (last, rest) = moment_at(2880, tokens)?;
    range_tail(first, last, place_of(tokens), rest)
}

fn open_or_point(tokens: &[Token]) -> TimeTail
    ensures { result ≡ open_or_point tokens.now }
{
    if is(Class::Plus, tokens) {
        TimeTail::Open
    } else {
        TimeTail::Plain
    }
}

/// `08:00-17:00`, `17:00+`, `(sunrise+01:00)-12:00`, `10:00-16:00/30`, `12:00`
pub(crate) fn times(tokens: &[Token]) -> Result<RulePart, u16>
    ensures { Gives (λ x. x) result (times tokens.now) }
{
    let (first, rest) = moment_at(1439, tokens)?;
    if is(Class::Dash, rest) {
        return time_range(first, after(rest));
    }
    Ok(RulePart::Time {
        first,
        last: None,
        tail: open_or_point(rest),
    })
}

// ---- offsets and ends

fn has_offset(tokens: &[Token]) -> bool
    ensures { result ≡ has_offset tokens.now }
{
    is(Class::Day, after(after(tokens)))
}

fn days_at(is_before: bool, most: u16, tokens: &[Token]) -> Result<(DayOffset, &[Token]), u16>
    ensures { Gives (λ x. (x.0, x.1.now)) result (days_at is_before most tokens.now) }
{
    let digits = if most < 100 { 2 } else { 3 };
    let (days, rest) = number(digits, 1, most, tokens)?;
    Ok((DayOffset { days, is_before }, after(rest)))
}

pub(crate) fn offset(most: u16, tokens: &[Token]) -> Result<(DayOffset, &[Token]), u16>
    ensures { Gives (λ x. (x.0, x.1.now)) result (offset most tokens.now) }
{
    if has_offset(tokens) {
        return days_at(is(Class::Dash, tokens), most, after(tokens));
    }
    Ok((
        DayOffset {
            days: 0,
            is_before: false,
        },
        tokens,
    ))
}

pub(crate) fn suits(offset: DayOffset, number: u16, is_back: bool) -> bool
    requires { number ≤ 9999 }
    ensures { result ≡ suits offset number is_back }
{
    offset.days == 0
        || (number <= 4
            && !(is_back && offset.is_before && 28 < 7 * (number as u32) + offset.days as u32))
}
