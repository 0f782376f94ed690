//! The spans of a source, cut at midnights: day by day their seconds are handed out, or counted.

ghost use Rattle.std.specs.Prelude.{◌≡◌, ◌↔◌, ◌+ℤ◌, ◌≤ℤ◌, ◌<ℤ◌, ◌≤◌, ◌^◌, ℤ, pos};
ghost use Rattle.gtd_spans.specs.Normal.{Holds, IsNormal};
ghost use Rattle.gtd_spans.specs.Counting.{IsCount, day_at, part_within, spans_to_come};
ghost use Rattle.gtd_spans.specs.Sweeping.{Takes};
ghost use Rattle.gtd_core.specs.Limits.{day_seconds};

use crate::source::SpanSource;
use gtd_core::limits::DAY_SECONDS;
use gtd_core::{Sec, Span};
use std::marker::Model;

/// The day that begins at midnight.
fn day_from(midnight: Sec) -> Span
    requires fits { (midnight.0 +ℤ pos day_seconds) <ℤ pos (2 ^ 63) }
    ensures value { result ≡ day_at midnight.0 }
{
    Span::between(midnight, Sec(midnight.0 + DAY_SECONDS))
}

/// Takes the first span of the seconds to come that are within bounds. The spans before it are used up.
fn next_within<S: SpanSource>(source: &mut S, held: &mut Option<Span>, bounds: Span) -> Option<Span>
    requires normal { IsNormal (spans_to_come held.old (S.rest source.old)) }
    ensures takes { Takes (part_within bounds (spans_to_come held.old (S.rest source.old))) result
        (part_within bounds (spans_to_come held.new (S.rest source.new))) }
    ensures later { (t : ℤ) → bounds.until ≤ℤ t
        → Holds (spans_to_come held.old (S.rest source.old)) t ↔ Holds (spans_to_come held.new (S.rest source.new)) t }
    ensures normal { IsNormal (spans_to_come held.new (S.rest source.new)) }
{
    while let Some(span) = *held {
        if span.from().0 >= bounds.until().0 {
            return None;
        }
        if span.until().0 > bounds.until().0 {
            *held = Some(Span::between(bounds.until(), span.until()));
            return span.meet(bounds);
        }
        *held = source.next();
        if let Some(part) = span.meet(bounds) {
            return Some(part);
        }
    }
    None
}

/// How many seconds a part of the day has.
fn seconds_of(part: Span, day: Span) -> u32
    requires begins { day.from ≤ℤ part.from }
    requires ends { part.until ≤ℤ day.until }
    requires is_day { day.until ≡ day.from +ℤ pos day_seconds }
    ensures count { part.from +ℤ pos result ≡ part.until }
    ensures few { result ≤ day_seconds }
{
    (part.until().0 - part.from().0) as u32
}

/// How many seconds of the spans to come are on the day. Those before its end are used up.
fn count_day<S: SpanSource>(source: &mut S, held: &mut Option<Span>, midnight: Sec) -> u32
    requires fits { (midnight.0 +ℤ pos day_seconds) <ℤ pos (2 ^ 63) }
    requires normal { IsNormal (spans_to_come held.old (S.rest source.old)) }
    ensures count { IsCount (Holds (spans_to_come held.old (S.rest source.old))) midnight.0 day_seconds result }
    ensures later { (t : ℤ) → (midnight.0 +ℤ pos day_seconds) ≤ℤ t
        → Holds (spans_to_come held.old (S.rest source.old)) t ↔ Holds (spans_to_come held.new (S.rest source.new)) t }
    ensures normal { IsNormal (spans_to_come held.new (S.rest source.new)) }
    ensures few { result ≤ day_seconds }
{
    let day = day_from(midnight);
    let mut count = 0u32;
    while let Some(part) = next_within(source, held, day) {
        count += seconds_of(part, day);
    }
    count
}

/// The spans of a source that are still to come, day by day. In contracts it is the normal list of these spans.
#[derive(Drop)]
pub struct ByDay<S: SpanSource> {
    source: S,
    held: Option<Span>,
}

impl<S: SpanSource> Model for ByDay<S> {
    ghost use Rattle.std.specs.Prelude.{List};
    ghost use Rattle.gtd_core.specs.Seconds.{Interval};
    ghost use Rattle.gtd_spans.specs.Normal.{IsNormal};
    ghost use Rattle.gtd_spans.specs.Counting.{spans_to_come};

    ghost Value = { List Interval };

    ghost view = { λ a. spans_to_come a.held (S.rest a.source) };

    ghost invariant = { λ a. IsNormal (spans_to_come a.held (S.rest a.source)) };
}

impl<S: SpanSource> ByDay<S> {
    /// All spans of a source.
    pub fn new(mut source: S) -> ByDay<S>
        ensures value { result ≡ S.rest source }
    {
        let held = source.next();
        ByDay { source, held }
    }

    /// How many of the seconds are on the day that begins at midnight. Those before its end are then used up. The number of
    /// the day's end must fit into an `i64`.
    pub fn count(&mut self, midnight: Sec) -> u32
        requires fits { (midnight.0 +ℤ pos day_seconds) <ℤ pos (2 ^ 63) }
        ensures count { IsCount (Holds self.old) midnight.0 day_seconds result }
        ensures later { (t : ℤ) → (midnight.0 +ℤ pos day_seconds) ≤ℤ t
            → Holds self.old t ↔ Holds self.new t }
        ensures few { result ≤ day_seconds }
    {
        count_day(&mut self.source, &mut self.held, midnight)
    }

    /// Takes the first span of the seconds on the day that begins at midnight, or finds that there is none. Seconds before
    /// this span are then used up, and so is the span. The number of the day's end must fit into an `i64`.
    pub fn next_on_day(&mut self, midnight: Sec) -> Option<Span>
        requires fits { (midnight.0 +ℤ pos day_seconds) <ℤ pos (2 ^ 63) }
        ensures takes { Takes (part_within (day_at midnight.0) self.old) result (part_within (day_at midnight.0) self.new) }
        ensures later { (t : ℤ) → (midnight.0 +ℤ pos day_seconds) ≤ℤ t
            → Holds self.old t ↔ Holds self.new t }
    {
        next_within(&mut self.source, &mut self.held, day_from(midnight))
    }
}
