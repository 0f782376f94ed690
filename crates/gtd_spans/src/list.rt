//! Normal lists of spans.

ghost use Rattle.std.specs.Prelude.{◌≡◌, ◌⊎◌, ◌↔◌, ◌<◌, ◌≤◌, ◌++◌, ℤ, [], ◌∷◌, length};
ghost use Rattle.std.specs.Prelude.{OnOk, OnErr, IfOk, IsOk, IsTrue, IsFalse, MatchOption};
ghost use Rattle.gtd_spans.specs.Change.{NeverChanges, IsNextChange};
ghost use Rattle.gtd_core.specs.Seconds.{Within};
ghost use Rattle.gtd_core.specs.Whole.{whole};
ghost use Rattle.gtd_spans.specs.Normal.{Holds, IsNormal};
ghost use Rattle.gtd_spans.specs.Pushing.{NoneBeginsAfter, SomeReaches, AllEndBefore};
ghost use Rattle.gtd_spans.specs.facts.FitsProp.{IsNormal-prop};

use crate::source::{SpanSource, next_change};
use gtd_core::{Horizon, Sec, Span};
use std::alloc::{AllocError, Global};
use std::marker::Model;

/// A set of seconds as its normal list of spans. In contracts it is that list, of `Interval`s.
#[derive(Drop)]
pub struct SpanList {
    spans: Vec<Span>,
}

impl Model for SpanList {
    ghost use Rattle.std.specs.Prelude.{List};
    ghost use Rattle.gtd_core.specs.Seconds.{Interval};
    ghost use Rattle.gtd_spans.specs.Normal.{IsNormal};

    ghost Value = { List Interval };

    ghost view = { λ a. a.spans.items };

    ghost invariant = { λ a. IsNormal a.spans.items };
}

impl SpanList {
    /// The list of no span. It takes no memory yet.
    pub fn new(alloc: Global) -> SpanList
        ensures value { result ≡ [] }
    {
        SpanList {
            spans: Vec::new(alloc),
        }
    }

    /// The spans, in order.
    pub fn spans(&self) -> &[Span]
        ensures value { result.now ≡ self.now }
        ensures normal { IsNormal self.now }
    {
        self.spans.as_slice()
    }

    /// Adds the seconds of a span, which must not begin before the last one of the list. Where it ends does not matter.
    ///
    /// A span that begins at or before the end of the last one is joined to it; this takes no memory and succeeds.
    /// After a refusal of memory the list is as it was.
    pub fn push_start(&mut self, x: Span) -> Result<(), AllocError>
        requires order { NoneBeginsAfter x.from self.old }
        ensures seconds { OnOk result
            ((t : ℤ) → Holds self.new t ↔ (Holds self.old t ⊎ Within x t)) }
        ensures normal { IsNormal self.new }
        ensures unchanged { OnErr result (self.new ≡ self.old) }
        ensures joins { SomeReaches x.from self.old → IsOk result }
        ensures order { OnOk result (NoneBeginsAfter x.from self.new) }
    {
        if self.reaches(x.from()) {
            self.join(x);
            return Ok(());
        }
        self.spans.push(x)?;
        Ok(())
    }

    /// Whether the last span reaches the second or ends at it.
    fn reaches(&self, second: Sec) -> bool
        ensures yes { IsTrue result → SomeReaches second.0 self.now }
        ensures no { IsFalse result → AllEndBefore second.0 self.now }
    {
        match self.spans.last() {
            Some(last) => second <= last.until(),
            None => false,
        }
    }

    /// Adds the seconds of a span that begins within the last one or at its end.
    fn join(&mut self, x: Span)
        requires order { NoneBeginsAfter x.from self.old }
        requires reaches { SomeReaches x.from self.old }
        ensures normal { IsNormal self.new }
        ensures seconds { (t : ℤ) → Holds self.new t ↔ (Holds self.old t ⊎ Within x t) }
        ensures order { NoneBeginsAfter x.from self.new }
    {
        let at = self.spans.len() - 1;
        let last = self.spans[at];
        if x.until() <= last.until() {
            return;
        }
        self.spans[at] = last.until_later(x.until());
    }

    /// Whether the list holds the second.
    pub fn contains(&self, second: Sec) -> bool
        ensures member { IsTrue result ↔ Holds self.now second.0 }
    {
        for x in &self.spans {
            if x.contains(second) {
                return true;
            }
        }
        false
    }

    /// The least later second of the horizon at which membership differs from that at the given one, or `None` exactly
    /// if there is none. The second and the list must be in the horizon.
    pub fn next_change(&self, second: Sec, horizon: Horizon) -> Option<Sec>
        requires second { Within (whole horizon) second.0 }
        requires spans { (t : ℤ) → Holds self.now t → Within (whole horizon) t }
        ensures change { MatchOption result
            (NeverChanges (Holds self.now) second.0 (whole horizon).until)
            (λ c. IsNextChange (Holds self.now) second.0 (whole horizon).until c.0) }
    {
        next_change(&mut self.source(), second, horizon.until())
    }
}

/// The spans of a list that are still to come, without a copy.
#[derive(Drop)]
pub struct Listed<'a> {
    pub(crate) spans: &'a [Span],
    ghost normal: { IsNormal spans.now } by { IsNormal-prop spans.now },
}

impl SpanSource for Listed<'_> {
    ghost rest = { λ s. s.spans.now };

    fn next(&mut self) -> Option<Span> {
        let (first, rest) = self.spans.split_first()?;
        self.spans = rest;
        Some(*first)
    }

    ghost is_normal = { λ s. s.normal };
}

impl SpanList {
    /// The spans, one after the other. Takes no memory.
    pub fn source<'a>(&'a self) -> Listed<'a>
        ensures value { ⟦<Listed<'a> as SpanSource>⟧.rest result ≡ self.now }
    {
        Listed {
            spans: self.spans(),
        }
    }

    /// Adds a span that begins after the end of the last one.
    fn push_beyond(&mut self, x: Span) -> Result<(), AllocError>
        requires beyond { AllEndBefore x.from self.old }
        ensures pushed { OnOk result (self.new ≡ self.old ++ x ∷ []) }
    {
        let _ = x.from();
        self.spans.push(x)?;
        Ok(())
    }

    /// The list of the spans that a source still has to give, which are then used up.
    pub fn collect<S: SpanSource>(alloc: Global, source: &mut S) -> Result<SpanList, AllocError>
        ensures list { IfOk result (λ r. r ≡ S.rest source.old) }
    {
        let mut list = SpanList::new(alloc);
        while let Some(x) = source.next() {
            list.push_beyond(x)?;
        }
        Ok(list)
    }

    /// The list of the spans that a source still has to give, or `None` exactly if there are more than so many. What was
    /// given to find this out is used up.
    pub fn collect_within<S: SpanSource>(
        alloc: Global,
        source: &mut S,
        most: usize,
    ) -> Result<Option<SpanList>, AllocError>
        ensures list { IfOk result (λ found. MatchOption found (most < length (S.rest source.old))
            (λ r. (r ≡ S.rest source.old) × (length (S.rest source.old) ≤ most))) }
    {
        let mut list = SpanList::new(alloc);
        while let Some(span) = source.next() {
            if list.spans.len() == most {
                return Ok(None);
            }
            list.push_beyond(span)?;
        }
        Ok(Some(list))
    }
}
