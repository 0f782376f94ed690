//! The cursors of the records that close an element.

ghost use Rattle.std.specs.Prelude.{◌≡◌, ◌≤◌, ◌<◌, ◌+◌, ◌↔◌, ℤ, IfOk, vec_len};
ghost use Rattle.gtd_core.specs.Limits.{most_nodes};
ghost use Rattle.gtd_core.specs.Seconds.{Within};
ghost use Rattle.gtd_core.specs.Whole.{whole};
ghost use Rattle.gtd_eval.specs.Cursors.{AllAtStart, IsAtStart, SomeHolds};
ghost use Rattle.gtd_eval.specs.Cursors.{cursor_list, cursor_nodes, total_nodes};
ghost use Rattle.gtd_records.specs.ClosingCursors.{RepeatIn};
ghost use Rattle.gtd_spans.specs.Normal.{Holds, IsNormal};

use crate::record::Record;
use gtd_core::Horizon;
use gtd_eval::{Cursor, KeptCursor, Period};
use std::alloc::{AllocError, Global};

/// The cursors, over a horizon, of records that close an element. What those leave open that repeat is kept for a period of
/// them all, so that a span of it passes one sweep at most.
#[derive(Drop)]
pub(crate) struct ClosingCursors {
    /// Those of the records that repeat.
    pub(crate) repeating: Vec<Cursor>,
    /// The longest period of these.
    pub(crate) period: Period,
    /// Those of the other records.
    pub(crate) others: Vec<KeptCursor>,
}

// The seconds of the horizon that are in none of the cursors, which repeat after a period.
fn gaps_of(
    alloc: Global,
    repeating: Vec<Cursor>,
    period: Period,
    horizon: Horizon,
) -> Result<KeptCursor, AllocError>
    requires some { 0 < vec_len repeating }
    requires few { total_nodes repeating.items + vec_len repeating ≤ most_nodes }
    requires repeats { RepeatIn horizon period repeating.items }
    ensures seconds { IfOk result (λ c. (t : ℤ) → Holds (cursor_list c) t
        ↔ (Within (whole horizon) t × (SomeHolds repeating.items t → ⊥))) }
    ensures normal { IfOk result (λ c. IsNormal (cursor_list c)) }
    ensures nodes { IfOk result (λ c. cursor_nodes c ≡ total_nodes repeating.items + vec_len repeating) }
    ensures start { AllAtStart repeating.items → IfOk result IsAtStart }
{
    let closed = Cursor::any(alloc, repeating, horizon)?;
    let gaps = Cursor::outside(alloc, closed, horizon)?;
    KeptCursor::repeating(alloc, gaps, period, horizon)
}

impl ClosingCursors {
    ghost use Rattle.std.specs.Prelude.{◌≡◌, ◌≤◌, ◌+◌, ◌↔◌, ◌⊎◌, ℤ, IfOk, OnOk};
    ghost use Rattle.gtd_core.specs.Limits.{most_nodes};
    ghost use Rattle.gtd_core.specs.Seconds.{Within};
    ghost use Rattle.gtd_core.specs.Whole.{whole};
    ghost use Rattle.gtd_eval.specs.Cursors.{cursor_list, IsAtStart};
    ghost use Rattle.gtd_records.specs.Closing.{HoldsAt};
    ghost use Rattle.gtd_records.specs.ClosingCursors.{AddsRepeating, AreAtStart, HasSecond, RepeatIn, nodes_with_cursors};
    ghost use Rattle.gtd_spans.specs.Normal.{Holds, IsNormal};

    // No cursors.
    pub(crate) fn none(alloc: Global) -> ClosingCursors
        ensures nodes { nodes_with_cursors result ≡ 0 }
        ensures seconds { (t : ℤ) → HasSecond result t → ⊥ }
        ensures repeats { (horizon : Horizon) → RepeatIn horizon result.period result.repeating.items }
        ensures start { AreAtStart result }
    {
        ClosingCursors {
            repeating: Vec::new(alloc),
            period: Period::Minute,
            others: Vec::new(alloc),
        }
    }

    // Adds the cursor of a record.
    pub(crate) fn add(
        &mut self,
        alloc: Global,
        record: &Record,
        horizon: Horizon,
    ) -> Result<(), AllocError>
        ensures nodes { OnOk result (nodes_with_cursors self.new ≤ nodes_with_cursors self.old + 256) }
        ensures seconds { OnOk result ((t : ℤ) → HasSecond self.new t
            ↔ (HasSecond self.old t ⊎ (Within (whole horizon) t × HoldsAt record.now.domain t))) }
        ensures repeats { OnOk result (RepeatIn horizon self.old.period self.old.repeating.items
            → RepeatIn horizon self.new.period self.new.repeating.items) }
        ensures again { OnOk result (AddsRepeating (HoldsAt record.now.domain) self.old self.new) }
        ensures start { OnOk result (AreAtStart self.old → AreAtStart self.new) }
    {
        let Some(period) = record.period() else {
            let cursor = record.cursor(alloc, horizon)?;
            self.others.push(cursor)?;
            return Ok(());
        };
        let cursor = record.cursor(alloc, horizon)?;
        self.repeating.push(cursor)?;
        self.period = self.period.longer(period);
        Ok(())
    }

    // The seconds of the horizon that are in none of the cursors.
    pub(crate) fn outside(self, alloc: Global, horizon: Horizon) -> Result<KeptCursor, AllocError>
        requires few { nodes_with_cursors self ≤ most_nodes }
        requires repeats { RepeatIn horizon self.period self.repeating.items }
        ensures seconds { IfOk result (λ c. (t : ℤ) → Holds (cursor_list c) t
            ↔ (Within (whole horizon) t × (HasSecond self t → ⊥))) }
        ensures normal { IfOk result (λ c. IsNormal (cursor_list c)) }
        ensures start { AreAtStart self → IfOk result IsAtStart }
    {
        let ClosingCursors {
            repeating,
            period,
            others,
        } = self;
        if repeating.is_empty() {
            let closed = KeptCursor::any(alloc, others, horizon)?;
            return KeptCursor::outside(alloc, closed, horizon);
        }
        let gaps = gaps_of(alloc, repeating, period, horizon)?;
        if others.is_empty() {
            return Ok(gaps);
        }
        let closed = KeptCursor::any(alloc, others, horizon)?;
        KeptCursor::without(alloc, gaps, closed)
    }
}
