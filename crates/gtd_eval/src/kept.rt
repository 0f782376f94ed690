//! Cursors that keep the spans of a period, from which all later ones follow.

ghost use Rattle.std.specs.Prelude.{◌≤◌, ◌+◌, ◌*◌};
ghost use Rattle.gtd_eval.specs.Cursors.{cursor_list, cursor_whole, cursor_nodes};
ghost use Rattle.gtd_kept.specs.Kept.{FitsTree};
ghost use Rattle.gtd_kept.specs.facts.KeptProps.{FitsTree-prop};

use crate::cursor::Cursor;
use crate::leaf::Leaf;
use crate::node::Node;
use crate::period::period_of_all;
use crate::taker::SpanTaker;
use crate::tree::SweepTree;
use gtd_core::{Expr, Horizon, Sec, Span};
use gtd_kept::{Repeat, is_long, room_for};
use gtd_recur::{Period, Runs};
use gtd_spans::{Bounds, SpanSource};
use std::alloc::{AllocError, Global};

/// A cursor that repeats after a period, and its spans of a period: at most 4,096, and none if there would be more.
#[derive(Drop)]
pub struct KeptPeriod {
    pub(crate) inner: Cursor,
    pub(crate) again: Repeat,
    ghost kept: { FitsTree again (cursor_list inner) (cursor_whole inner) } by { FitsTree-prop again _ _ },
    ghost some: { 1 ≤ cursor_nodes inner },
    ghost room: { again.room ≤ 16 * (cursor_nodes inner + 1) },
}

impl KeptPeriod {
    ghost use Rattle.std.specs.Prelude.{◌≡◌, ◌≤◌, [], ◌∷◌, IfOk, IfSome, MatchOption};
    ghost use Rattle.gtd_core.specs.Limits.{most_basic_domains};
    ghost use Rattle.gtd_core.specs.Trees.{leaf_count, tree_of};
    ghost use Rattle.gtd_core.specs.Whole.{whole};
    ghost use Rattle.gtd_recur.specs.Periods.{period_seconds};
    ghost use Rattle.gtd_spans.specs.Inside.{IsInside};
    ghost use Rattle.gtd_spans.specs.Skipping.{LeavesOut};
    ghost use Rattle.gtd_spans.specs.Sweeping.{Takes};
    ghost use Rattle.gtd_eval.specs.Cursors.{cursor_list, cursor_size, cursor_whole, IsAtStart};
    ghost use Rattle.gtd_eval.specs.Exprs.{IsOfExpr};
    ghost use Rattle.gtd_kept.specs.Kept.{FitsTree, IsLapEnded, rest_of};
    ghost use Rattle.gtd_eval.specs.Within.{AreInside, IsReadyWithin, TakesWithin};
    ghost use Rattle.gtd_eval.specs.Keeping.{period_list, period_size, period_whole};
    ghost use Rattle.gtd_eval.specs.Periods.{AllRepeat};
    ghost use Rattle.gtd_kept.specs.Repeating.{AreKept, IsRepeating};
    ghost use Rattle.gtd_kept.specs.declared.repeat.Stage.TheVariants.{Learning};

    // The same cursor, of which no span is kept yet. If it has handed out spans, or if the horizon has fewer than three periods,
    // none will be.
    fn new(
        alloc: Global,
        inner: Cursor,
        period: Period,
        horizon: Horizon,
    ) -> Result<KeptPeriod, AllocError>
        requires kept { AreKept (period_seconds period) Learning (whole horizon).until [] (cursor_list inner) }
        ensures list { IfOk result (λ kept. period_list kept ≡ cursor_list inner) }
        ensures inner { IfOk result (λ kept. kept.inner ≡ inner) }
    {
        if !inner.moved && is_long(period, horizon) {
            let again = Repeat::new(alloc, period, horizon, room_for(inner.nodes()))?;
            return Ok(KeptPeriod { inner, again });
        }
        let again = Repeat::given_up(alloc, period, horizon);
        Ok(KeptPeriod { inner, again })
    }

    // The cursor of an expression that repeats after the period.
    fn of_expr(
        alloc: Global,
        expr: &Expr,
        period: Period,
        horizon: Horizon,
    ) -> Result<KeptPeriod, AllocError>
        requires few { leaf_count (tree_of expr.now) ≤ most_basic_domains }
        requires repeats { AllRepeat (period_seconds period) (tree_of expr.now) }
        ensures whole { IfOk result (λ kept. IsOfExpr expr.now horizon (period_list kept) (period_size kept)) }
        ensures start { IfOk result (λ kept. period_list kept ≡ period_whole kept) }
    {
        let inner = SweepTree::<Runs>::of_expr(alloc, expr, horizon)?;
        KeptPeriod::new(alloc, inner, period, horizon)
    }

    // The next span, of which not all spans of a period are kept yet.
    #[inline(never)]
    fn next_learnt(inner: &mut Cursor, again: &mut Repeat) -> Option<Span>
        requires learning { IsRepeating again.old.stage → ⊥ }
        requires kept { FitsTree again.old (cursor_list inner.old) (cursor_whole inner.old) }
        ensures kept { FitsTree again.new (cursor_list inner.new) (cursor_whole inner.new) }
        ensures takes { Takes (rest_of again.old (cursor_list inner.old)) result (rest_of again.new (cursor_list inner.new)) }
        ensures size { cursor_size inner.new ≡ cursor_size inner.old }
        ensures whole { cursor_whole inner.new ≡ cursor_whole inner.old }
        ensures room { again.new.room ≡ again.old.room }
    {
        match inner.next() {
            Some(span) => {
                again.keep(span);
                Some(span)
            }
            None => None,
        }
    }

    // The next span: from the kept spans, once all of a period are kept. That is nearly always so: such a span is then handed
    // out without a call.
    #[inline(always)]
    fn next_kept(inner: &mut Cursor, again: &mut Repeat) -> Option<Span>
        requires kept { FitsTree again.old (cursor_list inner.old) (cursor_whole inner.old) }
        ensures kept { FitsTree again.new (cursor_list inner.new) (cursor_whole inner.new) }
        ensures takes { Takes (rest_of again.old (cursor_list inner.old)) result (rest_of again.new (cursor_list inner.new)) }
        ensures size { cursor_size inner.new ≡ cursor_size inner.old }
        ensures whole { cursor_whole inner.new ≡ cursor_whole inner.old }
        ensures room { again.new.room ≡ again.old.room }
    {
        if again.is_repeating() {
            return KeptPeriod::next_repeated(inner, again);
        }
        KeptPeriod::next_learnt(inner, again)
    }

    // The next span, where all of a period are kept: after a new beginning, first those that came before they were.
    #[inline(always)]
    fn next_repeated(_inner: &Cursor, again: &mut Repeat) -> Option<Span>
        requires repeating { IsRepeating again.old.stage }
        requires kept { FitsTree again.old (cursor_list _inner.now) (cursor_whole _inner.now) }
        ensures kept { FitsTree again.new (cursor_list _inner.now) (cursor_whole _inner.now) }
        ensures takes { Takes (rest_of again.old (cursor_list _inner.now)) result (rest_of again.new (cursor_list _inner.now)) }
        ensures room { again.new.room ≡ again.old.room }
    {
        match again.next_again() {
            Some(span) => Some(span),
            None => again.turn(),
        }
    }

    // Leaves out the next spans that end by a second, where all of a period are kept and those before them were handed out.
    #[inline(always)]
    fn skip_to(_inner: &Cursor, again: &mut Repeat, second: Sec)
        requires kept { FitsTree again.old (cursor_list _inner.now) (cursor_whole _inner.now) }
        ensures kept { FitsTree again.new (cursor_list _inner.now) (cursor_whole _inner.now) }
        ensures leaves { LeavesOut second.0 (rest_of again.old (cursor_list _inner.now))
            (rest_of again.new (cursor_list _inner.now)) }
        ensures room { again.new.room ≡ again.old.room }
    {
        if again.is_repeating() && again.is_lap_ended() {
            again.skip_to(second);
        }
    }

    // The next of the kept spans, if it lies inside of bounds.
    #[inline(always)]
    fn next_within(_inner: &Cursor, again: &mut Repeat, bounds: Bounds) -> Option<Span>
        requires repeating { IsRepeating again.old.stage }
        requires ended { IsLapEnded again.old }
        requires kept { FitsTree again.old (cursor_list _inner.now) (cursor_whole _inner.now) }
        ensures kept { FitsTree again.new (cursor_list _inner.now) (cursor_whole _inner.now) }
        ensures takes { MatchOption result
            (rest_of again.new (cursor_list _inner.now) ≡ rest_of again.old (cursor_list _inner.now))
            (λ x. rest_of again.old (cursor_list _inner.now) ≡ x ∷ rest_of again.new (cursor_list _inner.now)) }
        ensures inside { IfSome result (IsInside bounds) }
        ensures repeating { IsRepeating again.new.stage }
        ensures ended { IsLapEnded again.new }
        ensures room { again.new.room ≡ again.old.room }
    {
        again.turn_within(bounds)
    }

    // Hands on kept spans as long as they lie inside of bounds, once all of a period are kept and those before them were handed
    // out.
    #[inline(always)]
    fn each_kept<E, T: SpanTaker<E>>(
        inner: &Cursor,
        again: &mut Repeat,
        bounds: Bounds,
        into: &mut E,
        taker: &mut T,
    ) -> bool
        requires kept { FitsTree again.old (cursor_list inner.now) (cursor_whole inner.now) }
        requires ready { IsReadyWithin T.is_ready (AreInside bounds) (rest_of again.old (cursor_list inner.now)) into.old taker.old }
        ensures kept { FitsTree again.new (cursor_list inner.now) (cursor_whole inner.now) }
        ensures takes { TakesWithin T.is_ready T.takes (AreInside bounds) (rest_of again.old (cursor_list inner.now))
            into.old taker.old (rest_of again.new (cursor_list inner.now)) into.new taker.new result }
        ensures room { again.new.room ≡ again.old.room }
    {
        if !again.is_repeating() || !again.is_lap_ended() {
            return true;
        }
        while let Some(x) = KeptPeriod::next_within(inner, again, bounds) {
            if !taker.take(into, x) {
                return false;
            }
        }
        true
    }

    // Begins again with the first span. Kept spans are kept on; if not all of a period are, none will be.
    fn begin_again(inner: &mut Cursor, again: &mut Repeat)
        requires kept { FitsTree again.old (cursor_list inner.old) (cursor_whole inner.old) }
        ensures kept { FitsTree again.new (cursor_list inner.new) (cursor_whole inner.new) }
        ensures list { rest_of again.new (cursor_list inner.new) ≡ cursor_whole inner.old }
        ensures size { cursor_size inner.new ≡ cursor_size inner.old }
        ensures whole { cursor_whole inner.new ≡ cursor_whole inner.old }
        ensures room { again.new.room ≡ again.old.room }
    {
        if again.is_repeating() {
            again.begin_again();
            return;
        }
        inner.begin_again();
        again.give_up();
    }
}

/// A leaf of a cursor that keeps spans: the runs of a basic domain, or a whole cursor with its kept period.
#[derive(Drop)]
pub enum Part {
    /// The runs of a basic domain.
    Basic(Runs),
    /// A cursor that repeats, and its spans of a period.
    Repeating(KeptPeriod),
}

/// A cursor that hands out the same spans as a [`Cursor`]. Of each largest part that repeats after a minute, an hour, a day or a
/// week, it keeps the spans of such a period, at most 4,096, and hands them out again, each a period later. A period with more
/// spans keeps none. Once made, it takes no memory.
pub type KeptCursor = SweepTree<Part>;

impl Leaf for Part {
    ghost use Rattle.gtd_eval.specs.Keeping.{part_list, part_whole, part_size, part_ticks, part_kept, part_told};
    ghost use Rattle.gtd_eval.specs.facts.PartFacts.{part-normal, part-whole-normal, part-small, part-few};
    ghost use Rattle.gtd_eval.specs.facts.PartFacts.{part-kept-few, part-kept-by-nodes, part-told-few};

    ghost leaf_list = { part_list };

    ghost leaf_whole = { part_whole };

    ghost leaf_size = { part_size };

    ghost leaf_ticks = { part_ticks };

    ghost leaf_kept = { part_kept };

    ghost leaf_told = { part_told };

    fn of_expr(alloc: Global, expr: &Expr, horizon: Horizon) -> Result<Option<Part>, AllocError> {
        if let Some(period) = period_of_all(expr) {
            if is_long(period, horizon) {
                let kept = KeptPeriod::of_expr(alloc, expr, period, horizon)?;
                return Ok(Some(Part::Repeating(kept)));
            }
        }
        match expr {
            Expr::Leaf(basic) => Ok(Some(Part::Basic(Runs::new(*basic, horizon)))),
            Expr::Join(..) => Ok(None),
        }
    }

    #[inline(always)]
    fn next_span(&mut self) -> Option<Span> {
        match self {
            Part::Basic(runs) => runs.next(),
            Part::Repeating(kept) => KeptPeriod::next_kept(&mut kept.inner, &mut kept.again),
        }
    }

    #[inline(always)]
    fn skip_to(&mut self, second: Sec) {
        match self {
            Part::Basic(_) => {}
            Part::Repeating(kept) => KeptPeriod::skip_to(&kept.inner, &mut kept.again, second),
        }
    }

    #[inline(always)]
    fn each_within<E, T: SpanTaker<E>>(
        &mut self,
        bounds: Bounds,
        into: &mut E,
        taker: &mut T,
    ) -> bool {
        match self {
            Part::Basic(_) => true,
            Part::Repeating(kept) => KeptPeriod::each_kept(
                &kept.inner,
                &mut kept.again,
                bounds,
                into,
                taker,
            ),
        }
    }

    fn begin_again(&mut self) {
        match self {
            Part::Basic(runs) => runs.begin_again(),
            Part::Repeating(kept) => KeptPeriod::begin_again(&mut kept.inner, &mut kept.again),
        }
    }

    fn nodes(&self) -> u64 {
        match self {
            Part::Basic(_) => 1,
            Part::Repeating(kept) => kept.inner.nodes(),
        }
    }

    fn ticks(&self) -> u64 {
        match self {
            Part::Basic(runs) => runs.ticks(),
            Part::Repeating(kept) => kept.inner.ticks(),
        }
    }

    fn kept(&self) -> u64 {
        match self {
            Part::Basic(_) => 0,
            Part::Repeating(kept) => kept.again.count() as u64,
        }
    }

    ghost is_normal = { part-normal };

    ghost is_whole_normal = { part-whole-normal };

    ghost is_small = { part-small };

    ghost keeps_few = { part-kept-few };

    ghost keeps_by_nodes = { part-kept-by-nodes };

    ghost tells_few = { part-told-few };

    ghost has_few = { part-few };
}

impl SweepTree<Part> {
    ghost use Rattle.std.specs.Prelude.{◌≡◌, ◌↔◌, ◌+ℤ◌, ℤ, IfOk};
    ghost use Rattle.gtd_core.specs.Seconds.{Within};
    ghost use Rattle.gtd_core.specs.Whole.{whole};
    ghost use Rattle.gtd_recur.specs.Periods.{period_seconds};
    ghost use Rattle.gtd_spans.specs.Normal.{Holds};
    ghost use Rattle.gtd_eval.specs.Cursors.{cursor_list, cursor_nodes, cursor_height, cursor_work, IsAtStart};

    /// The cursor that keeps the spans of a period of another cursor. The seconds that that one still hands out must be in the
    /// horizon, and repeat after the period as far as the horizon reaches. If there are more spans in a period than there is
    /// room for, if the horizon has fewer than three periods, or if the cursor may have handed out a span already, it finds each
    /// span anew. After a refusal of memory the cursor is gone.
    pub fn repeating(
        alloc: Global,
        cursor: Cursor,
        period: Period,
        horizon: Horizon,
    ) -> Result<KeptCursor, AllocError>
        requires inside { (t : ℤ) → Holds (cursor_list cursor) t → Within (whole horizon) t }
        requires repeats { (t : ℤ) → Within (whole horizon) t → Within (whole horizon) (t +ℤ period_seconds period)
            → Holds (cursor_list cursor) t ↔ Holds (cursor_list cursor) (t +ℤ period_seconds period) }
        ensures list { IfOk result (λ c. cursor_list c ≡ cursor_list cursor) }
        ensures nodes { IfOk result (λ c. cursor_nodes c ≡ cursor_nodes cursor) }
        ensures height { IfOk result (λ c. cursor_height c ≡ cursor_height cursor) }
        ensures work { IfOk result (λ c. cursor_work c ≡ cursor_work cursor) }
        ensures start { IsAtStart cursor → IfOk result IsAtStart }
    {
        let moved = cursor.moved;
        let kept = KeptPeriod::new(alloc, cursor, period, horizon)?;
        let leaf = Box::new(alloc, Part::Repeating(kept))?;
        Ok(SweepTree {
            node: Node::Leaf(leaf),
            moved,
        })
    }
}
