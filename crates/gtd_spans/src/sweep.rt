//! Set operators without their sides.

ghost use Rattle.std.specs.Prelude.{◌≡◌, ◌≢◌, ◌≤◌, ◌+◌, ◌↔◌, ℤ, List, [], ◌∷◌, None, true};
ghost use Rattle.gtd_core.specs.Seconds.{Interval, Within};
ghost use Rattle.gtd_core.specs.Whole.{whole};
ghost use Rattle.gtd_core.specs.declared.domain.Op.TheVariants.{Minus};
ghost use Rattle.gtd_spans.specs.Normal.{Holds, IsNormal, Combined, combine};
ghost use Rattle.gtd_spans.specs.Alone.{TakesAway};
ghost use Rattle.gtd_spans.specs.facts.AloneProps.{TakesAway-prop};

use crate::bounds::Bounds;
use crate::merge::{Ask, Merge};
use gtd_core::{Horizon, Op, Sec, Span};

/// Which sides a sweep asks.
#[derive(Clone, Copy, Debug)]
pub(crate) enum Sides {
    Both,
    /// Only the left one, which is the right side of its merge.
    Left,
}

/// A set operator without its sides. It is told their spans one at a time, and holds at most three of them.
///
/// The caller keeps an order: after each [`Ask::Left`] or [`Ask::Right`], and before the next `step`, comes one `tell`
/// with the first span still to come of that side's normal list, or with `None` if that list is empty. Then `step`
/// gives, span by span, the normal list of what the operator makes of the two sides. In contracts `still` is the rest
/// of that list, by what the sides still give. A side that was told `None` is not asked again.
#[derive(Clone, Copy, Debug)]
pub struct Sweep {
    sides: Sides,
    merge: Merge,
    ghost takes_away: { TakesAway sides merge.op } by { TakesAway-prop _ _ },
}

impl Sweep {
    ghost use Rattle.gtd_spans.specs.declared.merge.Ask.TheVariants.{Left, Right};
    ghost use Rattle.gtd_spans.specs.Merging.{told_count};
    ghost use Rattle.gtd_spans.specs.Sweeping.{still, Fits, AwaitsLeft, AwaitsRight, HasOneSide, LeftEnded, RightEnded};
    ghost use Rattle.gtd_spans.specs.Sweeping.{Steps, TakesOffLeft, TellsLeft, TellsRight, unended_sides};
    ghost use Rattle.gtd_spans.specs.Sweeping.{IsLeftGiven, IsRightGiven, GivesLeft, GivesRight};
    ghost use Rattle.std.specs.Prelude.{IfSome};
    ghost use Rattle.gtd_spans.specs.Inside.{AllInside};
    ghost use Rattle.gtd_spans.specs.Skipping.{NeedsLeftFrom, NeedsRightFrom};

    /// The sweep of an operator over two sides, before any step.
    pub fn new(op: Op) -> Sweep
        ensures fits { (l r : List Interval) → IsNormal l → IsNormal r → Fits result l r }
        ensures meaning { (l r : List Interval) → still result l r ≡ combine op l r }
        ensures normal { (l r : List Interval) → IsNormal (still result l r) }
        ensures seconds { (l r : List Interval) (t : ℤ)
            → Holds (still result l r) t ↔ Combined op (Holds l t) (Holds r t) }
    {
        Sweep {
            sides: Sides::Both,
            merge: Merge::new(op),
        }
    }

    /// The sweep of the seconds of a horizon that are not in its one side, before any step. That side is the left: the
    /// right is never asked.
    pub fn outside(horizon: Horizon) -> Sweep
        ensures one_side { HasOneSide result }
        ensures fits { (l r : List Interval) → IsNormal l → Fits result l r }
        ensures meaning { (l r : List Interval)
            → still result l r ≡ combine Minus (whole horizon ∷ []) l }
        ensures normal { (l r : List Interval) → IsNormal (still result l r) }
        ensures seconds { (l r : List Interval) (t : ℤ)
            → Holds (still result l r) t ↔ (Within (whole horizon) t × (Holds l t → ⊥)) }
    {
        Sweep {
            sides: Sides::Left,
            merge: Merge::beside(horizon.whole()),
        }
    }

    /// What the sweep asks for, or has to give. `Give` takes the first span off what is still to come, `End` comes only
    /// if nothing is, and `Left` and `Right` change nothing.
    #[inline(always)]
    pub fn step(&mut self) -> Ask
        ensures steps { Steps self.old result self.new }
        ensures sides { HasOneSide self.new ↔ HasOneSide self.old }
        ensures left_ended { LeftEnded self.old → LeftEnded self.new }
        ensures right_ended { RightEnded self.old → RightEnded self.new }
        ensures never_right { HasOneSide self.old → result ≢ Right }
        ensures left_asked { LeftEnded self.old → result ≢ Left }
        ensures right_asked { RightEnded self.old → result ≢ Right }
        ensures count { unended_sides self.new ≤ unended_sides self.old }
    {
        match self.sides {
            Sides::Both => self.merge.step(),
            Sides::Left => self.merge.step_beside(),
        }
    }

    /// Whether a span, if the side that the last step asked for has it as its first, is also the next one of the result. Then it
    /// is handed out, and nothing is to be told. This is known of the left side of an intersection or difference.
    #[inline(always)]
    pub fn gives_left(&self, x: Span) -> bool
        ensures value { result ≡ true ↔ IsLeftGiven self.now x }
        ensures gives { result ≡ true → AwaitsLeft self.now → GivesLeft self.now x }
    {
        match self.sides {
            Sides::Both => self.merge.gives_left(x),
            Sides::Left => false,
        }
    }

    /// The same for the right side, of which it is known for an intersection.
    #[inline(always)]
    pub fn gives_right(&self, x: Span) -> bool
        ensures value { result ≡ true ↔ IsRightGiven self.now x }
        ensures gives { result ≡ true → AwaitsRight self.now → GivesRight self.now x }
    {
        match self.sides {
            Sides::Both => self.merge.gives_right(x),
            Sides::Left => false,
        }
    }

    /// The bounds inside of which each first span of the side that the last step asked for is the next one of the result as it is,
    /// if that is known of the left side. Such spans may be handed out one after another, and nothing is to be told.
    #[inline(always)]
    pub fn gives_left_within(&self) -> Option<Bounds>
        ensures gives { AwaitsLeft self.now → AllInside result (GivesLeft self.now) }
    {
        match self.sides {
            Sides::Both => self.merge.gives_left_within(),
            Sides::Left => None,
        }
    }

    /// The same for the right side.
    #[inline(always)]
    pub fn gives_right_within(&self) -> Option<Bounds>
        ensures gives { AwaitsRight self.now → AllInside result (GivesRight self.now) }
    {
        match self.sides {
            Sides::Both => self.merge.gives_right_within(),
            Sides::Left => None,
        }
    }

    /// The second up to which spans of the side that the last step asked for make no difference to what is still to come, if that
    /// is known of the left side.
    #[inline(always)]
    pub fn needs_left_from(&self) -> Option<Sec>
        ensures needs { AwaitsLeft self.now → IfSome result (λ second. NeedsLeftFrom self.now second.0) }
    {
        match self.sides {
            Sides::Both => self.merge.needs_left_from(),
            Sides::Left => None,
        }
    }

    /// The same for the right side.
    #[inline(always)]
    pub fn needs_right_from(&self) -> Option<Sec>
        ensures needs { AwaitsRight self.now → IfSome result (λ second. NeedsRightFrom self.now second.0) }
    {
        match self.sides {
            Sides::Both => self.merge.needs_right_from(),
            Sides::Left => None,
        }
    }

    /// Takes the first span off the side of a sweep that has one, which the last step asked for. Returns the next span of the
    /// result, if that comes before the span, and asks for the side again: nothing is to be told.
    #[inline(always)]
    pub fn gap_before(&mut self, x: Span) -> Option<Span>
        requires one_side { HasOneSide self.old }
        requires awaits { AwaitsLeft self.old }
        ensures one_side { HasOneSide self.new }
        ensures awaits { AwaitsLeft self.new }
        ensures gap { TakesOffLeft self.old x result self.new }
        ensures count { unended_sides self.new ≤ unended_sides self.old }
    {
        self.merge.gap_before(x)
    }

    /// Hands in the first span still to come of the side that the last step asked for, or `None` if it has none. What
    /// is still to come does not change.
    #[inline(always)]
    pub fn tell(&mut self, told: Option<Span>)
        ensures left { AwaitsLeft self.old → TellsLeft self.old told self.new }
        ensures right { AwaitsRight self.old → TellsRight self.old told self.new }
        ensures sides { HasOneSide self.new ↔ HasOneSide self.old }
        ensures left_ended { AwaitsLeft self.old → told ≡ None → LeftEnded self.new }
        ensures right_ended { AwaitsRight self.old → told ≡ None → RightEnded self.new }
        ensures keeps_left { AwaitsRight self.old → LeftEnded self.old → LeftEnded self.new }
        ensures keeps_right { AwaitsLeft self.old → RightEnded self.old → RightEnded self.new }
        ensures left_count { AwaitsLeft self.old
            → unended_sides self.new + 1 ≡ unended_sides self.old + told_count told }
        ensures right_count { AwaitsRight self.old
            → unended_sides self.new + 1 ≡ unended_sides self.old + told_count told }
    {
        self.merge.tell(told);
    }
}
