//! The merge of two sorted sides under a sweep.

ghost use Rattle.std.specs.Prelude.{◌≡◌, ◌≢◌, ◌⊎◌, ◌↔◌, ◌<ℤ◌, ◌≤ℤ◌, ℤ, ◌+◌, List, IfSome, true};
ghost use Rattle.gtd_core.specs.Seconds.{Interval, Within};
ghost use Rattle.gtd_core.specs.declared.domain.Op.TheVariants.{Union, Meet, Minus};
ghost use Rattle.gtd_spans.specs.Normal.{Holds, IsNormal, combine};
ghost use Rattle.gtd_spans.specs.Merging.{listed, side_list, AllBeginFrom, Fits, still, AwaitsLeft, AwaitsRight, Steps};
ghost use Rattle.gtd_spans.specs.Merging.{SameEnded, TellsLeft, TellsRight, GivesLeft, GivesRight, unended_sides, told_count};

use crate::bounds::Bounds;
use gtd_core::{Op, Sec, Span};

/// What is known of one side of an operator.
#[derive(Clone, Copy, Debug)]
pub(crate) enum Side {
    /// Its next span is not known.
    Open,
    /// Its next span.
    Held(Span),
    /// It has no more spans.
    Ended,
}

impl Side {
    ghost use Rattle.gtd_spans.specs.Inside.{AllInside};
    ghost use Rattle.gtd_spans.specs.Merging.{ComesFirst, Covers, ComesBehind};
    ghost use Rattle.gtd_spans.specs.declared.merge.Side.TheVariants.{Held};

    /// A side that was told its next span, or that it has none.
    #[inline(always)]
    fn told(told: Option<Span>) -> Side
        ensures comes { ComesFirst told result }
    {
        match told {
            Some(x) => Side::Held(x),
            None => Side::Ended,
        }
    }

    /// Whether it has a next span, and that contains the whole of another one.
    #[inline(always)]
    fn covers(self, x: Span) -> bool
        ensures value { result ≡ true ↔ Covers self x }
    {
        match self {
            Side::Held(y) => y.from() <= x.from() && x.until() <= y.until(),
            Side::Open | Side::Ended => false,
        }
    }

    /// The bounds inside of which it covers every span: those of its next one.
    #[inline(always)]
    fn covered(self) -> Option<Bounds>
        ensures covered { AllInside result (Covers self) }
    {
        match self {
            Side::Held(y) => Some(Bounds {
                from: y.from(),
                until: y.until(),
            }),
            Side::Open | Side::Ended => None,
        }
    }

    /// The bounds inside of which every span ends before all that it still has, if that is known.
    #[inline(always)]
    fn earlier(self) -> Option<Bounds>
        ensures earlier { AllInside result (ComesBehind self) }
    {
        match self {
            Side::Held(y) => Some(Bounds {
                from: Sec(i64::MIN),
                until: y.from(),
            }),
            Side::Ended => Some(Bounds::ALL),
            Side::Open => None,
        }
    }

    /// Where its next span begins, if that is known.
    #[inline(always)]
    fn begins(self) -> Option<Sec>
        ensures begins { IfSome result (λ second. (x : Interval) × (self ≡ Held x) × (second.0 ≡ x.from)) }
    {
        match self {
            Side::Held(x) => Some(x.from()),
            Side::Open | Side::Ended => None,
        }
    }

    /// Whether it is known that it has no seconds before a span ends.
    #[inline(always)]
    fn comes_behind(self, x: Span) -> bool
        ensures value { result ≡ true ↔ ComesBehind self x }
    {
        match self {
            Side::Held(y) => x.until() <= y.from(),
            Side::Ended => true,
            Side::Open => false,
        }
    }
}

/// What a sweep asks for, or has to give.
#[derive(Clone, Copy, Debug, PartialEq, Eq)]
pub enum Ask {
    /// It is to be told the first span still to come of its left side.
    Left,
    /// It is to be told the first span still to come of its right side.
    Right,
    /// The next span of the result.
    Give(Span),
    /// The result has no more spans.
    End,
}

/// A set operator over two sides. A union keeps its latest span back until it is known that neither side still reaches
/// it.
#[derive(Clone, Copy, Debug)]
pub(crate) struct Merge {
    op: Op,
    left: Side,
    right: Side,
    kept: Option<Span>,
}

/// What is handed out and what is kept back when `next` comes after `kept`.
#[inline(always)]
fn joined(kept: Option<Span>, next: Span) -> (Option<Span>, Span)
    ensures seconds { IfSome kept (λ k. k.from ≤ℤ next.from) → (t : ℤ) →
        (Holds (listed kept) t ⊎ Within next t) ↔ (Holds (listed result.0) t ⊎ Within result.1 t) }
    ensures gap { IfSome result.0 (λ g. (g.from <ℤ g.until) × (g.until <ℤ result.1.from)) }
    ensures begins { IfSome kept (λ k. k.from ≤ℤ next.from) → result.1.from ≤ℤ next.from }
    ensures not_empty { result.1.from <ℤ result.1.until }
{
    let Some(kept) = kept else {
        return (None, next);
    };
    if next.from() > kept.until() {
        return (Some(kept), next);
    }
    if next.until() > kept.until() {
        (None, kept.until_later(next.until()))
    } else {
        (None, kept)
    }
}

impl Merge {
    ghost use Rattle.gtd_spans.specs.declared.merge.Side.TheVariants.{Open, Held, Ended};
    ghost use Rattle.gtd_spans.specs.Inside.{AllInside};
    ghost use Rattle.gtd_spans.specs.Merging.{IsLeftGiven, IsRightGiven};
    ghost use Rattle.gtd_spans.specs.Skipping.{MergeNeedsLeftFrom, MergeNeedsRightFrom};

    /// The merge of an operator, before any step.
    pub fn new(op: Op) -> Merge
        ensures op { result.op ≡ op }
        ensures fits { (l r : List Interval) → IsNormal l → IsNormal r → Fits result l r }
        ensures meaning { (l r : List Interval) → still result l r ≡ combine op l r }
    {
        Merge {
            op,
            left: Side::Open,
            right: Side::Open,
            kept: None,
        }
    }

    /// What the merge asks for, or has to give.
    #[inline(always)]
    pub fn step(&mut self) -> Ask
        ensures op { self.new.op ≡ self.old.op }
        ensures steps { Steps self.old result self.new }
        ensures ended { SameEnded self.old self.new }
    {
        match self.op {
            Op::Union => self.step_union(),
            Op::Meet => self.step_meet(),
            Op::Minus => self.step_minus(),
        }
    }

    /// Whether the first span of the left side, which the last step asked for, is the next one of the result as it is. Then it
    /// is given, and nothing is to be told.
    #[inline(always)]
    pub fn gives_left(&self, x: Span) -> bool
        ensures value { result ≡ true ↔ IsLeftGiven self.now x }
        ensures gives { result ≡ true → AwaitsLeft self.now → GivesLeft self.now x }
    {
        let right = self.right;
        match self.op {
            Op::Union => false,
            Op::Meet => right.covers(x),
            Op::Minus => right.comes_behind(x),
        }
    }

    /// The same for the right side: only an intersection gives a span of it.
    #[inline(always)]
    pub fn gives_right(&self, x: Span) -> bool
        ensures value { result ≡ true ↔ IsRightGiven self.now x }
        ensures gives { result ≡ true → AwaitsRight self.now → GivesRight self.now x }
    {
        let left = self.left;
        match self.op {
            Op::Meet => left.covers(x),
            Op::Union | Op::Minus => false,
        }
    }

    /// The bounds inside of which each first span of the left side, which the last step asked for, is the next one of the result as
    /// it is.
    #[inline(always)]
    pub fn gives_left_within(&self) -> Option<Bounds>
        ensures gives { AwaitsLeft self.now → AllInside result (GivesLeft self.now) }
    {
        let right = self.right;
        match self.op {
            Op::Union => None,
            Op::Meet => right.covered(),
            Op::Minus => right.earlier(),
        }
    }

    /// The same for the right side.
    #[inline(always)]
    pub fn gives_right_within(&self) -> Option<Bounds>
        ensures gives { AwaitsRight self.now → AllInside result (GivesRight self.now) }
    {
        let left = self.left;
        match self.op {
            Op::Meet => left.covered(),
            Op::Union | Op::Minus => None,
        }
    }

    /// The second up to which spans of the left side, which the last step asked for, make no difference: where the right side of an
    /// intersection has nothing earlier.
    #[inline(always)]
    pub fn needs_left_from(&self) -> Option<Sec>
        ensures needs { AwaitsLeft self.now → IfSome result (λ second. MergeNeedsLeftFrom self.now second.0) }
    {
        let right = self.right;
        match self.op {
            Op::Meet => right.begins(),
            Op::Union | Op::Minus => None,
        }
    }

    /// The same for the right side: where the left side of an intersection or a difference has nothing earlier.
    #[inline(always)]
    pub fn needs_right_from(&self) -> Option<Sec>
        ensures needs { AwaitsRight self.now → IfSome result (λ second. MergeNeedsRightFrom self.now second.0) }
    {
        let left = self.left;
        match self.op {
            Op::Meet | Op::Minus => left.begins(),
            Op::Union => None,
        }
    }

    /// Gives the side that the last step asked for its first span, or `None` if it has none.
    #[inline(always)]
    pub fn tell(&mut self, told: Option<Span>)
        ensures op { self.new.op ≡ self.old.op }
        ensures left { AwaitsLeft self.old → TellsLeft self.old told self.new }
        ensures right { AwaitsRight self.old → TellsRight self.old told self.new }
        ensures left_count { AwaitsLeft self.old
            → unended_sides self.new + 1 ≡ unended_sides self.old + told_count told }
        ensures left_ended { AwaitsLeft self.old → told ≡ None → self.new.left ≡ Ended }
        ensures right_ended { AwaitsRight self.old → told ≡ None → self.new.right ≡ Ended }
        ensures keeps_left { AwaitsRight self.old → self.new.left ≡ self.old.left }
        ensures keeps_right { AwaitsLeft self.old → self.new.right ≡ self.old.right }
        ensures right_count { AwaitsRight self.old
            → unended_sides self.new + 1 ≡ unended_sides self.old + told_count told }
    {
        let told = Side::told(told);
        let left = self.left;
        match left {
            Side::Open => self.left = told,
            Side::Held(_) | Side::Ended => self.right = told,
        }
    }

    /// The next step of a union.
    #[inline(always)]
    fn step_union(&mut self) -> Ask
        requires op { self.old.op ≡ Union }
        ensures op { self.new.op ≡ Union }
        ensures steps { Steps self.old result self.new }
        ensures ended { SameEnded self.old self.new }
    {
        let (left, right) = (self.left, self.right);
        match left {
            Side::Open => Ask::Left,
            Side::Held(x) => match right {
                Side::Open => Ask::Right,
                Side::Held(y) => {
                    if y.from() < x.from() {
                        self.take_right(y)
                    } else {
                        self.take_left(x)
                    }
                }
                Side::Ended => self.take_left(x),
            },
            Side::Ended => match right {
                Side::Open => Ask::Right,
                Side::Held(y) => self.take_right(y),
                Side::Ended => self.take_kept(),
            },
        }
    }

    /// What is kept back, once both sides have ended.
    #[inline(always)]
    fn take_kept(&mut self) -> Ask
        requires op { self.old.op ≡ Union }
        requires left { self.old.left ≡ Ended }
        requires right { self.old.right ≡ Ended }
        ensures op { self.new.op ≡ Union }
        ensures steps { Steps self.old result self.new }
        ensures ended { SameEnded self.old self.new }
    {
        match self.kept.take() {
            Some(x) => Ask::Give(x),
            None => Ask::End,
        }
    }

    /// Takes the left span, which begins no later than the right one.
    #[inline(always)]
    fn take_left(&mut self, x: Span) -> Ask
        requires op { self.old.op ≡ Union }
        requires held { self.old.left ≡ Held x }
        requires other { self.old.right ≢ Open }
        requires first { (l r : List Interval) → Fits self.old l r
            → AllBeginFrom x.from (side_list self.old.right r) }
        ensures op { self.new.op ≡ Union }
        ensures steps { Steps self.old result self.new }
        ensures ended { SameEnded self.old self.new }
    {
        let (given, kept) = joined(self.kept, x);
        self.kept = Some(kept);
        self.left = Side::Open;
        match given {
            Some(given) => Ask::Give(given),
            None => Ask::Left,
        }
    }

    /// Takes the right span, which begins no later than the left one.
    #[inline(always)]
    fn take_right(&mut self, x: Span) -> Ask
        requires op { self.old.op ≡ Union }
        requires other { self.old.left ≢ Open }
        requires held { self.old.right ≡ Held x }
        requires first { (l r : List Interval) → Fits self.old l r
            → AllBeginFrom x.from (side_list self.old.left l) }
        ensures op { self.new.op ≡ Union }
        ensures steps { Steps self.old result self.new }
        ensures ended { SameEnded self.old self.new }
    {
        let (given, kept) = joined(self.kept, x);
        self.kept = Some(kept);
        self.right = Side::Open;
        match given {
            Some(given) => Ask::Give(given),
            None => Ask::Right,
        }
    }

    /// The next step of an intersection.
    #[inline(always)]
    fn step_meet(&mut self) -> Ask
        requires op { self.old.op ≡ Meet }
        ensures op { self.new.op ≡ Meet }
        ensures steps { Steps self.old result self.new }
        ensures ended { SameEnded self.old self.new }
    {
        let (left, right) = (self.left, self.right);
        match left {
            Side::Open => Ask::Left,
            Side::Held(x) => match right {
                Side::Open => Ask::Right,
                Side::Held(y) => self.meet(x, y),
                Side::Ended => Ask::End,
            },
            Side::Ended => Ask::End,
        }
    }

    /// What the two spans share. The one that ends first is used up.
    #[inline(always)]
    fn meet(&mut self, x: Span, y: Span) -> Ask
        requires op { self.old.op ≡ Meet }
        requires left { self.old.left ≡ Held x }
        requires right { self.old.right ≡ Held y }
        ensures op { self.new.op ≡ Meet }
        ensures steps { Steps self.old result self.new }
        ensures ended { SameEnded self.old self.new }
    {
        let both = x.meet(y);
        if x.until() <= y.until() {
            self.left = Side::Open;
            match both {
                Some(both) => Ask::Give(both),
                None => Ask::Left,
            }
        } else {
            self.right = Side::Open;
            match both {
                Some(both) => Ask::Give(both),
                None => Ask::Right,
            }
        }
    }

    /// The next step of a difference.
    #[inline(always)]
    fn step_minus(&mut self) -> Ask
        requires op { self.old.op ≡ Minus }
        ensures op { self.new.op ≡ Minus }
        ensures steps { Steps self.old result self.new }
        ensures ended { SameEnded self.old self.new }
    {
        let (left, right) = (self.left, self.right);
        match left {
            Side::Open => Ask::Left,
            Side::Held(x) => match right {
                Side::Open => Ask::Right,
                Side::Held(y) => self.cut(x, y),
                Side::Ended => {
                    self.left = Side::Open;
                    Ask::Give(x)
                }
            },
            Side::Ended => Ask::End,
        }
    }

    /// What the right span leaves of the left one before its own end.
    #[inline(always)]
    fn cut(&mut self, x: Span, y: Span) -> Ask
        requires op { self.old.op ≡ Minus }
        requires left { self.old.left ≡ Held x }
        requires right { self.old.right ≡ Held y }
        ensures op { self.new.op ≡ Minus }
        ensures steps { Steps self.old result self.new }
        ensures ended { SameEnded self.old self.new }
    {
        if y.until() <= x.from() {
            self.right = Side::Open;
            return Ask::Right;
        }
        if x.until() <= y.from() {
            self.left = Side::Open;
            return Ask::Give(x);
        }
        if x.from() < y.from() {
            let part = Span::between(x.from(), y.from());
            if y.until() < x.until() {
                self.left = Side::Held(Span::between(y.until(), x.until()));
                self.right = Side::Open;
                return Ask::Give(part);
            }
            self.left = Side::Open;
            return Ask::Give(part);
        }
        if y.until() < x.until() {
            self.left = Side::Held(Span::between(y.until(), x.until()));
            self.right = Side::Open;
            return Ask::Right;
        }
        self.left = Side::Open;
        Ask::Left
    }
}

impl Merge {
    ghost use Rattle.std.specs.Prelude.{[], ◌∷◌, ◌≤◌, None};
    ghost use Rattle.gtd_spans.specs.Merging.{StepsBeside, TakesOff};
    ghost use Rattle.gtd_spans.specs.declared.merge.Side.TheVariants.{Open, Held, Ended};

    /// The difference of one span and the right side, before any step.
    pub fn beside(span: Span) -> Merge
        requires not_empty { span.from <ℤ span.until }
        ensures op { result.op ≡ Minus }
        ensures fits { (l : List Interval) → IsNormal l → Fits result [] l }
        ensures meaning { (l : List Interval) → still result [] l ≡ combine Minus (span ∷ []) l }
    {
        Merge {
            op: Op::Minus,
            left: Side::Held(span),
            right: Side::Open,
            kept: None,
        }
    }

    /// Takes the first span off the right side, which the last step asked for, where the left side gives nothing more. Returns what
    /// the difference has before that span, if there is anything, and asks for the right side again.
    #[inline(always)]
    pub fn gap_before(&mut self, y: Span) -> Option<Span>
        requires op { self.old.op ≡ Minus }
        requires awaits { AwaitsRight self.old }
        ensures op { self.new.op ≡ self.old.op }
        ensures awaits { AwaitsRight self.new }
        ensures gap { TakesOff self.old y result self.new }
        ensures count { unended_sides self.new ≤ unended_sides self.old }
    {
        let left = self.left;
        match left {
            Side::Held(x) => self.part_before(x, y),
            Side::Open => unreachable!(),
            Side::Ended => None,
        }
    }

    /// The same for the left span.
    #[inline(always)]
    fn part_before(&mut self, x: Span, y: Span) -> Option<Span>
        requires op { self.old.op ≡ Minus }
        requires left { self.old.left ≡ Held x }
        requires right { self.old.right ≡ Open }
        ensures op { self.new.op ≡ self.old.op }
        ensures awaits { AwaitsRight self.new }
        ensures gap { TakesOff self.old y result self.new }
        ensures count { unended_sides self.new ≤ unended_sides self.old }
    {
        if y.until() <= x.from() {
            return None;
        }
        if x.until() <= y.until() {
            self.left = Side::Ended;
            if x.until() <= y.from() {
                return Some(x);
            }
            if x.from() < y.from() {
                return Some(Span::between(x.from(), y.from()));
            }
            return None;
        }
        self.left = Side::Held(Span::between(y.until(), x.until()));
        if x.from() < y.from() {
            return Some(Span::between(x.from(), y.from()));
        }
        None
    }

    /// What a difference asks for, or has to give, if its left side gives nothing more. `Left` then asks for the right
    /// side.
    #[inline(always)]
    pub fn step_beside(&mut self) -> Ask
        requires op { self.old.op ≡ Minus }
        ensures op { self.new.op ≡ self.old.op }
        ensures steps { StepsBeside self.old result self.new }
        ensures ended { self.old.right ≡ Ended → self.new.right ≡ Ended }
        ensures count { unended_sides self.new ≤ unended_sides self.old }
    {
        match self.step() {
            Ask::Left => {
                self.left = Side::Ended;
                Ask::End
            }
            Ask::Right => Ask::Left,
            Ask::Give(x) => Ask::Give(x),
            Ask::End => Ask::End,
        }
    }
}
