//! Sources of spans, and set operators over them.

ghost use Rattle.std.specs.Prelude.{◌≡◌, ◌⊎◌, ◌↔◌, ◌<ℤ◌, ℤ, List, [], ◌∷◌, MatchOption};
ghost use Rattle.gtd_spans.specs.Change.{NeverChanges, IsNextChange};
ghost use Rattle.gtd_core.specs.Seconds.{Interval, Within};
ghost use Rattle.gtd_core.specs.Whole.{whole};
ghost use Rattle.gtd_core.specs.declared.domain.Op.TheVariants.{Union, Meet, Minus};
ghost use Rattle.gtd_spans.specs.Normal.{Holds, IsNormal, combine};
ghost use Rattle.gtd_spans.specs.facts.SweepFacts.{Fits-prop, HasOneSide-prop, still-normal};
ghost use Rattle.gtd_spans.specs.Sweeping.{Takes, Fits, HasOneSide, still};

use crate::merge::Ask;
use crate::sweep::Sweep;
use gtd_core::{Horizon, Op, Sec, Span};

/// A source hands out spans one after the other. Its meaning is the normal list of those that are still to come: `rest`
/// in contracts.
pub trait SpanSource {
    // The spans that are still to come.
    ghost rest: { Self → List Interval };

    /// Takes the first span off the list. `None` means that the list is empty, and it stays empty.
    fn next(&mut self) -> Option<Span>
        ensures takes { Takes (rest self.old) result (rest self.new) };

    // They are in order, none is empty, and none touches another.
    ghost is_normal: { (source : Self) → IsNormal (rest source) };
}

/// The next span of a sweep over two sources.
fn next_of<A: SpanSource, B: SpanSource>(
    left: &mut A,
    right: &mut B,
    sweep: &mut Sweep,
) -> Option<Span>
    requires fits { Fits sweep.old (A.rest left.old) (B.rest right.old) }
    ensures fits { Fits sweep.new (A.rest left.new) (B.rest right.new) }
    ensures takes { Takes (still sweep.old (A.rest left.old) (B.rest right.old)) result
        (still sweep.new (A.rest left.new) (B.rest right.new)) }
{
    loop {
        match sweep.step() {
            Ask::Left => {
                let told = left.next();
                sweep.tell(told);
            }
            Ask::Right => {
                let told = right.next();
                sweep.tell(told);
            }
            Ask::Give(x) => return Some(x),
            Ask::End => return None,
        }
    }
}

/// An operator over two sources.
#[derive(Drop)]
pub(crate) struct Pair<A: SpanSource, B: SpanSource> {
    left: A,
    right: B,
    sweep: Sweep,
    ghost fits: { Fits sweep (A.rest left) (B.rest right) } by { Fits-prop sweep (A.rest left) (B.rest right) },
}

impl<A: SpanSource, B: SpanSource> Pair<A, B> {
    pub(crate) fn new(op: Op, left: A, right: B) -> Pair<A, B>
        ensures list { ⟦<Pair<A, B> as SpanSource>⟧.rest result
            ≡ combine op (A.rest left) (B.rest right) }
    {
        Pair {
            left,
            right,
            sweep: Sweep::new(op),
        }
    }
}

impl<A: SpanSource, B: SpanSource> SpanSource for Pair<A, B> {
    ghost rest = { λ s. still s.sweep (A.rest s.left) (B.rest s.right) };

    fn next(&mut self) -> Option<Span> {
        next_of(&mut self.left, &mut self.right, &mut self.sweep)
    }

    ghost is_normal = { λ s. still-normal s.sweep _ _ };
}

/// The seconds of either of two sources, as a source.
#[derive(Drop)]
pub struct Unite<A: SpanSource, B: SpanSource>(Pair<A, B>);

impl<A: SpanSource, B: SpanSource> Unite<A, B> {
    /// The union of two sources, before any of their spans is asked for.
    pub fn new(a: A, b: B) -> Unite<A, B>
        ensures list { ⟦<Unite<A, B> as SpanSource>⟧.rest result
            ≡ combine Union (A.rest a) (B.rest b) }
        ensures seconds { (t : ℤ) → Holds (⟦<Unite<A, B> as SpanSource>⟧.rest result) t
            ↔ (Holds (A.rest a) t ⊎ Holds (B.rest b) t) }
    {
        Unite(Pair::new(Op::Union, a, b))
    }
}

impl<A: SpanSource, B: SpanSource> SpanSource for Unite<A, B> {
    ghost rest = { λ s. ⟦<Pair<A, B> as SpanSource>⟧.rest s.0 };

    fn next(&mut self) -> Option<Span> {
        self.0.next()
    }

    ghost is_normal = { λ s. still-normal s.0.sweep _ _ };
}

/// The seconds of both of two sources, as a source.
#[derive(Drop)]
pub struct Both<A: SpanSource, B: SpanSource>(Pair<A, B>);

impl<A: SpanSource, B: SpanSource> Both<A, B> {
    /// The intersection of two sources, before any of their spans is asked for.
    pub fn new(a: A, b: B) -> Both<A, B>
        ensures list { ⟦<Both<A, B> as SpanSource>⟧.rest result
            ≡ combine Meet (A.rest a) (B.rest b) }
        ensures seconds { (t : ℤ) → Holds (⟦<Both<A, B> as SpanSource>⟧.rest result) t
            ↔ (Holds (A.rest a) t × Holds (B.rest b) t) }
    {
        Both(Pair::new(Op::Meet, a, b))
    }
}

impl<A: SpanSource, B: SpanSource> SpanSource for Both<A, B> {
    ghost rest = { λ s. ⟦<Pair<A, B> as SpanSource>⟧.rest s.0 };

    fn next(&mut self) -> Option<Span> {
        self.0.next()
    }

    ghost is_normal = { λ s. still-normal s.0.sweep _ _ };
}

/// The seconds of the first of two sources that are not in the second, as a source.
#[derive(Drop)]
pub struct Without<A: SpanSource, B: SpanSource>(Pair<A, B>);

impl<A: SpanSource, B: SpanSource> Without<A, B> {
    /// The difference of two sources, before any of their spans is asked for.
    pub fn new(a: A, b: B) -> Without<A, B>
        ensures list { ⟦<Without<A, B> as SpanSource>⟧.rest result
            ≡ combine Minus (A.rest a) (B.rest b) }
        ensures seconds { (t : ℤ) → Holds (⟦<Without<A, B> as SpanSource>⟧.rest result) t
            ↔ (Holds (A.rest a) t × (Holds (B.rest b) t → ⊥)) }
    {
        Without(Pair::new(Op::Minus, a, b))
    }
}

impl<A: SpanSource, B: SpanSource> SpanSource for Without<A, B> {
    ghost rest = { λ s. ⟦<Pair<A, B> as SpanSource>⟧.rest s.0 };

    fn next(&mut self) -> Option<Span> {
        self.0.next()
    }

    ghost is_normal = { λ s. still-normal s.0.sweep _ _ };
}

/// The seconds of a horizon that are not in a source, as a source.
#[derive(Drop)]
pub struct Outside<A: SpanSource> {
    inner: A,
    sweep: Sweep,
    ghost one_side: { HasOneSide sweep } by { HasOneSide-prop sweep },
    ghost fits: { Fits sweep (A.rest inner) [] } by { Fits-prop sweep (A.rest inner) [] },
}

impl<A: SpanSource> Outside<A> {
    /// The complement of a source in the horizon, before any span of the source is asked for.
    pub fn new(a: A, horizon: Horizon) -> Outside<A>
        ensures list { ⟦<Outside<A> as SpanSource>⟧.rest result
            ≡ combine Minus (whole horizon ∷ []) (A.rest a) }
        ensures seconds { (t : ℤ) → Holds (⟦<Outside<A> as SpanSource>⟧.rest result) t
            ↔ (Within (whole horizon) t × (Holds (A.rest a) t → ⊥)) }
    {
        Outside {
            inner: a,
            sweep: Sweep::outside(horizon),
        }
    }
}

impl<A: SpanSource> SpanSource for Outside<A> {
    ghost rest = { λ s. still s.sweep (A.rest s.inner) [] };

    fn next(&mut self) -> Option<Span> {
        next_outside(&mut self.inner, &mut self.sweep)
    }

    ghost is_normal = { λ s. still-normal s.sweep _ _ };
}

/// The next span of a sweep over one source.
fn next_outside<A: SpanSource>(inner: &mut A, sweep: &mut Sweep) -> Option<Span>
    requires one_side { HasOneSide sweep.old }
    requires fits { Fits sweep.old (A.rest inner.old) [] }
    ensures one_side { HasOneSide sweep.new }
    ensures fits { Fits sweep.new (A.rest inner.new) [] }
    ensures takes { Takes (still sweep.old (A.rest inner.old) []) result
        (still sweep.new (A.rest inner.new) []) }
{
    loop {
        match sweep.step() {
            Ask::Left => {
                let told = inner.next();
                sweep.tell(told);
            }
            Ask::Right => unreachable!(),
            Ask::Give(x) => return Some(x),
            Ask::End => return None,
        }
    }
}

/// The least second after the given one, and before `until`, at which membership in what the source still gives differs
/// from that at the given one, or `None` exactly if there is none. The spans of the source must be before `until`.
pub fn next_change<S: SpanSource>(source: &mut S, second: Sec, until: Sec) -> Option<Sec>
    requires early { (t : ℤ) → Holds (S.rest source.old) t → t <ℤ until.0 }
    ensures change { MatchOption result (NeverChanges (Holds (S.rest source.old)) second.0 until.0)
        (λ c. IsNextChange (Holds (S.rest source.old)) second.0 until.0 c.0) }
{
    while let Some(x) = source.next() {
        if second < x.from() {
            return Some(x.from());
        }
        if second < x.until() {
            return if x.until() < until {
                Some(x.until())
            } else {
                None
            };
        }
    }
    None
}
