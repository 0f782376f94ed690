//! Trees of sweeps whose parts fit together, and how they are joined.

ghost use Rattle.std.specs.Prelude.{◌≤◌, IsFalse};
ghost use Rattle.gtd_core.specs.Limits.{most_nodes};
ghost use Rattle.gtd_eval.specs.Nodes.{node_count, IsSoundNode, IsStill};
ghost use Rattle.gtd_eval.specs.facts.NodeFacts.{IsSoundNode-prop, IsStill-prop};

use crate::leaf::Leaf;
use crate::node::Node;
use gtd_core::{Horizon, Op, Span};
use gtd_spans::{SpanSource, Sweep};
use std::alloc::{AllocError, Global};

/// A source of spans: a tree of sweeps over leaves, of at most 16,777,216 nodes. Once made, it takes no memory.
#[derive(Drop)]
pub struct SweepTree<L: Leaf> {
    pub(crate) node: Node<L>,
    /// Whether it may have handed out a span since it began.
    pub(crate) moved: bool,
    ghost still: { IsStill L.Leaf moved node } by { IsStill-prop L.Leaf moved node },
    ghost sound: { IsSoundNode L.Leaf node } by { IsSoundNode-prop L.Leaf node },
    ghost small: { node_count L.Leaf node ≤ most_nodes },
}

impl<L: Leaf> SpanSource for SweepTree<L> {
    ghost use Rattle.std.specs.Prelude.{◌≡◌};
    ghost use Rattle.gtd_spans.specs.Sweeping.{Takes};
    ghost use Rattle.gtd_eval.specs.Cursors.{cursor_list, cursor_size, cursor_whole};
    ghost use Rattle.gtd_eval.specs.facts.NodeFacts.{node_list-normal};

    ghost rest = { cursor_list };

    #[inline(always)]
    fn next(&mut self) -> Option<Span>
        ensures takes { Takes (cursor_list self.old) result (cursor_list self.new) }
        ensures size { cursor_size self.new ≡ cursor_size self.old }
        ensures whole { cursor_whole self.new ≡ cursor_whole self.old }
    {
        self.moved = true;
        self.node.next()
    }

    ghost is_normal = { λ c. node_list-normal L.Leaf.own L.is_normal c.node c.sound };
}

impl<L: Leaf> SweepTree<L> {
    ghost use Rattle.std.specs.Prelude.{◌≡◌, ◌≤◌, ◌+◌, ◌*◌, ◌<◌, ◌^◌, ◌↔◌, [], ◌∷◌, ℕ, ℤ, IfOk, IsFalse, vec_len};
    ghost use Rattle.gtd_core.specs.Limits.{most_nodes};
    ghost use Rattle.gtd_core.specs.Seconds.{Within};
    ghost use Rattle.gtd_core.specs.Whole.{whole};
    ghost use Rattle.gtd_spans.specs.Normal.{Holds, IsNormal};
    ghost use Rattle.gtd_eval.specs.Chains.{IsChainOfLast};
    ghost use Rattle.gtd_eval.specs.Cursors.{cursor_list, cursor_nodes, cursor_ticks, cursor_height, cursor_work};
    ghost use Rattle.gtd_eval.specs.Cursors.{cursor_kept, cursor_told, cursor_periods};
    ghost use Rattle.gtd_eval.specs.Cursors.{SomeHolds, total_nodes, total_work, NoneHigher};
    ghost use Rattle.gtd_eval.specs.Cursors.{cursor_whole, cursor_size, IsAtStart, AllAtStart};
    ghost use Rattle.gtd_eval.specs.Exprs as spec;

    /// The cursor of all seconds of a horizon, of one node.
    pub fn whole(horizon: Horizon) -> SweepTree<L>
        ensures list { cursor_list result ≡ whole horizon ∷ [] }
        ensures nodes { cursor_nodes result ≡ 1 }
        ensures height { cursor_height result ≡ 1 }
        ensures work { cursor_work result ≡ 0 }
        ensures kept { cursor_periods result ≡ 0 }
        ensures start { IsAtStart result }
    {
        let whole = horizon.whole();
        SweepTree {
            node: Node::Fixed(Some(whole), Some(whole)),
            moved: false,
        }
    }

    /// The cursor of the seconds of any of the cursors, which were made over the same horizon; with no cursors, of no
    /// second. It has the nodes of them all and, for n cursors, n - 1 more (1 for none). Its tree is balanced: 2^k
    /// cursors add at most k to the height. The result must have at most 16,777,216 nodes. After a refusal of memory
    /// the cursors are gone.
    pub fn any(
        alloc: Global,
        mut cursors: Vec<SweepTree<L>>,
        _horizon: Horizon,
    ) -> Result<SweepTree<L>, AllocError>
        requires few { total_nodes cursors.items + vec_len cursors ≤ 16777217 }
        ensures seconds { IfOk result
            (λ c. (t : ℤ) → Holds (cursor_list c) t ↔ SomeHolds cursors.items t) }
        ensures normal { IfOk result (λ c. IsNormal (cursor_list c)) }
        ensures none { vec_len cursors ≡ 0 → IfOk result (λ c. cursor_nodes c ≡ 1) }
        ensures nodes { 0 < vec_len cursors → IfOk result
            (λ c. cursor_nodes c + 1 ≡ total_nodes cursors.items + vec_len cursors) }
        ensures work { IfOk result (λ c. cursor_work c ≡ total_work cursors.items) }
        ensures height { (h k : ℕ) → 0 < vec_len cursors → NoneHigher h cursors.items
            → vec_len cursors ≤ 2 ^ k → IfOk result (λ c. cursor_height c ≤ h + k) }
        ensures start { AllAtStart cursors.items → IfOk result IsAtStart }
    {
        let count = cursors.len();
        if count == 0 {
            return Ok(SweepTree {
                node: Node::Fixed(None, None),
                moved: false,
            });
        }
        let moved = SweepTree::<L>::some_moved(cursors.as_slice());
        let node = SweepTree::<L>::join_last(alloc, Op::Union, &mut cursors, count)?;
        Ok(SweepTree { node, moved })
    }

    // Whether any of the cursors may have handed out a span since it began.
    fn some_moved(cursors: &[SweepTree<L>]) -> bool
        ensures none { IsFalse result → AllAtStart cursors.now }
    {
        let mut first = cursors.len();
        while first > 0 {
            first -= 1;
            if cursors[first].moved {
                return true;
            }
        }
        false
    }

    // The operator that joins what is on the right in a chain: what is subtracted one after another is subtracted
    // together.
    pub(crate) fn right_of(op: Op) -> Op
        ensures { result ≡ spec.right_of op }
    {
        match op {
            Op::Union => Op::Union,
            Op::Meet => Op::Meet,
            Op::Minus => Op::Union,
        }
    }

    // The chain, by the operator, of so many cursors at the end of the list, which are taken off it. Its tree is
    // balanced.
    #[cycle(joining)]
    pub(crate) fn join_last(
        alloc: Global,
        op: Op,
        cursors: &mut Vec<SweepTree<L>>,
        count: usize,
    ) -> Result<Node<L>, AllocError>
        requires some { 0 < count }
        requires enough { count ≤ vec_len cursors.old }
        ensures chain { IfOk result
            (λ node. IsChainOfLast op count cursors.old.items node cursors.new.items) }
    {
        if count == 1 {
            return match cursors.pop() {
                Some(cursor) => Ok(cursor.node),
                None => unreachable!(),
            };
        }
        SweepTree::<L>::join_halves(alloc, op, cursors, count)
    }

    // The same of two cursors or more.
    #[cycle(joining)]
    #[inline(never)]
    fn join_halves(
        alloc: Global,
        op: Op,
        cursors: &mut Vec<SweepTree<L>>,
        count: usize,
    ) -> Result<Node<L>, AllocError>
        requires some { 1 < count }
        requires enough { count ≤ vec_len cursors.old }
        ensures chain { IfOk result
            (λ node. IsChainOfLast op count cursors.old.items node cursors.new.items) }
    {
        let half = count / 2;
        let right = SweepTree::<L>::join_last(alloc, SweepTree::<L>::right_of(op), cursors, half)?;
        let left = SweepTree::<L>::join_last(alloc, op, cursors, count - half)?;
        let both = Box::new(alloc, (left, right))?;
        Ok(Node::Two(Sweep::new(op), op, both))
    }

    /// The cursor of the seconds of a horizon that are not in another cursor over it. It has one node more, and must
    /// have at most 16,777,216 nodes. After a refusal of memory that cursor is gone.
    pub fn outside(
        alloc: Global,
        cursor: SweepTree<L>,
        horizon: Horizon,
    ) -> Result<SweepTree<L>, AllocError>
        requires few { cursor_nodes cursor < most_nodes }
        ensures seconds { IfOk result (λ c. (t : ℤ) → Holds (cursor_list c) t
            ↔ (Within (whole horizon) t × (Holds (cursor_list cursor) t → ⊥))) }
        ensures normal { IfOk result (λ c. IsNormal (cursor_list c)) }
        ensures nodes { IfOk result (λ c. cursor_nodes c ≡ cursor_nodes cursor + 1) }
        ensures height { IfOk result (λ c. cursor_height c ≡ cursor_height cursor + 1) }
        ensures work { IfOk result (λ c. cursor_work c ≡ cursor_work cursor) }
        ensures start { IsAtStart cursor → IfOk result IsAtStart }
    {
        let moved = cursor.moved;
        let inner = Box::new(alloc, cursor.node)?;
        Ok(SweepTree {
            node: Node::One(Sweep::outside(horizon), horizon, inner),
            moved,
        })
    }

    /// The cursor of the seconds of one cursor that are not in another. It has one node more than both together, and must have
    /// at most 16,777,216 nodes. After a refusal of memory both cursors are gone.
    pub fn without(
        alloc: Global,
        cursor: SweepTree<L>,
        other: SweepTree<L>,
    ) -> Result<SweepTree<L>, AllocError>
        requires few { cursor_nodes cursor + cursor_nodes other < most_nodes }
        ensures seconds { IfOk result (λ c. (t : ℤ) → Holds (cursor_list c) t
            ↔ (Holds (cursor_list cursor) t × (Holds (cursor_list other) t → ⊥))) }
        ensures normal { IfOk result (λ c. IsNormal (cursor_list c)) }
        ensures nodes { IfOk result (λ c. cursor_nodes c ≡ cursor_nodes cursor + cursor_nodes other + 1) }
        ensures work { IfOk result (λ c. cursor_work c ≡ cursor_work cursor + cursor_work other) }
        ensures start { IsAtStart cursor → IsAtStart other → IfOk result IsAtStart }
    {
        let moved = either_moved(cursor.moved, other.moved);
        let both = Box::new(alloc, (cursor.node, other.node))?;
        Ok(SweepTree {
            node: Node::Two(Sweep::new(Op::Minus), Op::Minus, both),
            moved,
        })
    }

    /// Begins again with the first span, so that the whole list is to come. This takes no memory.
    pub fn begin_again(&mut self)
        ensures list { cursor_list self.new ≡ cursor_whole self.old }
        ensures whole { cursor_whole self.new ≡ cursor_whole self.old }
        ensures size { cursor_size self.new ≡ cursor_size self.old }
    {
        self.node.begin_again();
        self.moved = false;
    }

    /// The number of nodes of its tree. `next` does not change it.
    pub fn nodes(&self) -> u64
        ensures value { result ≡ cursor_nodes self.now }
    {
        self.node.count()
    }

    /// The days that the runs of its tree have looked at, and the starts that they have taken: at most the sum of their
    /// work.
    pub fn ticks(&self) -> u64
        ensures sum { result ≡ cursor_ticks self.now }
        ensures at_most { result ≤ cursor_work self.now }
    {
        self.node.ticks()
    }

    /// The spans that it keeps of its periods: at most 16 for each node and one more, and at most 4,096 for each period, of which
    /// there are no more than nodes. Beside them it keeps at most so many that it handed out before, and two for each period.
    /// `next` does not change the number of periods.
    pub fn kept(&self) -> u64
        ensures value { result ≡ cursor_kept self.now }
        ensures at_most { result ≤ 4096 * cursor_periods self.now }
        ensures by_nodes { result ≤ 16 * (cursor_nodes self.now + 1) }
        ensures told { cursor_told self.now ≤ 16 * (cursor_nodes self.now + 1) + 2 * cursor_periods self.now }
        ensures periods { cursor_periods self.now ≤ cursor_nodes self.now }
        ensures bounded { result ≤ 4096 * most_nodes }
    {
        self.node.kept()
    }
}

// Whether one of two cursors may have handed out a span, as is said of each of them.
fn either_moved(one: bool, other: bool) -> bool
    ensures neither { IsFalse result → IsFalse one × IsFalse other }
{
    if one {
        return true;
    }
    other
}
