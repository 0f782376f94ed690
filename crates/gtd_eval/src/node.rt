//! Trees of sweeps, which hand out spans one after another.

ghost use Rattle.std.specs.Prelude.{◌≡◌, ◌≤◌, [], length};
ghost use Rattle.gtd_core.specs.Limits.{most_nodes};
ghost use Rattle.gtd_spans.specs.Sweeping.{still, AwaitsLeft, AwaitsRight, Fits, HasOneSide, Takes};
ghost use Rattle.gtd_eval.specs.Nodes.{node_list, node_shape, node_whole, IsSoundNode};

use crate::leaf::Leaf;
use gtd_core::{Horizon, Op, Span};
use gtd_spans::{Ask, Sweep};

/// A node of a tree: at most one fixed span, or a leaf, or a sweep over one or two boxed nodes. It holds no collection.
#[derive(Debug, Drop)]
pub enum Node<L> {
    /// One span, or none, that is still to come, and the one that was to come at first.
    Fixed(Option<Span>, Option<Span>),
    /// A leaf, in a box: it is large, and a node is moved as its tree is made.
    Leaf(Box<L>),
    /// A sweep over one node, of the seconds of a horizon that are not in it.
    One(Sweep, Horizon, Box<Node<L>>),
    /// A sweep of an operator over a left and a right node. These lie in one box, which takes less memory, and less time to make,
    /// than a box for each.
    Two(Sweep, Op, Box<(Node<L>, Node<L>)>),
}

impl<L: Leaf> Node<L> {
    ghost use Rattle.std.specs.Prelude.{◌≡◌, ◌≤◌, ◌*◌};
    ghost use Rattle.gtd_spans.specs.Sweeping.{Takes};
    ghost use Rattle.gtd_eval.specs.Nodes.{node_list, node_whole, node_shape, node_count, node_work, IsSoundNode, node_ticks};
    ghost use Rattle.gtd_eval.specs.Nodes.{node_kept, node_periods};

    /// Takes the first span off the list that is still to come. Most spans come from leaves: these are handed out without a call.
    #[cycle(next)]
    #[inline(always)]
    pub(crate) fn next(&mut self) -> Option<Span>
        requires sound { IsSoundNode L.Leaf self.old }
        ensures sound { IsSoundNode L.Leaf self.new }
        ensures takes { Takes (node_list L.Leaf self.old) result (node_list L.Leaf self.new) }
        ensures shape { node_shape L.Leaf self.new ≡ node_shape L.Leaf self.old }
        ensures whole { node_whole L.Leaf self.new ≡ node_whole L.Leaf self.old }
    {
        match self {
            Node::Fixed(span, _) => span.take(),
            Node::Leaf(leaf) => leaf.next_span(),
            Node::One(sweep, _, inner) => next_of_one(sweep, inner),
            Node::Two(sweep, _, both) => {
                let (left, right) = &mut **both;
                next_of_two(sweep, left, right)
            }
        }
    }

    /// Begins again with the first span. This takes no memory.
    pub(crate) fn begin_again(&mut self)
        requires sound { IsSoundNode L.Leaf self.old }
        ensures sound { IsSoundNode L.Leaf self.new }
        ensures list { node_list L.Leaf self.new ≡ node_whole L.Leaf self.old }
        ensures shape { node_shape L.Leaf self.new ≡ node_shape L.Leaf self.old }
        ensures whole { node_whole L.Leaf self.new ≡ node_whole L.Leaf self.old }
    {
        match self {
            Node::Fixed(span, first) => *span = *first,
            Node::Leaf(leaf) => leaf.begin_again(),
            Node::One(sweep, horizon, inner) => {
                inner.begin_again();
                *sweep = Sweep::outside(*horizon);
            }
            Node::Two(sweep, op, both) => {
                let (left, right) = &mut **both;
                left.begin_again();
                right.begin_again();
                *sweep = Sweep::new(*op);
            }
        }
    }

    /// The number of nodes of the tree.
    pub(crate) fn count(&self) -> u64
        requires few { node_count L.Leaf self.now ≤ most_nodes }
        ensures value { result ≡ node_count L.Leaf self.now }
    {
        match self {
            Node::Fixed(..) => 1,
            Node::Leaf(leaf) => leaf.nodes(),
            Node::One(_, _, inner) => 1 + inner.count(),
            Node::Two(_, _, both) => 1 + both.0.count() + both.1.count(),
        }
    }

    /// The sum of the ticks of the leaves of the tree.
    pub(crate) fn ticks(&self) -> u64
        requires few { node_count L.Leaf self.now ≤ most_nodes }
        ensures value { result ≡ node_ticks L.Leaf self.now }
        ensures at_most { result ≤ node_work L.Leaf self.now }
    {
        match self {
            Node::Fixed(..) => 0,
            Node::Leaf(leaf) => leaf.ticks(),
            Node::One(_, _, inner) => inner.ticks(),
            Node::Two(_, _, both) => both.0.ticks() + both.1.ticks(),
        }
    }

    /// How many spans the leaves of the tree keep.
    pub(crate) fn kept(&self) -> u64
        requires few { node_count L.Leaf self.now ≤ most_nodes }
        ensures value { result ≡ node_kept L.Leaf self.now }
    {
        match self {
            Node::Fixed(..) => 0,
            Node::Leaf(leaf) => leaf.kept(),
            Node::One(_, _, inner) => inner.kept(),
            Node::Two(_, _, both) => both.0.kept() + both.1.kept(),
        }
    }
}

// The next span of a sweep over one node.
#[cycle(next)]
#[inline(never)]
fn next_of_one<L: Leaf>(sweep: &mut Sweep, inner: &mut Node<L>) -> Option<Span>
    requires sound { IsSoundNode L.Leaf inner.old }
    requires one_side { HasOneSide sweep.old }
    requires fits { Fits sweep.old (node_list L.Leaf inner.old) [] }
    ensures sound { IsSoundNode L.Leaf inner.new }
    ensures one_side { HasOneSide sweep.new }
    ensures fits { Fits sweep.new (node_list L.Leaf inner.new) [] }
    ensures takes { Takes (still sweep.old (node_list L.Leaf inner.old) []) result
        (still sweep.new (node_list L.Leaf inner.new) []) }
    ensures shape { node_shape L.Leaf inner.new ≡ node_shape L.Leaf inner.old }
    ensures whole { node_whole L.Leaf inner.new ≡ node_whole L.Leaf inner.old }
{
    loop {
        match sweep.step() {
            Ask::Left => {
                let told = inner.next();
                sweep.tell(told);
            }
            Ask::Right => unreachable!(),
            Ask::Give(x) => return Some(x),
            Ask::End => return None,
        }
    }
}

// Leaves out spans of the left side, which is asked next, on which nothing depends.
#[inline(always)]
pub(crate) fn skip_left<L: Leaf>(sweep: &Sweep, left: &mut Node<L>, _right: &Node<L>)
    requires sound { IsSoundNode L.Leaf left.old }
    requires awaits { AwaitsLeft sweep.now }
    requires fits { Fits sweep.now (node_list L.Leaf left.old) (node_list L.Leaf _right.now) }
    ensures sound { IsSoundNode L.Leaf left.new }
    ensures fits { Fits sweep.now (node_list L.Leaf left.new) (node_list L.Leaf _right.now) }
    ensures same { still sweep.now (node_list L.Leaf left.old) (node_list L.Leaf _right.now)
        ≡ still sweep.now (node_list L.Leaf left.new) (node_list L.Leaf _right.now) }
    ensures fewer { length (node_list L.Leaf left.new) ≤ length (node_list L.Leaf left.old) }
    ensures shape { node_shape L.Leaf left.new ≡ node_shape L.Leaf left.old }
    ensures whole { node_whole L.Leaf left.new ≡ node_whole L.Leaf left.old }
{
    if let Node::Leaf(leaf) = left {
        if let Some(second) = sweep.needs_left_from() {
            leaf.skip_to(second);
        }
    }
}

// The same for the right side.
#[inline(always)]
pub(crate) fn skip_right<L: Leaf>(sweep: &Sweep, _left: &Node<L>, right: &mut Node<L>)
    requires sound { IsSoundNode L.Leaf right.old }
    requires awaits { AwaitsRight sweep.now }
    requires fits { Fits sweep.now (node_list L.Leaf _left.now) (node_list L.Leaf right.old) }
    ensures sound { IsSoundNode L.Leaf right.new }
    ensures fits { Fits sweep.now (node_list L.Leaf _left.now) (node_list L.Leaf right.new) }
    ensures same { still sweep.now (node_list L.Leaf _left.now) (node_list L.Leaf right.old)
        ≡ still sweep.now (node_list L.Leaf _left.now) (node_list L.Leaf right.new) }
    ensures fewer { length (node_list L.Leaf right.new) ≤ length (node_list L.Leaf right.old) }
    ensures shape { node_shape L.Leaf right.new ≡ node_shape L.Leaf right.old }
    ensures whole { node_whole L.Leaf right.new ≡ node_whole L.Leaf right.old }
{
    if let Node::Leaf(leaf) = right {
        if let Some(second) = sweep.needs_right_from() {
            leaf.skip_to(second);
        }
    }
}

// The next span of a sweep over two nodes.
#[cycle(next)]
#[inline(never)]
fn next_of_two<L: Leaf>(sweep: &mut Sweep, left: &mut Node<L>, right: &mut Node<L>) -> Option<Span>
    requires left_sound { IsSoundNode L.Leaf left.old }
    requires right_sound { IsSoundNode L.Leaf right.old }
    requires fits { Fits sweep.old (node_list L.Leaf left.old) (node_list L.Leaf right.old) }
    ensures left_sound { IsSoundNode L.Leaf left.new }
    ensures right_sound { IsSoundNode L.Leaf right.new }
    ensures fits { Fits sweep.new (node_list L.Leaf left.new) (node_list L.Leaf right.new) }
    ensures takes { Takes (still sweep.old (node_list L.Leaf left.old) (node_list L.Leaf right.old)) result
        (still sweep.new (node_list L.Leaf left.new) (node_list L.Leaf right.new)) }
    ensures left_shape { node_shape L.Leaf left.new ≡ node_shape L.Leaf left.old }
    ensures right_shape { node_shape L.Leaf right.new ≡ node_shape L.Leaf right.old }
    ensures left_whole { node_whole L.Leaf left.new ≡ node_whole L.Leaf left.old }
    ensures right_whole { node_whole L.Leaf right.new ≡ node_whole L.Leaf right.old }
{
    loop {
        match sweep.step() {
            Ask::Left => {
                skip_left(sweep, left, right);
                let Some(x) = left.next() else {
                    sweep.tell(None);
                    continue;
                };
                if sweep.gives_left(x) {
                    return Some(x);
                }
                sweep.tell(Some(x));
            }
            Ask::Right => {
                skip_right(sweep, left, right);
                let Some(x) = right.next() else {
                    sweep.tell(None);
                    continue;
                };
                if sweep.gives_right(x) {
                    return Some(x);
                }
                sweep.tell(Some(x));
            }
            Ask::Give(x) => return Some(x),
            Ask::End => return None,
        }
    }
}
