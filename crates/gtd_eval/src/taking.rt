//! The spans of a tree, handed on to a taker in a loop.

ghost use Rattle.std.specs.Prelude.{◌≡◌, [], ◌+◌, ◌<◌, ◌≤◌, IsTrue, length};
ghost use Rattle.gtd_spans.specs.Sweeping.{still, AwaitsLeft, AwaitsRight, Fits, HasOneSide, unended_sides};
ghost use Rattle.gtd_eval.specs.Gaps.{IsReadyForGap, TookGaps};
ghost use Rattle.gtd_eval.specs.Nodes.{node_list, node_shape, node_whole, IsSoundNode};
ghost use Rattle.gtd_eval.specs.Taking.{HandsOn, TakesSome};

use crate::gaps::Gaps;
use crate::leaf::Leaf;
use crate::node::{Node, skip_left, skip_right};
use crate::taker::SpanTaker;
use crate::tree::SweepTree;
use gtd_spans::{Ask, Bounds, Sweep};

// Hands on first spans of the left side of a sweep, which asks for them, that are the next ones of the result as they are, if the
// side is a leaf and hands them on in a loop.
#[inline(always)]
fn each_given_left<L: Leaf, E, T: SpanTaker<E>>(
    sweep: &Sweep,
    left: &mut Node<L>,
    _right: &Node<L>,
    into: &mut E,
    taker: &mut T,
) -> bool
    requires sound { IsSoundNode L.Leaf left.old }
    requires awaits { AwaitsLeft sweep.now }
    requires fits { Fits sweep.now (node_list L.Leaf left.old) (node_list L.Leaf _right.now) }
    requires ready { T.is_ready into.old taker.old (still sweep.now (node_list L.Leaf left.old) (node_list L.Leaf _right.now)) }
    ensures sound { IsSoundNode L.Leaf left.new }
    ensures fits { Fits sweep.now (node_list L.Leaf left.new) (node_list L.Leaf _right.now) }
    ensures takes { TakesSome T.takes
        (still sweep.now (node_list L.Leaf left.old) (node_list L.Leaf _right.now)) into.old taker.old
        (still sweep.now (node_list L.Leaf left.new) (node_list L.Leaf _right.now)) into.new taker.new result }
    ensures ready { IsTrue result
        → T.is_ready into.new taker.new (still sweep.now (node_list L.Leaf left.new) (node_list L.Leaf _right.now)) }
    ensures fewer { length (node_list L.Leaf left.new) ≤ length (node_list L.Leaf left.old) }
    ensures no_more { length (still sweep.now (node_list L.Leaf left.new) (node_list L.Leaf _right.now))
        ≤ length (still sweep.now (node_list L.Leaf left.old) (node_list L.Leaf _right.now)) }
    ensures shape { node_shape L.Leaf left.new ≡ node_shape L.Leaf left.old }
    ensures whole { node_whole L.Leaf left.new ≡ node_whole L.Leaf left.old }
{
    if let Node::Leaf(leaf) = left {
        if let Some(bounds) = sweep.gives_left_within() {
            return leaf.each_within(bounds, into, taker);
        }
    }
    true
}

// Hands on the first spans of the left side of a sweep, which asks for them, as long as they are the next ones of the result as
// they are. Then `tell` hands it the next one, if there is one.
#[inline(always)]
fn each_left<L: Leaf, E, T: SpanTaker<E>>(
    sweep: &mut Sweep,
    left: &mut Node<L>,
    _right: &Node<L>,
    into: &mut E,
    taker: &mut T,
) -> bool
    requires sound { IsSoundNode L.Leaf left.old }
    requires awaits { AwaitsLeft sweep.old }
    requires fits { Fits sweep.old (node_list L.Leaf left.old) (node_list L.Leaf _right.now) }
    requires ready { T.is_ready into.old taker.old (still sweep.old (node_list L.Leaf left.old) (node_list L.Leaf _right.now)) }
    ensures sound { IsSoundNode L.Leaf left.new }
    ensures fits { Fits sweep.new (node_list L.Leaf left.new) (node_list L.Leaf _right.now) }
    ensures takes { TakesSome T.takes
        (still sweep.old (node_list L.Leaf left.old) (node_list L.Leaf _right.now)) into.old taker.old
        (still sweep.new (node_list L.Leaf left.new) (node_list L.Leaf _right.now)) into.new taker.new result }
    ensures ready { IsTrue result
        → T.is_ready into.new taker.new (still sweep.new (node_list L.Leaf left.new) (node_list L.Leaf _right.now)) }
    ensures fewer { IsTrue result → length (node_list L.Leaf left.new) + unended_sides sweep.new
        < length (node_list L.Leaf left.old) + unended_sides sweep.old }
    ensures no_more { length (still sweep.new (node_list L.Leaf left.new) (node_list L.Leaf _right.now))
        ≤ length (still sweep.old (node_list L.Leaf left.old) (node_list L.Leaf _right.now)) }
    ensures shape { node_shape L.Leaf left.new ≡ node_shape L.Leaf left.old }
    ensures whole { node_whole L.Leaf left.new ≡ node_whole L.Leaf left.old }
{
    while each_given_left(sweep, left, _right, into, taker) {
        let Some(x) = left.next() else {
            sweep.tell(None);
            return true;
        };
        if !sweep.gives_left(x) {
            sweep.tell(Some(x));
            return true;
        }
        if !taker.take(into, x) {
            return false;
        }
    }
    false
}

// Does the same for the right side.
#[inline(always)]
fn each_given_right<L: Leaf, E, T: SpanTaker<E>>(
    sweep: &Sweep,
    _left: &Node<L>,
    right: &mut Node<L>,
    into: &mut E,
    taker: &mut T,
) -> bool
    requires sound { IsSoundNode L.Leaf right.old }
    requires awaits { AwaitsRight sweep.now }
    requires fits { Fits sweep.now (node_list L.Leaf _left.now) (node_list L.Leaf right.old) }
    requires ready { T.is_ready into.old taker.old (still sweep.now (node_list L.Leaf _left.now) (node_list L.Leaf right.old)) }
    ensures sound { IsSoundNode L.Leaf right.new }
    ensures fits { Fits sweep.now (node_list L.Leaf _left.now) (node_list L.Leaf right.new) }
    ensures takes { TakesSome T.takes
        (still sweep.now (node_list L.Leaf _left.now) (node_list L.Leaf right.old)) into.old taker.old
        (still sweep.now (node_list L.Leaf _left.now) (node_list L.Leaf right.new)) into.new taker.new result }
    ensures ready { IsTrue result
        → T.is_ready into.new taker.new (still sweep.now (node_list L.Leaf _left.now) (node_list L.Leaf right.new)) }
    ensures fewer { length (node_list L.Leaf right.new) ≤ length (node_list L.Leaf right.old) }
    ensures no_more { length (still sweep.now (node_list L.Leaf _left.now) (node_list L.Leaf right.new))
        ≤ length (still sweep.now (node_list L.Leaf _left.now) (node_list L.Leaf right.old)) }
    ensures shape { node_shape L.Leaf right.new ≡ node_shape L.Leaf right.old }
    ensures whole { node_whole L.Leaf right.new ≡ node_whole L.Leaf right.old }
{
    if let Node::Leaf(leaf) = right {
        if let Some(bounds) = sweep.gives_right_within() {
            return leaf.each_within(bounds, into, taker);
        }
    }
    true
}

// Does the same for the right side.
#[inline(always)]
fn each_right<L: Leaf, E, T: SpanTaker<E>>(
    sweep: &mut Sweep,
    _left: &Node<L>,
    right: &mut Node<L>,
    into: &mut E,
    taker: &mut T,
) -> bool
    requires sound { IsSoundNode L.Leaf right.old }
    requires awaits { AwaitsRight sweep.old }
    requires fits { Fits sweep.old (node_list L.Leaf _left.now) (node_list L.Leaf right.old) }
    requires ready { T.is_ready into.old taker.old (still sweep.old (node_list L.Leaf _left.now) (node_list L.Leaf right.old)) }
    ensures sound { IsSoundNode L.Leaf right.new }
    ensures fits { Fits sweep.new (node_list L.Leaf _left.now) (node_list L.Leaf right.new) }
    ensures takes { TakesSome T.takes
        (still sweep.old (node_list L.Leaf _left.now) (node_list L.Leaf right.old)) into.old taker.old
        (still sweep.new (node_list L.Leaf _left.now) (node_list L.Leaf right.new)) into.new taker.new result }
    ensures ready { IsTrue result
        → T.is_ready into.new taker.new (still sweep.new (node_list L.Leaf _left.now) (node_list L.Leaf right.new)) }
    ensures fewer { IsTrue result → length (node_list L.Leaf right.new) + unended_sides sweep.new
        < length (node_list L.Leaf right.old) + unended_sides sweep.old }
    ensures no_more { length (still sweep.new (node_list L.Leaf _left.now) (node_list L.Leaf right.new))
        ≤ length (still sweep.old (node_list L.Leaf _left.now) (node_list L.Leaf right.old)) }
    ensures shape { node_shape L.Leaf right.new ≡ node_shape L.Leaf right.old }
    ensures whole { node_whole L.Leaf right.new ≡ node_whole L.Leaf right.old }
{
    while each_given_right(sweep, _left, right, into, taker) {
        let Some(x) = right.next() else {
            sweep.tell(None);
            return true;
        };
        if !sweep.gives_right(x) {
            sweep.tell(Some(x));
            return true;
        }
        if !taker.take(into, x) {
            return false;
        }
    }
    false
}

// Hands on the spans of a sweep over two nodes.
fn each_of_two<L: Leaf, E, T: SpanTaker<E>>(
    sweep: &mut Sweep,
    left: &mut Node<L>,
    right: &mut Node<L>,
    into: &mut E,
    taker: &mut T,
) -> bool
    requires left_sound { IsSoundNode L.Leaf left.old }
    requires right_sound { IsSoundNode L.Leaf right.old }
    requires fits { Fits sweep.old (node_list L.Leaf left.old) (node_list L.Leaf right.old) }
    requires ready { T.is_ready into.old taker.old (still sweep.old (node_list L.Leaf left.old) (node_list L.Leaf right.old)) }
    ensures left_sound { IsSoundNode L.Leaf left.new }
    ensures right_sound { IsSoundNode L.Leaf right.new }
    ensures fits { Fits sweep.new (node_list L.Leaf left.new) (node_list L.Leaf right.new) }
    ensures hands_on { HandsOn T.takes
        (still sweep.old (node_list L.Leaf left.old) (node_list L.Leaf right.old)) into.old taker.old
        (still sweep.new (node_list L.Leaf left.new) (node_list L.Leaf right.new)) into.new taker.new result }
    ensures left_shape { node_shape L.Leaf left.new ≡ node_shape L.Leaf left.old }
    ensures right_shape { node_shape L.Leaf right.new ≡ node_shape L.Leaf right.old }
    ensures left_whole { node_whole L.Leaf left.new ≡ node_whole L.Leaf left.old }
    ensures right_whole { node_whole L.Leaf right.new ≡ node_whole L.Leaf right.old }
{
    loop {
        let more = match sweep.step() {
            Ask::Left => {
                skip_left(sweep, left, right);
                each_left(sweep, left, right, into, taker)
            }
            Ask::Right => {
                skip_right(sweep, left, right);
                each_right(sweep, left, right, into, taker)
            }
            Ask::Give(x) => taker.take(into, x),
            Ask::End => return true,
        };
        if !more {
            return false;
        }
    }
}

// Hands on the gaps between the spans of a sweep over two nodes.
#[inline(always)]
fn each_gap_of_two<L: Leaf, E, T: SpanTaker<E>>(
    within: &mut Sweep,
    left: &mut Node<L>,
    right: &mut Node<L>,
    into: &mut E,
    gaps: &mut Gaps<'_, T>,
) -> (bool, Sweep)
    requires left_sound { IsSoundNode L.Leaf left.old }
    requires right_sound { IsSoundNode L.Leaf right.old }
    requires fits { Fits within.old (node_list L.Leaf left.old) (node_list L.Leaf right.old) }
    requires ready { IsReadyForGap T.is_ready into.old gaps.old.sweep gaps.old.taker.now
        (still within.old (node_list L.Leaf left.old) (node_list L.Leaf right.old)) }
    ensures left_sound { IsSoundNode L.Leaf left.new }
    ensures right_sound { IsSoundNode L.Leaf right.new }
    ensures fits { Fits within.new (node_list L.Leaf left.new) (node_list L.Leaf right.new) }
    ensures same_taker { gaps.new.taker.ghost_name ≡ gaps.old.taker.ghost_name }
    ensures took { TookGaps T.is_ready T.takes
        (still within.old (node_list L.Leaf left.old) (node_list L.Leaf right.old))
        (still within.new (node_list L.Leaf left.new) (node_list L.Leaf right.new))
        into.old into.new gaps.old.sweep result.1 gaps.old.taker.now gaps.new.taker.now result.0 }
    ensures left_shape { node_shape L.Leaf left.new ≡ node_shape L.Leaf left.old }
    ensures right_shape { node_shape L.Leaf right.new ≡ node_shape L.Leaf right.old }
    ensures left_whole { node_whole L.Leaf left.new ≡ node_whole L.Leaf left.old }
    ensures right_whole { node_whole L.Leaf right.new ≡ node_whole L.Leaf right.old }
{
    let more = each_of_two(within, left, right, into, gaps);
    (more, gaps.sweep)
}

// Hands on the gaps between the spans of a node, which a sweep asks for, if that is a sweep over two nodes and hands them on in a
// loop.
#[inline(always)]
fn each_gap<L: Leaf, E, T: SpanTaker<E>>(
    sweep: &mut Sweep,
    inner: &mut Node<L>,
    into: &mut E,
    taker: &mut T,
) -> bool
    requires sound { IsSoundNode L.Leaf inner.old }
    requires one_side { HasOneSide sweep.old }
    requires awaits { AwaitsLeft sweep.old }
    requires fits { Fits sweep.old (node_list L.Leaf inner.old) [] }
    requires ready { T.is_ready into.old taker.old (still sweep.old (node_list L.Leaf inner.old) []) }
    ensures sound { IsSoundNode L.Leaf inner.new }
    ensures one_side { HasOneSide sweep.new }
    ensures awaits { AwaitsLeft sweep.new }
    ensures fits { Fits sweep.new (node_list L.Leaf inner.new) [] }
    ensures takes { TakesSome T.takes (still sweep.old (node_list L.Leaf inner.old) []) into.old taker.old
        (still sweep.new (node_list L.Leaf inner.new) []) into.new taker.new result }
    ensures ready { IsTrue result → T.is_ready into.new taker.new (still sweep.new (node_list L.Leaf inner.new) []) }
    ensures fewer { length (node_list L.Leaf inner.new) ≤ length (node_list L.Leaf inner.old) }
    ensures no_more { length (still sweep.new (node_list L.Leaf inner.new) [])
        ≤ length (still sweep.old (node_list L.Leaf inner.old) []) }
    ensures count { unended_sides sweep.new ≤ unended_sides sweep.old }
    ensures shape { node_shape L.Leaf inner.new ≡ node_shape L.Leaf inner.old }
    ensures whole { node_whole L.Leaf inner.new ≡ node_whole L.Leaf inner.old }
{
    if let Node::Two(within, _, both) = inner {
        let (left, right) = &mut **both;
        let mut gaps = Gaps {
            sweep: *sweep,
            taker: &mut *taker,
        };
        let (more, swept) = each_gap_of_two(within, left, right, into, &mut gaps);
        *sweep = swept;
        return more;
    }
    true
}

// Hands on the spans of a sweep over one node.
fn each_outside<L: Leaf, E, T: SpanTaker<E>>(
    sweep: &mut Sweep,
    inner: &mut Node<L>,
    into: &mut E,
    taker: &mut T,
) -> bool
    requires sound { IsSoundNode L.Leaf inner.old }
    requires one_side { HasOneSide sweep.old }
    requires fits { Fits sweep.old (node_list L.Leaf inner.old) [] }
    requires ready { T.is_ready into.old taker.old (still sweep.old (node_list L.Leaf inner.old) []) }
    ensures sound { IsSoundNode L.Leaf inner.new }
    ensures one_side { HasOneSide sweep.new }
    ensures fits { Fits sweep.new (node_list L.Leaf inner.new) [] }
    ensures hands_on { HandsOn T.takes (still sweep.old (node_list L.Leaf inner.old) []) into.old taker.old
        (still sweep.new (node_list L.Leaf inner.new) []) into.new taker.new result }
    ensures shape { node_shape L.Leaf inner.new ≡ node_shape L.Leaf inner.old }
    ensures whole { node_whole L.Leaf inner.new ≡ node_whole L.Leaf inner.old }
{
    loop {
        match sweep.step() {
            Ask::Left => {
                if !each_gap(sweep, inner, into, taker) {
                    return false;
                }
                let told = inner.next();
                sweep.tell(told);
            }
            Ask::Right => unreachable!(),
            Ask::Give(x) => {
                if !taker.take(into, x) {
                    return false;
                }
            }
            Ask::End => return true,
        }
    }
}

// Hands on first spans of a node, if it is a leaf and hands them on in a loop.
#[inline(always)]
fn each_of_leaf<L: Leaf, E, T: SpanTaker<E>>(
    node: &mut Node<L>,
    into: &mut E,
    taker: &mut T,
) -> bool
    requires sound { IsSoundNode L.Leaf node.old }
    requires ready { T.is_ready into.old taker.old (node_list L.Leaf node.old) }
    ensures sound { IsSoundNode L.Leaf node.new }
    ensures takes { TakesSome T.takes (node_list L.Leaf node.old) into.old taker.old
        (node_list L.Leaf node.new) into.new taker.new result }
    ensures ready { IsTrue result → T.is_ready into.new taker.new (node_list L.Leaf node.new) }
    ensures fewer { length (node_list L.Leaf node.new) ≤ length (node_list L.Leaf node.old) }
    ensures shape { node_shape L.Leaf node.new ≡ node_shape L.Leaf node.old }
    ensures whole { node_whole L.Leaf node.new ≡ node_whole L.Leaf node.old }
{
    if let Node::Leaf(leaf) = node {
        return leaf.each_within(Bounds::ALL, into, taker);
    }
    true
}

// Hands on the spans of a node, one call for each.
fn each_next<L: Leaf, E, T: SpanTaker<E>>(node: &mut Node<L>, into: &mut E, taker: &mut T) -> bool
    requires sound { IsSoundNode L.Leaf node.old }
    requires ready { T.is_ready into.old taker.old (node_list L.Leaf node.old) }
    ensures sound { IsSoundNode L.Leaf node.new }
    ensures hands_on { HandsOn T.takes (node_list L.Leaf node.old) into.old taker.old
        (node_list L.Leaf node.new) into.new taker.new result }
    ensures shape { node_shape L.Leaf node.new ≡ node_shape L.Leaf node.old }
    ensures whole { node_whole L.Leaf node.new ≡ node_whole L.Leaf node.old }
{
    while each_of_leaf(node, into, taker) {
        let Some(x) = node.next() else {
            return true;
        };
        if !taker.take(into, x) {
            return false;
        }
    }
    false
}

// Hands on the spans of a node.
#[inline(always)]
fn each_of<L: Leaf, E, T: SpanTaker<E>>(node: &mut Node<L>, into: &mut E, taker: &mut T) -> bool
    requires sound { IsSoundNode L.Leaf node.old }
    requires ready { T.is_ready into.old taker.old (node_list L.Leaf node.old) }
    ensures sound { IsSoundNode L.Leaf node.new }
    ensures hands_on { HandsOn T.takes (node_list L.Leaf node.old) into.old taker.old
        (node_list L.Leaf node.new) into.new taker.new result }
    ensures shape { node_shape L.Leaf node.new ≡ node_shape L.Leaf node.old }
    ensures whole { node_whole L.Leaf node.new ≡ node_whole L.Leaf node.old }
{
    match node {
        Node::One(sweep, _, inner) => each_outside(sweep, inner, into, taker),
        Node::Two(sweep, _, both) => {
            let (left, right) = &mut **both;
            each_of_two(sweep, left, right, into, taker)
        }
        node => each_next(node, into, taker),
    }
}

impl<L: Leaf> SweepTree<L> {
    ghost use Rattle.gtd_eval.specs.Cursors.{cursor_list, cursor_whole, cursor_size};

    /// Hands the spans that are still to come to a taker, each as it is found, until it asks for no more. Answers whether all
    /// were handed on. These are the spans that `next` would hand out, call after call. The taker must be ready for them.
    #[inline(always)]
    pub fn each<E, T: SpanTaker<E>>(&mut self, into: &mut E, taker: &mut T) -> bool
        requires ready { T.is_ready into.old taker.old (cursor_list self.old) }
        ensures hands_on { HandsOn T.takes (cursor_list self.old) into.old taker.old
            (cursor_list self.new) into.new taker.new result }
        ensures whole { cursor_whole self.new ≡ cursor_whole self.old }
        ensures size { cursor_size self.new ≡ cursor_size self.old }
    {
        self.moved = true;
        each_of(&mut self.node, into, taker)
    }
}
