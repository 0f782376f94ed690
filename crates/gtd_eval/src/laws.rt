//! Laws of the definitions.

ghost use Rattle.std.specs.Prelude.{◌↔◌, ◌+ℤ◌, ℤ};
ghost use Rattle.gtd_core.specs.Trees.{Tree};
ghost use Rattle.gtd_eval.specs.Ever.{cycle, week};
ghost use Rattle.gtd_eval.specs.Membership.{InTree, SomeGivesYear};
ghost use Rattle.gtd_eval.specs.Taking.{IsByNext};
ghost use Rattle.gtd_eval.specs.Weekly.{AllWeekly};

use crate::taker::SpanTaker;

/// An expression whose starts give no year contains a second exactly if it contains the one 146,097 days later. This
/// holds for every whole number, before 1970 too.
pub fn expressions_repeat()
    ensures repeats { (tree : Tree) (t : ℤ) → (SomeGivesYear tree → ⊥)
        → InTree tree t ↔ InTree tree (t +ℤ cycle) }
{}

/// An expression whose starts ask for nothing of a day except its weekday, and whose durations have no months and no
/// years, contains a second exactly if it contains the one 7 days later.
pub fn weekly_expressions_repeat()
    ensures repeats { (tree : Tree) (t : ℤ) → AllWeekly tree → InTree tree t ↔ InTree tree (t +ℤ week) }
{}

/// [`each`](crate::SweepTree::each) hands on what `next` would hand out, call after call: with no span it hands on nothing, and a
/// first span and then what is handed on of the others is what is handed on of them all.
pub fn spans_are_handed_on_one_by_one<E, T: SpanTaker<E>>()
    ensures next { IsByNext T.takes }
{}
