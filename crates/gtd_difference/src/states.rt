//! Whether the basic domains of an expression hold at a second, and how long each stays so.

ghost use Rattle.std.specs.Prelude.{◌≡◌, ◌↔◌, ◌<ℤ◌, ◌≤ℤ◌, ℤ, IfOk};
ghost use Rattle.gtd_core.specs.Seconds.{Within};
ghost use Rattle.gtd_core.specs.Trees.{tree_of};
ghost use Rattle.gtd_core.specs.Whole.{whole};
ghost use Rattle.gtd_recur.specs.Periods.{period_seconds};
ghost use Rattle.gtd_eval.specs.Membership.{InTree};
ghost use Rattle.gtd_eval.specs.Stays.{IsStay};
ghost use Rattle.gtd_difference.specs.Difference.{single_of};
ghost use Rattle.gtd_difference.specs.Pieces.{AreKnown, HaveShortPeriods, InFixed, states_tree};

use crate::basic_state::BasicState;
use crate::basics::single;
use crate::dated::DatedState;
use gtd_core::{Basic, Expr, Horizon, Op, Sec};
use gtd_eval::{Period, Stay};
use std::alloc::{AllocError, Global};

/// The states of the basic domains of an expression.
#[derive(Drop)]
pub(crate) enum ExprStates {
    Basic(BasicState),
    Dated(DatedState),
    Join(Op, Box<(ExprStates, ExprStates)>),
}

// The state of a basic domain of which no second is known yet.
fn state_of(basic: &Basic, days: Horizon) -> ExprStates
    ensures tree { states_tree result ≡ single_of basic.now }
    ensures known { AreKnown (whole days).until result }
{
    match DatedState::of(basic, days) {
        Some(state) => ExprStates::Dated(state),
        None => ExprStates::Basic(BasicState::new(single(basic), days)),
    }
}

/// The states of an expression of which no second is known yet.
pub(crate) fn states_of(alloc: Global, expr: &Expr, days: Horizon) -> Result<ExprStates, AllocError>
    ensures tree { IfOk result (λ states. states_tree states ≡ tree_of expr.now) }
    ensures known { IfOk result (AreKnown (whole days).until) }
{
    match expr {
        Expr::Leaf(basic) => Ok(state_of(basic, days)),
        Expr::Join(op, left, right) => {
            let left = states_of(alloc, left, days)?;
            let right = states_of(alloc, right, days)?;
            let both = Box::new(alloc, (left, right))?;
            Ok(ExprStates::Join(*op, both))
        }
    }
}

/// The longest period of the basic domains that repeat, or a minute if none does.
pub(crate) fn longest_period(states: &ExprStates) -> Period
    ensures longest { HaveShortPeriods (period_seconds result) states.now }
{
    match states {
        ExprStates::Basic(state) => match state.period {
            Some(period) => period,
            None => Period::Minute,
        },
        ExprStates::Dated(state) => state.period,
        ExprStates::Join(_, both) => {
            let (left, right) = &**both;
            let first = longest_period(left);
            let second = longest_period(right);
            first.longer(second)
        }
    }
}

/// Fixes the basic domains with a date as they are at a second. The first later second, or an earlier one, at which one of them
/// is not so any more; or else the end of the days.
pub(crate) fn fix(states: &mut ExprStates, at: Sec, days: Horizon, steps: &mut i64) -> Sec
    requires known { AreKnown (whole days).until states.old }
    requires inside { Within (whole days) at.0 }
    ensures tree { states_tree states.new ≡ states_tree states.old }
    ensures known { AreKnown (whole days).until states.new }
    ensures later { at.0 <ℤ result.0 }
    ensures within { result.0 ≤ℤ (whole days).until }
    ensures fixed { (t : ℤ) → at.0 ≤ℤ t → t <ℤ result.0 → InFixed states.new t ↔ InTree (states_tree states.old) t }
{
    match states {
        ExprStates::Basic(state) => {
            if state.period.is_some() {
                return days.until();
            }
            state.reach(at, days, steps);
            state.until
        }
        ExprStates::Dated(state) => state.fix(at, days, steps),
        ExprStates::Join(_, both) => {
            let (left, right) = &mut **both;
            let first = fix(left, at, days, steps);
            let second = fix(right, at, days, steps);
            first.earlier(second)
        }
    }
}

/// The stay, at a second, of the expression in which the basic domains with a date are fixed.
pub(crate) fn fixed_stay(states: &mut ExprStates, at: Sec, days: Horizon, steps: &mut i64) -> Stay
    requires known { AreKnown (whole days).until states.old }
    requires inside { Within (whole days) at.0 }
    ensures tree { states_tree states.new ≡ states_tree states.old }
    ensures known { AreKnown (whole days).until states.new }
    ensures fixed { (t : ℤ) → InFixed states.new t ↔ InFixed states.old t }
    ensures stays { IsStay (InFixed states.old) at.0 (whole days).until result }
{
    match states {
        ExprStates::Basic(state) => {
            if state.period.is_none() {
                return Stay {
                    holds: state.holds,
                    until: days.until(),
                };
            }
            state.reach(at, days, steps);
            Stay {
                holds: state.holds,
                until: state.until,
            }
        }
        ExprStates::Dated(state) => state.stay(at, days, steps),
        ExprStates::Join(op, both) => {
            let (left, right) = &mut **both;
            let first = fixed_stay(left, at, days, steps);
            let second = fixed_stay(right, at, days, steps);
            Stay::joined(*op, first, second)
        }
    }
}
