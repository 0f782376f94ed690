//! The rules of two parts that an operator joins.

ghost use Rattle.std.specs.Prelude.{◌↔◌, IsTrue};
ghost use Rattle.gtd_core.specs.Parts.{duration_parts, start_parts};
ghost use Rattle.gtd_core.specs.Trees.{tree_of};
ghost use Rattle.gtd_mistakes.specs.Rules.{AreDaily, AreDays, AreOneAndOther, DoDaysCutNights, DoesSeasonCutNights};
ghost use Rattle.gtd_mistakes.specs.Rules.{HoldsOfJoin, IsNight, IsProductFirst, IsProductOfDaily, IsSeason};
ghost use Rattle.gtd_mistakes.specs.Shapes.{HasNoClock, IsDaily};

use crate::rule::Rule;
use crate::shapes::{
    ends_after_midnight, has_no_clock, has_no_other_day, is_daily, is_month_alone,
};
use gtd_core::{Basic, Expr, Op};

// Whether the basic domain is weekdays, without a time, for whole days.
fn are_days(basic: &Basic) -> bool
    ensures { IsTrue result ↔ AreDays (start_parts basic.now.start) (duration_parts basic.now.duration) }
{
    let start = basic.start.parts();
    has_no_other_day(&start)
        && start.weekdays != 0
        && has_no_clock(&start)
        && basic.duration.whole_months() == 0
        && basic.duration.whole_days() > 0
        && basic.duration.clock() == 0
}

// Whether it is a month alone, for whole months.
fn is_season(basic: &Basic) -> bool
    ensures { IsTrue result ↔ IsSeason (start_parts basic.now.start) (duration_parts basic.now.duration) }
{
    is_month_alone(&basic.start.parts())
        && basic.duration.whole_months() > 0
        && basic.duration.whole_days() == 0
        && basic.duration.clock() == 0
}

// Whether it is a time of each day, until after midnight.
fn is_night(basic: &Basic) -> bool
    ensures { IsTrue result ↔ IsNight (start_parts basic.now.start) (duration_parts basic.now.duration) }
{
    let start = basic.start.parts();
    is_daily(&start) && ends_after_midnight(&start, &basic.duration)
}

fn are_days_and_nights(left: &Expr, right: &Expr) -> bool
    ensures { IsTrue result ↔ AreOneAndOther AreDays IsNight (tree_of left.now) (tree_of right.now) }
{
    match left {
        Expr::Leaf(first) => match right {
            Expr::Leaf(second) => {
                (are_days(first) && is_night(second)) || (is_night(first) && are_days(second))
            }
            Expr::Join(_, _, _) => false,
        },
        Expr::Join(_, _, _) => false,
    }
}

fn are_season_and_nights(left: &Expr, right: &Expr) -> bool
    ensures { IsTrue result ↔ AreOneAndOther IsSeason IsNight (tree_of left.now) (tree_of right.now) }
{
    match left {
        Expr::Leaf(first) => match right {
            Expr::Leaf(second) => {
                (is_season(first) && is_night(second)) || (is_night(first) && is_season(second))
            }
            Expr::Join(_, _, _) => false,
        },
        Expr::Join(_, _, _) => false,
    }
}

fn are_daily_and_dateful(left: &Expr, right: &Expr) -> bool
    ensures { IsTrue result ↔ AreOneAndOther (λ start duration. IsDaily start) (λ start duration. HasNoClock start)
        (tree_of left.now) (tree_of right.now) }
{
    match left {
        Expr::Leaf(first) => match right {
            Expr::Leaf(second) => {
                let (one, other) = (first.start.parts(), second.start.parts());
                (is_daily(&one) && has_no_clock(&other)) || (has_no_clock(&one) && is_daily(&other))
            }
            Expr::Join(_, _, _) => false,
        },
        Expr::Join(_, _, _) => false,
    }
}

// Whether basic domains of a time of each day are joined by `+`.
fn are_daily(expr: &Expr) -> bool
    ensures { IsTrue result ↔ AreDaily (tree_of expr.now) }
{
    match expr {
        Expr::Leaf(basic) => is_daily(&basic.start.parts()),
        Expr::Join(op, left, right) => match op {
            Op::Union => are_daily(left) && are_daily(right),
            Op::Meet => false,
            Op::Minus => false,
        },
    }
}

// Whether a time of each day `*` a basic domain without a time.
fn is_product_of_daily(expr: &Expr) -> bool
    ensures { IsTrue result ↔ IsProductOfDaily (tree_of expr.now) }
{
    match expr {
        Expr::Leaf(_) => false,
        Expr::Join(op, left, right) => match op {
            Op::Union => false,
            Op::Meet => are_daily_and_dateful(left, right),
            Op::Minus => false,
        },
    }
}

fn do_days_cut_nights(op: Op, left: &Expr, right: &Expr) -> bool
    ensures { IsTrue result ↔ DoDaysCutNights op (tree_of left.now) (tree_of right.now) }
{
    op == Op::Meet && are_days_and_nights(left, right)
}

fn does_season_cut_nights(op: Op, left: &Expr, right: &Expr) -> bool
    ensures { IsTrue result ↔ DoesSeasonCutNights op (tree_of left.now) (tree_of right.now) }
{
    op == Op::Meet && are_season_and_nights(left, right)
}

fn is_product_first(op: Op, left: &Expr, right: &Expr) -> bool
    ensures { IsTrue result ↔ IsProductFirst op (tree_of left.now) (tree_of right.now) }
{
    op == Op::Union
        && ((are_daily(left) && is_product_of_daily(right))
            || (is_product_of_daily(left) && are_daily(right)))
}

/// Whether a rule holds of two parts and what joins them.
pub(crate) fn holds_of_join(rule: Rule, op: Op, left: &Expr, right: &Expr) -> bool
    ensures { IsTrue result ↔ HoldsOfJoin rule op (tree_of left.now) (tree_of right.now) }
{
    match rule {
        Rule::DaysCutNights => do_days_cut_nights(op, left, right),
        Rule::SeasonCutsNights => does_season_cut_nights(op, left, right),
        Rule::ProductFirst => is_product_first(op, left, right),
        _ => false,
    }
}
