//! How far two domains are found to agree, in pieces of time in which no basic domain with a date changes.

ghost use Rattle.std.specs.Prelude.{◌≡◌, ◌↔◌, ◌≤ℤ◌, ℤ, IfOk, IsTrue};
ghost use Rattle.gtd_core.specs.Seconds.{Within};
ghost use Rattle.gtd_core.specs.Whole.{whole};
ghost use Rattle.gtd_eval.specs.Membership.{InDomain, InTree};
ghost use Rattle.gtd_difference.specs.Difference.{HasNoneAlone};
ghost use Rattle.gtd_difference.specs.Memory.{AreNever, IsNever};
ghost use Rattle.gtd_difference.specs.Pieces.{AreKnown, HasNone, InFixed, states_tree};

use crate::basic_state::STEPS_OF_A_STAY;
use crate::memory::Memory;
use crate::states::{ExprStates, fix, fixed_stay, longest_period, states_of};
use gtd_core::{Domain, Expr, Horizon, Op, Sec, StartParts};
use gtd_eval::{Period, is_weekly};
use std::alloc::{AllocError, Global};

// The days of a week, and its seconds.
const WEEK_DAYS: i64 = 7;

const WEEK_SECONDS: i64 = 604_800;

// The days of a month, the weeks and the months of a year, and the years after which days have the same dates.
const MONTH_DAYS: i64 = 31;

const YEAR_WEEKS: i64 = 53;

const YEAR_MONTHS: i64 = 12;

const CYCLE_YEARS: i64 = 400;

// How many pieces are gone over.
const MOST_PIECES: usize = 400_000;

// How many steps are taken besides the first ones, which is less than a second.
const MOST_STEPS: i64 = 200_000_000;

// How many expressions with fixed dates are remembered.
const MOST_FORMS: usize = 256;

// How many stays are gone over in a piece.
const MOST_STAYS: usize = 1_000_000;

// How many starts each week may be swept on all days of 400 years in less than a second.
const FEW_STARTS: i64 = 168;

// How many steps take a fourth of the time in which a start is swept, besides one for every four basic domains.
const STEPS_OF_A_START: i64 = 4;

// How many basic domains are looked at in the time in which one is fixed, and compared with what is remembered.
const STEPS_OF_A_LEAF: i64 = 3;

// How many periods may be gone over at first.
const FIRST_PERIODS: i64 = 4;

// The seconds, about 90 days, that may be swept in the time of pieces that are of no use.
const SECONDS_TO_TRY: i64 = 7_776_000;

// How often basic domains begin in a week on average, or less often; and in one in which each date holds.
#[derive(Clone, Copy)]
struct Starts {
    some: i64,
    most: i64,
}

impl Starts {
    fn and(self, other: Starts) -> Starts {
        Starts {
            some: self.some.saturating_add(other.some),
            most: self.most.saturating_add(other.most),
        }
    }
}

// A second from the given one on, before which the expression with fixed dates has none. It is looked for up to the last second,
// stay by stay.
fn none_fixed_until(
    states: &mut ExprStates,
    from: Sec,
    last: Sec,
    days: Horizon,
    steps: &mut i64,
) -> Sec
    requires known { AreKnown (whole days).until states.old }
    requires begun { (whole days).from ≤ℤ from.0 }
    requires last { last.0 ≤ℤ (whole days).until }
    ensures tree { states_tree states.new ≡ states_tree states.old }
    ensures known { AreKnown (whole days).until states.new }
    ensures later { from.0 ≤ℤ result.0 }
    ensures none { HasNone (InFixed states.old) from.0 result.0 }
    ensures fixed { (t : ℤ) → InFixed states.new t ↔ InFixed states.old t }
{
    let leaves = leaves_of(states);
    let mut at = from;
    for _ in 0..MOST_STAYS {
        if at.0 >= last.0 || *steps <= 0 {
            return at;
        }
        *steps = steps.saturating_sub(leaves);
        let stay = fixed_stay(states, at, days, steps);
        if stay.holds {
            return at;
        }
        at = stay.until;
    }
    at
}

// Up to where an expression was found to have no second, and whether it has none ever as it is fixed there, which is new.
#[derive(Clone, Copy)]
struct Piece {
    until: Sec,
    is_new: bool,
}

// A second from the given one on, before which the expression has none: at most the end of the piece of time in which no basic
// domain with a date changes. What is left of the expression repeats, so that its period is enough.
fn none_until(
    states: &mut ExprStates,
    memory: &Memory,
    at: Sec,
    days: Horizon,
    steps: &mut i64,
) -> Piece
    requires known { AreKnown (whole days).until states.old }
    requires never { AreNever memory.now }
    requires inside { Within (whole days) at.0 }
    ensures tree { states_tree states.new ≡ states_tree states.old }
    ensures known { AreKnown (whole days).until states.new }
    ensures later { at.0 ≤ℤ result.until.0 }
    ensures none { HasNone (InTree (states_tree states.old)) at.0 result.until.0 }
    ensures new { IsTrue result.is_new → IsNever (InFixed states.new) }
{
    let until = fix(states, at, days, steps);
    if memory.has(states) {
        return Piece {
            until,
            is_new: false,
        };
    }
    let period = longest_period(states);
    let repeated = Sec(at.0 + period.seconds());
    let last = days.until().earlier(repeated);
    let reached = none_fixed_until(states, at, last, days, steps);
    if reached.0 >= repeated.0 {
        return Piece {
            until,
            is_new: true,
        };
    }
    Piece {
        until: reached.earlier(until),
        is_new: false,
    }
}

// How many basic domains the expression has.
fn leaves_of(states: &ExprStates) -> i64 {
    match states {
        ExprStates::Basic(_) => 1,
        ExprStates::Dated(_) => 1,
        ExprStates::Join(_, both) => {
            let (left, right) = &**both;
            leaves_of(left).saturating_add(leaves_of(right))
        }
    }
}

// The steps that take a fourth of the time of sweeping a week with so many starts of so many basic domains.
fn weekly_steps(starts: i64, leaves: i64) -> i64 {
    starts.saturating_mul(STEPS_OF_A_START.saturating_add(leaves / 4))
}

// The steps that take a fourth of the time of sweeping some seconds, from those of a week.
fn steps_for(seconds: i64, weekly: i64) -> i64 {
    seconds.saturating_mul(weekly) / WEEK_SECONDS
}

// The steps that are taken at first: those of a few periods with so many starts each week. For each start there are two stays,
// each of which is found and gone over.
fn first_steps(period: Period, starts: i64, leaves: i64) -> i64 {
    let of_a_start = leaves.saturating_add(STEPS_OF_A_STAY).saturating_mul(2);
    let of_a_week = starts.saturating_mul(of_a_start);
    let of_a_period = steps_for(period.seconds(), of_a_week);
    let more = steps_for(SECONDS_TO_TRY, weekly_steps(starts, leaves));
    of_a_period
        .saturating_mul(FIRST_PERIODS)
        .saturating_add(more)
}

// The expressions that never have a second, and one more if it is new and not too many are remembered.
fn remembered(
    alloc: Global,
    memory: Memory,
    states: &ExprStates,
    is_new: bool,
    fresh: &mut usize,
) -> Result<Memory, AllocError>
    requires never { AreNever memory }
    requires more { IsTrue is_new → IsNever (InFixed states.now) }
    ensures never { IfOk result AreNever }
{
    if !is_new || *fresh == 0 {
        return Ok(memory);
    }
    *fresh -= 1;
    memory.with(alloc, states)
}

// A second from the given one on, before which the expression has none, found piece by piece. No more steps are taken than take
// a part of the time of sweeping the seconds before it, and some more.
fn none_by_pieces(
    alloc: Global,
    states: &mut ExprStates,
    from: Sec,
    days: Horizon,
    starts: Starts,
) -> Result<Sec, AllocError>
    requires known { AreKnown (whole days).until states.old }
    requires begun { (whole days).from ≤ℤ from.0 }
    ensures later { IfOk result (λ at. from.0 ≤ℤ at.0) }
    ensures none { IfOk result (λ at. HasNone (InTree (states_tree states.old)) from.0 at.0) }
{
    let end = days.until();
    let leaves = leaves_of(states);
    let each = leaves.saturating_mul(STEPS_OF_A_LEAF);
    let weekly = weekly_steps(starts.some, leaves);
    let mut steps = first_steps(longest_period(states), starts.most, leaves);
    let mut rest = MOST_STEPS;
    let mut fresh = MOST_FORMS;
    let mut memory = Memory::Empty;
    let mut at = from;
    for _ in 0..MOST_PIECES {
        if at.0 >= end.0 {
            return Ok(at);
        }
        let piece = none_until(states, &memory, at, days, &mut steps);
        if piece.until.0 <= at.0 {
            return Ok(at);
        }
        memory = remembered(alloc, memory, states, piece.is_new, &mut fresh)?;
        let passed = piece.until.0.saturating_sub(at.0);
        let more = steps_for(passed, weekly).min(rest);
        rest = rest.saturating_sub(more);
        steps = steps.saturating_add(more).saturating_sub(each);
        at = piece.until;
    }
    Ok(at)
}

// How often a basic domain that gives these begins in a day that has its date.
fn daily_starts(parts: &StartParts) -> i64 {
    if parts.minute.is_none() && parts.second.is_none() {
        return 1;
    }
    match (parts.hour.is_some(), parts.minute.is_some()) {
        (true, true) => 1,
        (true, false) => 60,
        (false, true) => 24,
        (false, false) => 1_440,
    }
}

// The same in a week.
fn starts_of_basic(parts: &StartParts) -> Starts {
    let most = daily_starts(parts).saturating_mul(WEEK_DAYS);
    let mut some = most;
    if parts.year.is_some() {
        some /= CYCLE_YEARS;
    }
    if parts.month.is_some() {
        some /= YEAR_MONTHS;
    }
    if parts.week.is_some() {
        some /= YEAR_WEEKS;
    }
    if parts.day.is_some() || parts.nth.is_some() || parts.nth_back.is_some() {
        some /= MONTH_DAYS;
    }
    if parts.weekdays != 0 {
        some /= WEEK_DAYS;
    }
    Starts { some, most }
}

// How often the basic domains of an expression begin in a week.
fn starts_of(expr: &Expr) -> Starts {
    match expr {
        Expr::Leaf(basic) => starts_of_basic(&basic.start.parts()),
        Expr::Join(_, left, right) => starts_of(left).and(starts_of(right)),
    }
}

/// A second from the given one on, before which the domain has none that the other has not. If it is before the end of the days,
/// it may be the first that the domain has alone; or it is left to the sweep, which finds that sooner.
/// Domains that both repeat after 7 days are not gone over, and neither are those whose basic domains without a date begin so
/// seldom that the sweep is fast.
pub(crate) fn none_alone_until(
    alloc: Global,
    domain: &Domain,
    other: &Domain,
    from: Sec,
    days: Horizon,
) -> Result<Sec, AllocError>
    requires begun { (whole days).from ≤ℤ from.0 }
    ensures later { IfOk result (λ at. from.0 ≤ℤ at.0) }
    ensures none { IfOk result (λ at. HasNoneAlone (InDomain domain.now) (InDomain other.now) from.0 at.0) }
{
    if is_weekly(domain) && is_weekly(other) {
        return Ok(from);
    }
    let expr = domain.expr();
    let other_expr = other.expr();
    let starts = starts_of(expr).and(starts_of(other_expr));
    if starts.some < FEW_STARTS {
        return Ok(from);
    }
    let held = states_of(alloc, expr, days)?;
    let taken = states_of(alloc, other_expr, days)?;
    let both = Box::new(alloc, (held, taken))?;
    let mut states = ExprStates::Join(Op::Minus, both);
    none_by_pieces(alloc, &mut states, from, days, starts)
}
