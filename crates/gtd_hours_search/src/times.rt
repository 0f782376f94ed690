//! Ranges of times.

ghost use Rattle.std.specs.Prelude.{◌≡◌, ◌↔◌, ◌<◌, IfOk, IsSome, IsTrue, None};
ghost use Rattle.std.specs.Option.{IsSomeAnd};
ghost use Rattle.gtd_core.specs.Parts.{duration_parts, start_parts};
ghost use Rattle.gtd_core.specs.Trees.{tree_of};
ghost use Rattle.gtd_hours.specs.Ranges.{end_of};
ghost use Rattle.gtd_hours.specs.declared.hours.TimeRange.{TimeRange};
ghost use Rattle.gtd_hours_search.specs.Forms.{AreClocks, IsClock, IsClockOf, IsLateClock, NamesNoDay};

use gtd_core::{Basic, Expr, Op, StartParts};
use gtd_hours::TimeRange;
use std::alloc::{AllocError, Global};

const DAY_MINUTES: u16 = 1_440;

/// A range of times, and whether it ends on a later day than it begins.
#[derive(Clone, Copy)]
pub struct Time {
    pub range: TimeRange,
    pub is_late: bool,
}

// Whether a start names no day.
fn is_daily(parts: StartParts) -> bool
    ensures { NamesNoDay parts → parts.day ≡ None → IsTrue result }
{
    parts.year.is_none()
        && parts.month.is_none()
        && parts.week.is_none()
        && parts.day.is_none()
        && parts.nth.is_none()
        && parts.nth_back.is_none()
        && parts.weekdays == 0
}

/// The range of times of a basic domain, if it lasts some minutes from a clock of each day on.
pub fn time_of(basic: &Basic) -> Option<Time>
    ensures { (time : TimeRange) → IsClockOf time (start_parts basic.now.start) (duration_parts basic.now.duration)
        → IsSomeAnd result (λ x. (x.range.begin ≡ time.begin)
        × (end_of x.range.begin x.range.last ≡ end_of time.begin time.last)
        × (IsTrue x.is_late ↔ (1440 < end_of time.begin time.last))) }
{
    let parts = basic.start.parts();
    let minutes = basic.duration.parts().minutes;
    if !is_daily(parts) || minutes == 0 || minutes > u32::from(DAY_MINUTES) {
        return None;
    }
    let begin = u16::from(parts.hour?) * 60 + u16::from(parts.minute?);
    let end = begin + minutes as u16;
    let is_late = end > DAY_MINUTES;
    let last = if is_late { end - DAY_MINUTES } else { end };
    let range = TimeRange::new(begin, last)?;
    Some(Time { range, is_late })
}

/// The time of an expression that is such a basic domain.
pub fn single_time(expr: &Expr) -> Option<Time>
    ensures found { IsClock (tree_of expr.now) → IsSome result }
    ensures late { IsLateClock (tree_of expr.now) → IsSomeAnd result (λ x. IsTrue x.is_late) }
{
    match expr {
        Expr::Leaf(basic) => time_of(basic),
        Expr::Join(_, _, _) => None,
    }
}

/// The ranges of times of a chain of such basic domains.
pub fn times_of(alloc: Global, expr: &Expr) -> Result<Option<Vec<TimeRange>>, AllocError>
    ensures { AreClocks (tree_of expr.now) → IfOk result IsSome }
{
    match expr {
        Expr::Leaf(_) => push_time(Vec::new(alloc), single_time(expr)),
        Expr::Join(op, left, right) => {
            if *op != Op::Union {
                return Ok(None);
            }
            match times_of(alloc, left)? {
                Some(times) => push_time(times, single_time(right)),
                None => Ok(None),
            }
        }
    }
}

fn push_time(
    times: Vec<TimeRange>,
    time: Option<Time>,
) -> Result<Option<Vec<TimeRange>>, AllocError>
    ensures { IsSome time → IfOk result IsSome }
{
    let Some(time) = time else {
        return Ok(None);
    };
    let mut more = times;
    more.push(time.range)?;
    Ok(Some(more))
}
