//! When steps close an element for a vehicle type.

ghost use Rattle.std.specs.Prelude.{◌≡◌, ◌≤◌, Some, IfOk};
ghost use Rattle.gtd_core.specs.Limits.{most_basic_domains};
ghost use Rattle.gtd_conditional_rows.specs.Timing.{times_in, timing_times};
ghost use Rattle.gtd_conditional_rows.specs.Times as spec;
ghost use Rattle.gtd_conditional_rows.specs.Times.{Never, leaves_in, times_after, times_by, times_of};

use crate::expr::{every_day, joined};
use crate::step::Step;
use gtd_conditional_means::Access;
use gtd_core::{Domain, Expr, Op};
use gtd_hours_leaves::copied;
use std::alloc::{AllocError, Global};

// Never, always, or at the seconds of an expression.
#[derive(Drop)]
pub(crate) enum Times {
    Never,
    Always,
    Within(Expr),
}

// When an element is closed: never, or at the seconds of a domain, or always.
#[derive(Drop)]
pub(crate) enum Timing {
    Never,
    Closed(Option<Domain>),
}

fn closed(alloc: Global, hours: &Expr, times: Times) -> Result<Times, AllocError>
    ensures { IfOk result (λ r. times_in r ≡ spec.said Access.Closed (Some hours.now) (times_in times)) }
{
    match times {
        Times::Never => Ok(Times::Within(copied(alloc, hours)?)),
        Times::Always => Ok(Times::Always),
        Times::Within(expr) => {
            let hours = copied(alloc, hours)?;
            Ok(Times::Within(joined(alloc, Op::Union, expr, hours)?))
        }
    }
}

fn opened(alloc: Global, hours: &Expr, times: Times) -> Result<Times, AllocError>
    ensures { IfOk result (λ r. times_in r ≡ spec.said Access.Open (Some hours.now) (times_in times)) }
{
    match times {
        Times::Never => Ok(Times::Never),
        Times::Always => {
            let hours = copied(alloc, hours)?;
            Ok(Times::Within(joined(alloc, Op::Minus, every_day(), hours)?))
        }
        Times::Within(expr) => {
            let hours = copied(alloc, hours)?;
            Ok(Times::Within(joined(alloc, Op::Minus, expr, hours)?))
        }
    }
}

fn said(
    alloc: Global,
    access: Access,
    hours: &Option<Expr>,
    times: Times,
) -> Result<Times, AllocError>
    ensures { IfOk result (λ r. times_in r ≡ spec.said access hours.now (times_in times)) }
{
    match access {
        Access::Closed => match hours {
            None => Ok(Times::Always),
            Some(hours) => closed(alloc, hours, times),
        },
        Access::Open => match hours {
            None => Ok(Times::Never),
            Some(hours) => opened(alloc, hours, times),
        },
    }
}

fn by(alloc: Global, step: &Step, vehicle: u8, times: Times) -> Result<Times, AllocError>
    ensures { IfOk result (λ r. times_in r ≡ times_by step.now vehicle (times_in times)) }
{
    if step.types.has(vehicle) {
        said(alloc, step.access, &step.hours, times)
    } else {
        Ok(times)
    }
}

fn after(alloc: Global, steps: &[Step], vehicle: u8) -> Result<Times, AllocError>
    ensures { IfOk result (λ r. times_in r ≡ times_after steps.now vehicle Never) }
{
    let mut times = Times::Never;
    let mut rest = steps;
    while let Some((step, more)) = rest.split_first() {
        times = by(alloc, step, vehicle, times)?;
        rest = more;
    }
    Ok(times)
}

/// When steps close an element for a vehicle type.
pub(crate) fn timing_of(alloc: Global, steps: &[Step], vehicle: u8) -> Result<Timing, AllocError>
    requires { leaves_in (times_of steps.now vehicle) ≤ most_basic_domains }
    ensures { IfOk result (λ timing. timing_times timing ≡ times_of steps.now vehicle) }
{
    match after(alloc, steps, vehicle)? {
        Times::Never => Ok(Timing::Never),
        Times::Always => Ok(Timing::Closed(None)),
        Times::Within(expr) => match Domain::new(expr) {
            Ok(domain) => Ok(Timing::Closed(Some(domain))),
            Err(_) => unreachable!(),
        },
    }
}
