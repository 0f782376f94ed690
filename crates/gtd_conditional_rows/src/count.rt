//! How many basic domains a vehicle type needs, counted before memory is taken.

ghost use Rattle.std.specs.Prelude.{◌≡◌, ◌↔◌, ◌<◌, ℕ, IsTrue};
ghost use Rattle.gtd_core.specs.Limits.{most_basic_domains};
ghost use Rattle.gtd_conditional_rows.specs.Alike.{AreAlike};
ghost use Rattle.gtd_conditional_rows.specs.Times.{NeedsTooMany, leaves_in, size_after, size_by, size_said, times_of};
ghost use Rattle.gtd_conditional_rows.specs.Types.{IsVehicle};
ghost use Rattle.gtd_conditional_rows.specs.declared.count.Size.TheVariants as size;

use crate::alike::Alike;
use crate::expr::{leaves, sum};
use crate::step::Step;
use gtd_conditional_means::Access;
use gtd_core::Expr;
use gtd_core::limits::MOST_BASIC_DOMAINS;

// Never, always, or within so many basic domains.
#[derive(Clone, Copy)]
pub(crate) enum Size {
    Never,
    Always,
    Within(u32),
}

// What hours that close make of it.
fn closed(hours: &Expr, size: Size) -> Size
    ensures { result ≡ size_said Access.Closed (Some hours.now) size }
{
    match size {
        Size::Never => Size::Within(leaves(hours)),
        Size::Always => Size::Always,
        Size::Within(count) => Size::Within(sum(count, leaves(hours))),
    }
}

// What hours that open make of it.
fn opened(hours: &Expr, size: Size) -> Size
    ensures { result ≡ size_said Access.Open (Some hours.now) size }
{
    match size {
        Size::Never => Size::Never,
        Size::Always => Size::Within(sum(1, leaves(hours))),
        Size::Within(count) => Size::Within(sum(count, leaves(hours))),
    }
}

fn said(access: Access, hours: &Option<Expr>, size: Size) -> Size
    ensures { result ≡ size_said access hours.now size }
{
    match access {
        Access::Closed => match hours {
            None => Size::Always,
            Some(hours) => closed(hours, size),
        },
        Access::Open => match hours {
            None => Size::Never,
            Some(hours) => opened(hours, size),
        },
    }
}

fn by(step: &Step, vehicle: u8, size: Size) -> Size
    ensures { result ≡ size_by step.now vehicle size }
{
    if step.types.has(vehicle) {
        said(step.access, &step.hours, size)
    } else {
        size
    }
}

fn after(steps: &[Step], vehicle: u8) -> Size
    ensures { result ≡ size_after steps.now vehicle size.Never }
{
    let mut size = Size::Never;
    let mut rest = steps;
    while let Some((step, more)) = rest.split_first() {
        size = by(step, vehicle, size);
        rest = more;
    }
    size
}

// Whether a vehicle type needs more basic domains than a domain may have.
fn is_too_much(steps: &[Step], vehicle: u8) -> bool
    ensures { IsTrue result ↔ (most_basic_domains < leaves_in (times_of steps.now vehicle)) }
{
    match after(steps, vehicle) {
        Size::Never => false,
        Size::Always => false,
        Size::Within(count) => count > u32::from(MOST_BASIC_DOMAINS),
    }
}

// Whether a vehicle type needs too many, if no lower one does.
fn is_first_too_much(steps: &[Step], alike: &Alike, vehicle: u8) -> bool
    requires vehicle { IsVehicle vehicle }
    requires alike { AreAlike steps.now alike.now }
    ensures much { IsTrue result → most_basic_domains < leaves_in (times_of steps.now vehicle) }
    ensures first { ((t : ℕ) → IsVehicle t → t < vehicle → most_basic_domains < leaves_in (times_of steps.now t) → ⊥)
        → most_basic_domains < leaves_in (times_of steps.now vehicle) → IsTrue result }
{
    match alike.lower(vehicle) {
        Some(_) => false,
        None => is_too_much(steps, vehicle),
    }
}

/// Whether some vehicle type needs more than 128 basic domains, where these types are alike. No memory is taken.
pub(crate) fn need_too_many(steps: &[Step], alike: &Alike) -> bool
    requires alike { AreAlike steps.now alike.now }
    ensures many { IsTrue result ↔ NeedsTooMany steps.now }
{
    for vehicle in 1..100 {
        if is_first_too_much(steps, alike, vehicle) {
            return true;
        }
    }
    false
}
