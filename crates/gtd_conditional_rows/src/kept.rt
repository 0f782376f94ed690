//! When steps close an element, kept for each vehicle type.

ghost use Rattle.std.specs.Prelude.{◌≡◌, IfOk};
ghost use Rattle.gtd_conditional_rows.specs.Alike.{AreAlike};
ghost use Rattle.gtd_conditional_rows.specs.Kept.{AreKept, IsKept};
ghost use Rattle.gtd_conditional_rows.specs.Times.{NeedsTooMany};
ghost use Rattle.gtd_conditional_rows.specs.Types.{IsVehicle};

use crate::alike::Alike;
use crate::step::Step;
use crate::times::{Timing, timing_of};
use std::alloc::{AllocError, Global};

/// What is kept of a vehicle type.
#[derive(Drop)]
pub(crate) enum Kept {
    /// When steps close an element for it.
    Own(Timing),
    /// That it is as for this lower one.
    As(u8),
}

// What is kept of a vehicle type.
fn kept_of(alloc: Global, steps: &[Step], alike: &Alike, vehicle: u8) -> Result<Kept, AllocError>
    requires vehicle { IsVehicle vehicle }
    requires few { NeedsTooMany steps.now → ⊥ }
    requires alike { AreAlike steps.now alike.now }
    ensures { IfOk result (IsKept steps.now vehicle) }
{
    match alike.lower(vehicle) {
        Some(lower) => Ok(Kept::As(lower)),
        None => Ok(Kept::Own(timing_of(alloc, steps, vehicle)?)),
    }
}

/// What is kept of each vehicle type, at the place of its number.
pub(crate) fn kept_timings(
    alloc: Global,
    steps: &[Step],
    alike: &Alike,
) -> Result<Vec<Kept>, AllocError>
    requires few { NeedsTooMany steps.now → ⊥ }
    requires alike { AreAlike steps.now alike.now }
    ensures { IfOk result (λ kept. AreKept steps.now kept.items) }
{
    let mut kept = Vec::with_capacity(alloc, 100)?;
    kept.push(Kept::As(0))?;
    for vehicle in 1..100 {
        let own = kept_of(alloc, steps, alike, vehicle)?;
        kept.push(own)?;
    }
    Ok(kept)
}
