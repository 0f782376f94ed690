//! The vehicle types of steps, grouped by when they are closed.

ghost use Rattle.std.specs.Prelude.{◌≡◌, ◌+◌, ◌<◌, ◌↔◌, ℕ, IfOk, IfSome, IsTrue, OnOk, if◌then◌else◌};
ghost use Rattle.gtd_rows.specs.declared.direction.Closed.TheVariants.{One, Both};
ghost use Rattle.gtd_conditional_rows.specs.Alike.{AreAlike};
ghost use Rattle.gtd_conditional_rows.specs.Groups.{GroupedTo, IsGroupOf, IsMarked};
ghost use Rattle.gtd_conditional_rows.specs.Kept.{AreKept};
ghost use Rattle.gtd_conditional_rows.specs.Rows.{AreGroups, Each, Some'};
ghost use Rattle.gtd_conditional_rows.specs.Times.{NeedsTooMany, times_of};
ghost use Rattle.gtd_conditional_rows.specs.Timing.{domain_times, timing_times};
ghost use Rattle.gtd_conditional_rows.specs.Types.{HasType, IsVehicle};

use crate::alike::Alike;
use crate::kept::{Kept, kept_timings};
use crate::row::{Row, is_listed, is_same_domain};
use crate::step::Step;
use crate::times::{Timing, timing_of};
use crate::types::Types;
use gtd_core::Domain;
use gtd_rows::{Closed, Direction};
use std::alloc::{AllocError, Global};

// Steps in a direction, what is kept of each vehicle type, and the rows of the other direction, if they are known.
#[derive(Clone, Copy)]
struct Side<'a> {
    steps: &'a [Step],
    kept: &'a [Kept],
    direction: Direction,
    others: &'a [Row],
}

// Whether these are the times of a domain.
fn is_timing(timing: &Timing, domain: &Option<Domain>) -> bool
    ensures { IsTrue result ↔ (timing_times timing.now ≡ domain_times domain.now) }
{
    match timing {
        Timing::Never => false,
        Timing::Closed(own) => is_same_domain(own, domain),
    }
}

// Whether steps close an element for a vehicle type exactly at the seconds of a domain, where the lower types are known for which
// they do.
fn is_like(side: Side, types: &Types, vehicle: u8, domain: &Option<Domain>) -> bool
    requires vehicle { IsVehicle vehicle }
    requires kept { AreKept side.steps.now side.kept.now }
    requires lower { (t : ℕ) → IsVehicle t → t < vehicle
        → HasType types.now t ↔ (times_of side.steps.now t ≡ domain_times domain.now) }
    ensures { IsTrue result ↔ (times_of side.entry.steps.now vehicle ≡ domain_times domain.now) }
{
    match &side.kept[usize::from(vehicle)] {
        Kept::Own(timing) => is_timing(timing, domain),
        Kept::As(lower) => types.has(*lower),
    }
}

// The vehicle types for which steps close an element exactly at the seconds of a domain.
fn types_like(side: Side, domain: &Option<Domain>) -> Types
    requires kept { AreKept side.steps.now side.kept.now }
    ensures { (t : ℕ) → IsVehicle t → HasType result t ↔ (times_of side.entry.steps.now t ≡ domain_times domain.now) }
{
    let mut types = Types::none();
    for other in 1..100 {
        if is_like(side, &types, other, domain) {
            types.add(other);
        }
    }
    types
}

// What a row closes that the other direction has too, or has not.
fn closed_of(direction: Direction, listed: bool) -> Closed
    ensures { result ≡ (if listed then Both else One direction) }
{
    if listed {
        Closed::Both
    } else {
        Closed::One(direction)
    }
}

// The row with the domain of a vehicle type, or `None` exactly if the element is never closed for it.
fn group_of(alloc: Global, side: Side, vehicle: u8) -> Result<Option<Row>, AllocError>
    requires vehicle { IsVehicle vehicle }
    requires few { NeedsTooMany side.steps.now → ⊥ }
    requires kept { AreKept side.steps.now side.kept.now }
    ensures { IfOk result (IsGroupOf side.entry.steps.now side.entry.direction side.entry.others.now vehicle) }
{
    match timing_of(alloc, side.steps, vehicle)? {
        Timing::Never => Ok(None),
        Timing::Closed(domain) => {
            let types = types_like(side, &domain);
            let mut row = Row {
                closed: Closed::One(side.direction),
                types,
                domain,
            };
            let listed = is_listed(&row, side.others);
            row.closed = closed_of(side.direction, listed);
            Ok(Some(row))
        }
    }
}

// Whether some row has a vehicle type.
fn is_grouped(rows: &[Row], vehicle: u8) -> bool
    ensures { IsTrue result ↔ Some' (λ row. HasType row.types vehicle) rows.now }
{
    let mut rest = rows;
    while let Some((row, more)) = rest.split_first() {
        if row.types.has(vehicle) {
            return true;
        }
        rest = more;
    }
    false
}

// A lower vehicle type of the same times, if one is kept.
fn lower_of(side: Side, vehicle: u8) -> Option<u8>
    requires vehicle { IsVehicle vehicle }
    requires kept { AreKept side.steps.now side.kept.now }
    ensures { IfSome result (λ lower. IsVehicle lower × (lower < vehicle)
        × (times_of side.entry.steps.now lower ≡ times_of side.entry.steps.now vehicle)) }
{
    match &side.kept[usize::from(vehicle)] {
        Kept::Own(_) => None,
        Kept::As(lower) => Some(*lower),
    }
}

// Puts the row with the domain of a vehicle type, if there is one and it is not there.
fn put_group(alloc: Global, rows: &mut Vec<Row>, side: Side, vehicle: u8) -> Result<(), AllocError>
    requires vehicle { IsVehicle vehicle }
    requires few { NeedsTooMany side.steps.now → ⊥ }
    requires kept { AreKept side.steps.now side.kept.now }
    ensures { GroupedTo side.entry.steps.now side.entry.direction side.entry.others.now vehicle rows.old.items
        → OnOk result (GroupedTo side.entry.steps.now side.entry.direction side.entry.others.now (vehicle + 1)
        rows.new.items) }
{
    if let Some(_) = lower_of(side, vehicle) {
        return Ok(());
    }
    if is_grouped(rows.as_slice(), vehicle) {
        return Ok(());
    }
    match group_of(alloc, side, vehicle)? {
        None => Ok(()),
        Some(row) => {
            rows.push(row)?;
            Ok(())
        }
    }
}

// The rows of steps in a direction, which close both if the other direction has the same.
fn groups_of(alloc: Global, side: Side) -> Result<Vec<Row>, AllocError>
    requires few { NeedsTooMany side.steps.now → ⊥ }
    requires kept { AreKept side.steps.now side.kept.now }
    ensures groups { IfOk result (λ rows. AreGroups side.entry.steps.now rows.items) }
    ensures closed { IfOk result (λ rows. Each (IsMarked side.entry.direction side.entry.others.now) rows.items) }
{
    let mut rows = Vec::new(alloc);
    for vehicle in 1..100 {
        put_group(alloc, &mut rows, side, vehicle)?;
    }
    Ok(rows)
}

/// The rows of steps in a direction, where these vehicle types are alike. They close both directions if the other one has the
/// same rows.
pub(crate) fn groups_in(
    alloc: Global,
    steps: &[Step],
    alike: &Alike,
    direction: Direction,
    others: &[Row],
) -> Result<Vec<Row>, AllocError>
    requires few { NeedsTooMany steps.now → ⊥ }
    requires alike { AreAlike steps.now alike.now }
    ensures groups { IfOk result (λ rows. AreGroups steps.now rows.items) }
    ensures closed { IfOk result (λ rows. Each (IsMarked direction others.now) rows.items) }
{
    if steps.is_empty() {
        return Ok(Vec::new(alloc));
    }
    let kept = kept_timings(alloc, steps, alike)?;
    let side = Side {
        steps,
        kept: kept.as_slice(),
        direction,
        others,
    };
    groups_of(alloc, side)
}
