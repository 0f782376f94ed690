//! Finding the state of an element in a direction.

ghost use Rattle.std.specs.Prelude.{IfOk};
ghost use Rattle.gtd_core.specs.Seconds.{IsHorizonSecond};
ghost use Rattle.gtd_states.specs.States.{IsState, state_of};

use crate::change::change_after;
use crate::state::ElementState;
use gtd_core::Sec;
use gtd_records::Records;
use gtd_report::DirectedElement;
use std::alloc::{AllocError, Global};

/// The state of an element in a direction, for a vehicle type from 1 to 99, at a second, which must be on a day that a horizon
/// may have. `AllocError` is answered only if memory was refused.
pub fn state_at(
    alloc: Global,
    found: &Records,
    at: DirectedElement,
    vehicle: u8,
    second: Sec,
) -> Result<ElementState, AllocError>
    requires in_range { IsHorizonSecond second.0 }
    ensures state { IfOk result (λ state. IsState found.now at.element at.direction vehicle second.0 (state_of state)) }
{
    let (element, direction) = (at.element, at.direction);
    let rows = found.closing_rows(alloc, element, direction, vehicle, second)?;
    let change = change_after(alloc, found, element, direction, vehicle, second)?;
    Ok(ElementState { change, rows })
}
