//! What an entry tells.

use gtd_report::DirectedElement;
use gtd_states::ElementState;

/// The state of an element in a direction for a vehicle type.
#[derive(Clone, Copy)]
pub(crate) struct Entry<'a> {
    pub(crate) at: DirectedElement,
    pub(crate) vehicle: u8,
    pub(crate) state: &'a ElementState,
}
