//! Where a fault is.

ghost use Rattle.std.specs.Prelude.{◌≡◌};
ghost use Rattle.gtd_hours_faults.specs.Words as spec;

use gtd_hours_known::KnownFault;
use gtd_hours_options::OptionsFault;

fn known_place(fault: KnownFault) -> usize
    ensures { result ≡ spec.known_place fault }
{
    match fault {
        KnownFault::Hours(fault) => fault.place,
        KnownFault::Ambiguous { place } => place,
        KnownFault::Holidays { place } => place,
        KnownFault::Years { place } => place,
        KnownFault::Uncovered { place, .. } => place,
        KnownFault::Unknown { place } => place,
    }
}

/// The number of bytes of a text before the place of its fault.
pub fn place_in(fault: OptionsFault) -> usize
    ensures place { result ≡ spec.place_in fault }
{
    match fault {
        OptionsFault::Known(fault) => known_place(fault),
        OptionsFault::Time(need) => need.place,
    }
}
