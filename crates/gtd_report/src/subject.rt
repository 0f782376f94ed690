//! What a report is asked about.

ghost use Rattle.std.specs.Prelude.{◌≡◌, ◌↔◌, Any, IsTrue, List};
ghost use Rattle.gtd_records.specs.Closing.{Restriction};
ghost use Rattle.gtd_report.specs.Run.{IsAccepted, IsVehicleInRange, IsYearInRange};

use gtd_records::Records;

/// What a report is asked about: a vehicle type, a year and an element, each if there is one.
#[derive(Clone, Copy, Debug, PartialEq, Eq)]
pub struct Subject {
    /// The vehicle type.
    pub vehicle: Option<u8>,
    /// The year.
    pub year: Option<u16>,
    /// The element.
    pub element: Option<u64>,
}

// Whether the vehicle type, if there is one, is from 1 to 99.
pub(crate) fn is_vehicle_in_range(subject: Subject) -> bool
    ensures { IsTrue result ↔ IsVehicleInRange subject }
{
    match subject.vehicle {
        Some(vehicle) => vehicle >= 1 && vehicle <= 99,
        None => true,
    }
}

// Whether the year, if there is one, is from 1901 to 2199.
pub(crate) fn is_year_in_range(subject: Subject) -> bool
    ensures { IsTrue result ↔ IsYearInRange subject }
{
    match subject.year {
        Some(year) => year >= 1901 && year <= 2199,
        None => true,
    }
}

// Whether some record names the element.
fn names_element(found: &Records, element: u64) -> bool
    ensures named { IsTrue result ↔ Any (λ (r : Restriction). r.element ≡ element) found.now }
{
    found.elements().contains(&element)
}

// Whether some record names the element, if there is one.
pub(crate) fn is_accepted(subject: Subject, found: &Records) -> bool
    ensures { IsTrue result ↔ IsAccepted subject found.now }
{
    match subject.element {
        Some(element) => names_element(found, element),
        None => true,
    }
}
