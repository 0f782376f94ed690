//! What is wrong with a text with options.

ghost use Rattle.std.specs.Prelude.{◌≡◌};
ghost use Rattle.gtd_hours_options.specs.Told.{bad_token, stopped};

use gtd_hours_grammar::{FaultKind, HoursFault};
use gtd_hours_known::KnownFault;
use gtd_hours_moments::{Need, NoMomentText};

/// What is wrong with a text. All places are of the text.
#[derive(Clone, Copy, Debug, PartialEq, Eq)]
pub enum OptionsFault {
    /// The first fault of the text, a place that people read in two ways, or what is not known of a holiday.
    Known(KnownFault),
    /// A time for which something is not given, or that lasts too long with what is given.
    Time(Need),
}

/// Why the hours of a text cannot be read.
#[derive(Clone, Copy, Debug, PartialEq, Eq)]
pub enum OptionsReadFault {
    /// The first fault of the text.
    Fault(OptionsFault),
    /// There is no memory for the hours.
    NoMemory,
}

/// A byte with which no token begins.
pub(crate) fn bad_token(place: usize) -> OptionsFault
    ensures { result ≡ bad_token place }
{
    OptionsFault::Known(KnownFault::Hours(HoursFault {
        kind: FaultKind::BadToken,
        place,
    }))
}

/// Why a text has no forms of times.
pub(crate) fn stopped(why: NoMomentText) -> OptionsReadFault
    ensures { result ≡ stopped why }
{
    match why {
        NoMomentText::NoMemory => OptionsReadFault::NoMemory,
        NoMomentText::BadToken { place } => OptionsReadFault::Fault(bad_token(place)),
    }
}
