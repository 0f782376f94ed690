//! The faults of texts of opening hours.

ghost use Rattle.std.specs.Prelude.{◌≡◌};
ghost use Rattle.gtd_hours_grammar.specs.KindNames.{kind_name};

use thiserror::Error;

/// What is wrong with a text.
#[derive(Clone, Copy, Debug, PartialEq, Eq, Error)]
pub enum FaultKind {
    /// No token begins here.
    #[error("BadToken")]
    BadToken,
    /// A word or a sign that OpenStreetMap has and that is not read here.
    #[error("Unsupported")]
    Unsupported,
    /// A number or a time that could stand here by its kind, but not by its digits or its value.
    #[error("Range")]
    Range,
    /// A slash before a step, behind a year: of such years up to the last one of the calendar there are more than a domain holds.
    #[error("Years")]
    Years,
    /// A token that cannot stand here.
    #[error("Unexpected")]
    Unexpected,
    /// The text ends too early.
    #[error("Incomplete")]
    Incomplete,
}

impl FaultKind {
    /// The kind in a word, as the programs print it.
    pub fn name(self) -> &'static str
        ensures { result.now ≡ kind_name self }
    {
        match self {
            FaultKind::BadToken => "BadToken",
            FaultKind::Unsupported => "Unsupported",
            FaultKind::Range => "Range",
            FaultKind::Years => "Years",
            FaultKind::Unexpected => "Unexpected",
            FaultKind::Incomplete => "Incomplete",
        }
    }
}

/// The first fault of a text.
#[derive(Clone, Copy, Debug, PartialEq, Eq, Error)]
#[error("{kind} at {place}")]
pub struct HoursFault {
    /// What is wrong.
    pub kind: FaultKind,
    /// The number of bytes before it: the length of the text if the text ends too early.
    pub place: usize,
}
