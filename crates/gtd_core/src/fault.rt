//! Why a text is not a time domain.

ghost use Rattle.std.specs.Prelude.{◌≡◌, codes};
ghost use Rattle.gtd_core.specs.Names.{fault_name};

use thiserror::Error;

/// What is wrong with a text.
#[derive(Clone, Copy, Debug, PartialEq, Eq, Error)]
pub enum Fault {
    /// No token begins at a byte that is not a space.
    #[error("BadToken")]
    BadToken,
    /// A fuzzy time, the letter `z`, which is not read.
    #[error("Fuzzy")]
    Fuzzy,
    /// More than 128 brackets are open at once.
    #[error("TooDeep")]
    TooDeep,
    /// There are more than 128 basic domains.
    #[error("TooMany")]
    TooMany,
    /// A field is given twice in the same parentheses or braces.
    #[error("Repeated")]
    Repeated,
    /// A field is out of its range, or has the wrong number of digits.
    #[error("FieldRange")]
    FieldRange,
    /// A duration begins with a minus sign.
    #[error("Negative")]
    Negative,
    /// A token does not fit where it is.
    #[error("Unexpected")]
    Unexpected,
    /// The text ends too early.
    #[error("Incomplete")]
    Incomplete,
    /// A duration is longer than 36,600 days.
    #[error("TooLongDuration")]
    TooLongDuration,
    /// Memory was refused.
    #[error("NoMemory")]
    NoMemory,
}

impl Fault {
    /// The fault's name, as fault lines show it.
    pub fn name(&self) -> &'static str
        ensures text { result.now ≡ fault_name self.now }
    {
        match self {
            Fault::BadToken => "BadToken",
            Fault::Fuzzy => "Fuzzy",
            Fault::TooDeep => "TooDeep",
            Fault::TooMany => "TooMany",
            Fault::Repeated => "Repeated",
            Fault::FieldRange => "FieldRange",
            Fault::Negative => "Negative",
            Fault::Unexpected => "Unexpected",
            Fault::Incomplete => "Incomplete",
            Fault::TooLongDuration => "TooLongDuration",
            Fault::NoMemory => "NoMemory",
        }
    }
}

/// What is wrong with a text, and where: the number of bytes before the place.
#[derive(Clone, Copy, Debug, PartialEq, Eq, Error)]
#[error("{kind} at {place}")]
pub struct TextFault {
    pub kind: Fault,
    pub place: usize,
}
