//! Why questions are not answered.

use gtd_calendar::StampFault;
use gtd_devices::InputFault;
use gtd_report::RunFault;
use std::alloc::{AllocError, AllocFailed};

/// Why a file of questions is not read. Rows are numbered from 1, after the header.
#[derive(Clone, Copy, Debug, PartialEq, Eq)]
pub enum QuestionFault {
    /// The input failed.
    ReadFault,
    /// The input gave no byte for 1,000 pulls in a row.
    Endless,
    /// Memory was refused.
    NoMemory,
    /// The file has more than 134,217,728 bytes.
    TooLarge,
    /// The first record is not the header, or there is none.
    Header,
    /// A row does not have four fields.
    FieldCount { row: u32 },
    /// A row's first field is not a number of 1 to 10 digits.
    Element { row: u32 },
    /// A row's second field is neither `positive` nor `negative`.
    Direction { row: u32 },
    /// A row's third field is not a vehicle type from 1 to 99.
    Vehicle { row: u32 },
    /// A row's fourth field is not a moment.
    Moment { row: u32, fault: StampFault },
    /// There are more than 2,000,000 rows.
    TooManyRows,
}

/// Why a run that answers questions does not put its whole text. If both files have a fault, that of the questions is answered.
#[derive(Clone, Copy, Debug, PartialEq, Eq)]
pub enum AskFault {
    /// The questions are not read, for this reason.
    Questions(QuestionFault),
    /// Any other reason: as of a run over the record file alone.
    Run(RunFault),
}

impl From<AllocError> for QuestionFault {
    ghost use Rattle.std.specs.Prelude.{◌≡◌};
    ghost use Rattle.gtd_ask.specs.declared.fault.QuestionFault.TheVariants.{NoMemory};

    ghost from_gives = { λ _ fault. fault ≡ NoMemory };

    fn from(_: AllocError) -> QuestionFault {
        QuestionFault::NoMemory
    }
}

impl<T: Drop> From<AllocFailed<T>> for QuestionFault {
    ghost use Rattle.std.specs.Prelude.{◌≡◌};
    ghost use Rattle.gtd_ask.specs.declared.fault.QuestionFault.TheVariants.{NoMemory};

    ghost from_gives = { λ _ fault. fault ≡ NoMemory };

    fn from(_: AllocFailed<T>) -> QuestionFault {
        QuestionFault::NoMemory
    }
}

impl From<InputFault> for QuestionFault {
    ghost use Rattle.std.specs.Prelude.{◌≡◌};
    ghost use Rattle.gtd_ask.specs.Questions.{as_question_fault};

    ghost from_gives = { λ input fault. fault ≡ as_question_fault input };

    fn from(fault: InputFault) -> QuestionFault {
        match fault {
            InputFault::ReadFault => QuestionFault::ReadFault,
            InputFault::TooLarge => QuestionFault::TooLarge,
            InputFault::Endless => QuestionFault::Endless,
            InputFault::NoMemory => QuestionFault::NoMemory,
        }
    }
}
