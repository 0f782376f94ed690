//! Why a command line is not carried out.

ghost use Rattle.std.specs.Prelude.{◌≡◌};
ghost use Rattle.gtdesk_tool.specs.Refusals.{questions_status, records_status, refused_file, refused_table, run_status};
ghost use Rattle.gtdesk_tool.specs.Refusals.{status_of};

use gtd_ask::QuestionFault;
use gtd_records::RecordFault;
use gtdesk_plans::{ConditionsPlan, DiffPlan};
use gtdesk_words::{NoDomain, WordFault, WordsRefusal};

/// Why a plan is not carried out.
#[derive(Clone, Copy, Debug, PartialEq, Eq)]
pub enum RunRefusal {
    /// A number of the plan is out of its range. No plan of a command line has such a number.
    Word(WordFault),
    /// No opening hours are found for a time domain. That none have its seconds is not said.
    NoHours,
    /// The text of `hours` has no time domain.
    NoDomain(NoDomain),
    /// No row of the record file names the element of a picture.
    NoElement,
    /// A picture would have more than 20,000 stretches.
    Crowded,
    /// The record file is not read. This is its first fault, or why the input failed, and never `NoMemory`.
    Records(RecordFault),
    /// The record file is not opened.
    Open,
    /// The old of two record files is not read. This is its first fault, or why the input failed, and never `NoMemory`.
    Old(RecordFault),
    /// The old of two record files is not opened.
    OldOpen,
    /// The table of means is not read. This is why its input failed: `ReadFault` or `Endless`.
    Means(RecordFault),
    /// The table of means is not opened.
    MeansOpen,
    /// The record file that tags stand for would have this many rows, and a record file has at most 65,536.
    TooManyRows { rows: u64 },
    /// The questions on standard input are not read. This is their first fault, or why the input failed, and never `NoMemory`.
    Questions(QuestionFault),
    /// A write to standard output failed.
    Write,
    /// Memory was refused.
    Memory,
}

impl RunRefusal {
    /// The exit status: 1 if the input is refused, 3 if opening, reading, writing or memory failed.
    pub fn status(&self) -> u8
        ensures value { result ≡ run_status self.now }
    {
        match self {
            RunRefusal::Word(_) => 1,
            RunRefusal::NoHours => 1,
            RunRefusal::NoDomain(_) => 1,
            RunRefusal::NoElement => 1,
            RunRefusal::Crowded => 1,
            RunRefusal::Records(fault) => records_status(*fault),
            RunRefusal::Open => 3,
            RunRefusal::Old(fault) => records_status(*fault),
            RunRefusal::OldOpen => 3,
            RunRefusal::Means(fault) => records_status(*fault),
            RunRefusal::MeansOpen => 3,
            RunRefusal::TooManyRows { .. } => 1,
            RunRefusal::Questions(fault) => questions_status(*fault),
            RunRefusal::Write => 3,
            RunRefusal::Memory => 3,
        }
    }
}

// The status for a record file that is not read.
fn records_status(fault: RecordFault) -> u8
    ensures value { result ≡ records_status fault }
{
    match fault {
        RecordFault::ReadFault | RecordFault::Endless | RecordFault::NoMemory => 3,
        _ => 1,
    }
}

// The status for questions that are not read.
fn questions_status(fault: QuestionFault) -> u8
    ensures value { result ≡ questions_status fault }
{
    match fault {
        QuestionFault::ReadFault | QuestionFault::Endless | QuestionFault::NoMemory => 3,
        _ => 1,
    }
}

/// Why a command line is not carried out.
#[derive(Clone, Copy, Debug, PartialEq, Eq)]
pub enum Refusal {
    /// Its words are refused.
    Words(WordsRefusal),
    /// What they ask for is not carried out.
    Run(RunRefusal),
}

impl Refusal {
    /// The exit status: 1 if the input is refused, 2 for usage, 3 if opening, reading, writing or memory failed.
    pub fn status(&self) -> u8
        ensures value { result ≡ status_of self.now }
    {
        match self {
            Refusal::Words(refusal) => refusal.status(),
            Refusal::Run(refusal) => refusal.status(),
        }
    }
}

/// The path of the one of two files that a refusal is about: the old one's if it is not opened or not read, and otherwise that of
/// the new one.
pub fn refused_file(plan: &DiffPlan, refusal: RunRefusal) -> &str
    ensures value { result.now ≡ refused_file refusal plan.now }
{
    match refusal {
        RunRefusal::Old(_) => plan.old.as_str(),
        RunRefusal::OldOpen => plan.old.as_str(),
        _ => plan.new.as_str(),
    }
}

/// The path of the one of the files of `conditions` that a refusal is about: that of the table of means if it is not opened or
/// not read, and otherwise that of the file of tags.
pub fn refused_table(plan: &ConditionsPlan, refusal: RunRefusal) -> &str
    ensures value { result.now ≡ refused_table refusal plan.now }
{
    match refusal {
        RunRefusal::Means(_) => plan.means.as_str(),
        RunRefusal::MeansOpen => plan.means.as_str(),
        _ => plan.tags.as_str(),
    }
}
