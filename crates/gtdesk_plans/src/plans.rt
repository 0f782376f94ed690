//! What a command line asks for.

use crate::commands::{
    ConditionsPlan, DiffPlan, DomainPicturePlan, FaultsPlan, HoursPlan, MendHoursPlan, NowPlan,
    PicturePlan, RecordsPlan, SamePlan, WordsPlan, ZonePlan,
};
use gtd_core::Domain;

/// What a command line asks for, with each of its words read.
#[derive(Drop)]
pub enum Plan {
    /// What reads one file at a time, or none.
    One(OnePlan),
    /// To print the state of the elements of record files at the moment that the clock of a time zone shows.
    NowIn(ZonePlan),
    /// To print what two record files say differently.
    Diff(DiffPlan),
    /// To print the record file of a file of tags of ways.
    Conditions(ConditionsPlan),
    /// To answer the questions on standard input about the record file of this path.
    Ask(String),
}

/// What a command line asks for that reads one file at a time, or none.
#[derive(Drop)]
pub enum OnePlan {
    /// To print the state of the elements of record files.
    Now(NowPlan),
    /// To list the faults of record files.
    Faults(FaultsPlan),
    /// To print the picture of an element of a record file.
    Picture(PicturePlan),
    /// To print the picture of a time domain.
    DomainPicture(DomainPicturePlan),
    /// To print a time domain in plain words.
    Words(WordsPlan),
    /// To print opening hours that are open at exactly the seconds of this time domain.
    HoursOf(Domain),
    /// To print the time domain with exactly the seconds at which the opening hours of a text are open.
    DomainOf(HoursPlan),
    /// To print how the seconds of two time domains compare.
    Same(SamePlan),
    /// To print what the rows of each record file of these paths, or `-` for standard input, say more than once.
    SameRows(Vec<String>),
    /// To print the record files of files of opening hours.
    Records(RecordsPlan),
    /// To print the record file of this path, or `-` for standard input, with its faults mended.
    Mend(String),
    /// To print the opening hours of a text as they are strictly written.
    MendHours(MendHoursPlan),
    /// To print this text: help, or the version.
    Show(String),
}

/// The files that a plan reads, one after the other.
#[derive(Clone, Copy)]
pub enum Files<'a> {
    /// It reads none.
    None,
    /// It reads the file of this path, or of `-` for standard input.
    One(&'a str),
    /// It is carried out for each file of these paths, of which one may be `-`.
    Several(&'a [String]),
}

impl OnePlan {
    ghost use Rattle.std.specs.Prelude.{◌≡◌};
    ghost use Rattle.gtdesk_plans.specs.Plans.{files_of, hours_text_of, texts_in};

    /// The paths of the files that are to be read. Of a text of opening hours that is the table of holidays, if one is given.
    pub fn files(&self) -> Files<'_>
        ensures value { texts_in result ≡ files_of self.now }
    {
        match self {
            OnePlan::Now(plan) => Files::Several(plan.files.as_slice()),
            OnePlan::Faults(plan) => Files::Several(plan.files.as_slice()),
            OnePlan::Picture(plan) => Files::One(plan.file.as_str()),
            OnePlan::SameRows(files) => Files::Several(files.as_slice()),
            OnePlan::Records(plan) => Files::Several(plan.files.as_slice()),
            OnePlan::Mend(file) => Files::One(file.as_str()),
            OnePlan::DomainOf(plan) => match &plan.options.holidays {
                Some(table) => Files::One(table.as_str()),
                None => Files::None,
            },
            _ => Files::None,
        }
    }

    /// The text of opening hours that is read when the plan is carried out; nothing, if there is none.
    pub fn hours_text(&self) -> &str
        ensures value { result.now ≡ hours_text_of self.now }
    {
        match self {
            OnePlan::DomainOf(plan) => plan.text.as_str(),
            OnePlan::MendHours(plan) => plan.text.as_str(),
            _ => "",
        }
    }
}
