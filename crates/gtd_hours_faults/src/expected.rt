//! What is accepted where a fault is.

ghost use Rattle.std.specs.Prelude.{◌≡◌, Some, option_map};
ghost use Rattle.gtd_hours_faults.specs.Accepted as spec;

use gtd_hours_grammar::FaultKind;
use gtd_hours_known::KnownFault;
use gtd_hours_moments::NeedKind;
use gtd_hours_options::OptionsFault;
use std::fmt;
use std::fmt::{Display, Formatter};

// What hours may have where a fault of this kind is.
fn accepted_hours(kind: FaultKind) -> &'static str
    ensures { result.now ≡ spec.accepted_hours kind }
{
    match kind {
        FaultKind::BadToken =>
            "words, numbers and signs of opening hours, such as Mo-Fr 08:00-18:00",
        FaultKind::Unsupported => {
            "years, weeks, dates, weekdays and times; and where the command reads them, holidays and comments"
        }
        FaultKind::Range => "a number or a time in its range, such as 08:00 or Apr 30",
        FaultKind::Years => "a last year, such as 2025-2045/2",
        FaultKind::Unexpected => {
            "rules with ; between them: years, weeks or dates, then weekdays, then times or off"
        }
        FaultKind::Incomplete => "more: the second part of a range, or what follows a sign",
    }
}

fn accepted_known(fault: KnownFault) -> &'static str
    ensures { result.now ≡ spec.accepted_known fault }
{
    match fault {
        KnownFault::Hours(fault) => accepted_hours(fault.kind),
        KnownFault::Ambiguous { .. } => {
            "what is read in one way: weekdays in English, and times such as 08:00"
        }
        KnownFault::Holidays { .. } => "a table of such holidays: give one with --holidays FILE",
        KnownFault::Years { .. } => "known years, such as 2024-2030: give them with --years F-L",
        KnownFault::Uncovered { .. } => {
            "a table with all holidays of these years, and rows that say so: PH-covered or SH-covered"
        }
        KnownFault::Unknown { .. } => {
            "what is known: a rule can be unknown only behind ||, with no other fallback rule behind it"
        }
    }
}

fn accepted_time(kind: NeedKind) -> &'static str
    ensures { result.now ≡ spec.accepted_time kind }
{
    match kind {
        NeedKind::SunTime => {
            "the clock time of an event of the sun: give it with --sunrise, --sunset, --dawn or --dusk HH:MM"
        }
        NeedKind::Range => accepted_hours(FaultKind::Range),
        NeedKind::OpenEnd => {
            "the clock time of an open end, at most 24 hours later: give it with --open-end HH:MM"
        }
        NeedKind::Point => "how many minutes a point of time lasts: give it with --points N",
    }
}

/// What a text may have where this fault is, or what is to be given for it, in words.
pub fn accepted(fault: OptionsFault) -> &'static str
    ensures words { result.now ≡ spec.accepted fault }
{
    match fault {
        OptionsFault::Known(fault) => accepted_known(fault),
        OptionsFault::Time(need) => accepted_time(need.kind),
    }
}

/// What is accepted where a fault is.
#[derive(Clone, Copy)]
pub enum Expectation {
    /// Nothing is said of it.
    Nothing,
    /// What these words say.
    Words(&'static str),
    /// Hours that take fewer basic domains. These take so many, where `u32::MAX` stands for it and for more.
    Fewer {
        /// How many they take.
        needed: u32,
    },
}

impl Expectation {
    /// These words, if there are any.
    pub fn of_words(words: Option<&'static str>) -> Expectation
        ensures told { spec.told_of result ≡ spec.told_in (option_map (λ w. w.now) words.entry) }
    {
        match words {
            Some(words) => Expectation::Words(words),
            None => Expectation::Nothing,
        }
    }
}

impl Display for Expectation {
    ghost output = { λ shown. Some (spec.told_line (spec.told_of shown)) };

    fn fmt<W: fmt::Write>(&self, f: &mut Formatter<W>) -> fmt::Result {
        match self {
            Expectation::Nothing => Ok(()),
            Expectation::Words(words) => write!(f, "    expected: {words}\n"),
            Expectation::Fewer { needed } => write!(
                f,
                "    expected: hours that take at most 128 basic domains; these take {needed}\n"
            ),
        }
    }
}
