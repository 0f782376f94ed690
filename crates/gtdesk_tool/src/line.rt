//! The lines for standard error that report a refusal.

ghost use Rattle.std.specs.Prelude.{◌≡◌, Some};
ghost use Rattle.gtdesk_tool.specs.Lines as spec;
ghost use Rattle.gtdesk_tool.specs.Lines.{no_domain_text, reason_text, refusal_lines, run_text, word_text, words_text};

use crate::refusal::{Refusal, RunRefusal};
use gtd_ask::QuestionText;
use gtd_calendar::StampFault;
use gtd_core::HorizonFault;
use gtd_faults::{FaultText, Printable};
use gtd_hours_faults::{OptionsFaultText, RefusalSnippet, place_in};
use gtdesk_words::{NoDomain, Reason, WordFault, WordName, WordsRefusal};
use std::fmt;
use std::fmt::{Display, Formatter};

// Why no hours are printed.
const NO_HOURS: &str = "DOMAIN: no opening hours are found that have its seconds";

// Why there is no picture: nobody could see its stretches.
const CROWDED: &str =
    "Crowded: the seconds of the year make more than 20,000 stretches, too many for a picture";

// Why a word names no years.
const NO_YEARS: &str =
    "neither F nor F-L, where F and L are years from 1802 to 2797 that make at most 98 years";

// Why a word names no rules: the rules that there are.
const NO_RULES: &str =
    "not names of rules with commas between them; the rules are first-of-month, each-day-of-month, \
    each-day-of-year, each-hour, sunday-to-thursday, monday-and-friday, \
    sunday-and-monday, minutes, end-as-duration, end-past-midnight, days-cut-nights, season-cuts-nights, \
    weekday-on-date, product-first, days-of-year, thirty-first, no-such-day, never-holds, always-holds, past, \
    ends-soon, lone-code";

// Why a text is not a moment, in words.
fn moment_reason(fault: StampFault) -> &'static str
    ensures { result.now ≡ spec.moment_reason fault }
{
    match fault {
        StampFault::Shape => "not of the form YYYY-MM-DDThh:mm:ss",
        StampFault::NoSuchDate => "no such date or clock time",
        StampFault::Range => "not from 1901-01-01T00:00:00 to 2199-12-31T23:59:59",
    }
}

// Why two days make no horizon, in words.
fn horizon_reason(fault: HorizonFault) -> &'static str
    ensures { result.now ≡ spec.horizon_reason fault }
{
    match fault {
        HorizonFault::Empty => "not after FROM",
        HorizonFault::TooEarly => "FROM is before 1901-01-01",
        HorizonFault::TooLate => "after 2700-01-01",
        HorizonFault::TooLong => "more than 146098 days after FROM",
    }
}

// Why a text is not a date, in words.
fn date_reason(fault: StampFault) -> &'static str
    ensures { result.now ≡ spec.date_reason fault }
{
    match fault {
        StampFault::Shape => "not of the form YYYY-MM-DD",
        StampFault::NoSuchDate => "no such date",
        StampFault::Range => "not from 1901-01-01 to 2700-01-01",
    }
}

/// Why a text of opening hours has no domain.
#[derive(Drop)]
struct TextLine(NoDomain);

impl Display for TextLine {
    ghost output = { λ shown. Some (no_domain_text shown.0) };

    fn fmt<W: fmt::Write>(&self, f: &mut Formatter<W>) -> fmt::Result {
        match self.0 {
            NoDomain::Fault(fault) => {
                let words = OptionsFaultText {
                    fault,
                    place: place_in(fault),
                };
                write!(f, "{words}")
            }
            NoDomain::TooMany { .. } => write!(f, "TooMany at 0"),
        }
    }
}

// The name of a word, as a refusal gives it.
fn word_name(word: WordName) -> &'static str
    ensures { result.now ≡ spec.word_name word }
{
    match word {
        WordName::Domain => "DOMAIN",
        WordName::First => "FIRST",
        WordName::Second => "SECOND",
        WordName::Element => "ELEMENT",
        WordName::Direction => "DIRECTION",
        WordName::Vehicle => "VEHICLE",
        WordName::Year => "YEAR",
        WordName::Moment => "MOMENT",
        WordName::From => "FROM",
        WordName::To => "TO",
        WordName::Language => "LANGUAGE",
        WordName::Names => "NAMES",
        WordName::Years => "YEARS",
        WordName::OpenEnd => "OPEN-END",
        WordName::Points => "POINTS",
        WordName::Sunrise => "SUNRISE",
        WordName::Sunset => "SUNSET",
        WordName::Dawn => "DAWN",
        WordName::Dusk => "DUSK",
        WordName::Rule => "RULE",
        WordName::Day => "DAY",
        WordName::Zone => "ZONE",
    }
}

/// Why a word stands for nothing.
#[derive(Drop)]
struct ReasonText(Reason);

impl Display for ReasonText {
    ghost output = { λ shown. Some (reason_text shown.0) };

    fn fmt<W: fmt::Write>(&self, f: &mut Formatter<W>) -> fmt::Result {
        match self.0 {
            Reason::Element => write!(f, "not a number of 1 to 10 digits"),
            Reason::Direction => write!(f, "neither positive nor negative"),
            Reason::Vehicle => write!(f, "not a number from 1 to 99"),
            Reason::Year => write!(f, "not a number from 1901 to 2199"),
            Reason::Moment(fault) => write!(f, "{}", moment_reason(fault)),
            Reason::Date(fault) => write!(f, "{}", date_reason(fault)),
            Reason::Horizon(fault) => write!(f, "{}", horizon_reason(fault)),
            Reason::Domain(fault) => {
                let kind = fault.kind.name();
                let place = fault.place;
                write!(f, "{kind} at {place}")
            }
            Reason::Hours(why) => write!(f, "{}", TextLine(why)),
            Reason::Language => write!(f, "not en, de or fr"),
            Reason::DayNames => write!(f, "not de"),
            Reason::Years => write!(f, "{NO_YEARS}"),
            Reason::OpenEnd => write!(f, "not a clock time HH:MM from 00:00 to 48:00"),
            Reason::Points => write!(f, "not a number from 1 to 1440"),
            Reason::Clock => write!(f, "not a clock time HH:MM from 00:00 to 24:00"),
            Reason::Rule => write!(f, "{NO_RULES}"),
            Reason::Day => write!(f, "not from 1901-01-01 to 2699-12-31"),
            Reason::Zone => write!(f, "not the name of a time zone"),
        }
    }
}

/// Which word stands for nothing, and why.
#[derive(Drop)]
struct WordLine(WordFault);

impl Display for WordLine {
    ghost output = { λ shown. Some (word_text shown.0) };

    fn fmt<W: fmt::Write>(&self, f: &mut Formatter<W>) -> fmt::Result {
        let word = word_name(self.0.word);
        write!(f, "{word}: {}", ReasonText(self.0.why))
    }
}

/// Why the words are refused.
#[derive(Drop)]
struct WordsLine(WordsRefusal);

impl Display for WordsLine {
    ghost output = { λ shown. Some (words_text shown.0) };

    fn fmt<W: fmt::Write>(&self, f: &mut Formatter<W>) -> fmt::Result {
        match self.0 {
            WordsRefusal::Usage { told, meant } => match meant {
                None => write!(f, "command line: {told} (see gtdesk --help)"),
                Some(name) => write!(
                    f,
                    "command line: {told}: did you mean '{name}'? (see gtdesk --help)"
                ),
            },
            WordsRefusal::Word(fault) => write!(f, "{}", WordLine(fault)),
            WordsRefusal::Memory => write!(f, "memory: refused by the system"),
        }
    }
}

/// Why a plan is not carried out that reads a file of this name.
#[derive(Drop)]
struct RunLine<'a> {
    refusal: RunRefusal,
    file: &'a str,
}

impl Display for RunLine<'_> {
    ghost output = { λ shown. Some (run_text shown.file.now shown.refusal) };

    fn fmt<W: fmt::Write>(&self, f: &mut Formatter<W>) -> fmt::Result {
        let file = Printable(self.file.as_bytes());
        match self.refusal {
            RunRefusal::Word(fault) => write!(f, "{}", WordLine(fault)),
            RunRefusal::NoHours => write!(f, "{NO_HOURS}"),
            RunRefusal::NoDomain(why) => write!(f, "TEXT: {}", TextLine(why)),
            RunRefusal::NoElement => write!(f, "{file}: no row names the element"),
            RunRefusal::Crowded => write!(f, "{CROWDED}"),
            RunRefusal::Records(fault) => write!(f, "{file}: {}", FaultText(fault)),
            RunRefusal::Open => write!(f, "{file}: cannot be opened"),
            RunRefusal::Old(fault) => write!(f, "{file}: {}", FaultText(fault)),
            RunRefusal::OldOpen => write!(f, "{file}: cannot be opened"),
            RunRefusal::Means(fault) => write!(f, "{file}: {}", FaultText(fault)),
            RunRefusal::MeansOpen => write!(f, "{file}: cannot be opened"),
            RunRefusal::TooManyRows { rows } => write!(
                f,
                "{file}: TooManyRows: the record file would have {rows} rows; at most 65536 are accepted"
            ),
            RunRefusal::Questions(fault) => write!(f, "standard input: {}", QuestionText(fault)),
            RunRefusal::Write => write!(f, "standard output: cannot be written"),
            RunRefusal::Memory => write!(f, "memory: refused by the system"),
        }
    }
}

/// The lines for standard error that report a refusal: `gtdesk: WHERE: WHAT`, and what is shown below.
#[derive(Drop)]
pub struct RefusalLines<'a, 'b> {
    /// The refusal.
    pub refusal: Refusal,
    /// The name of the record file that it is about, if it is about one.
    pub file: &'a str,
    /// What is shown below its line.
    pub snippet: RefusalSnippet<'b>,
}

impl Display for RefusalLines<'_, '_> {
    ghost output = { λ lines. Some (refusal_lines lines.file.now lines.refusal lines.snippet) };

    fn fmt<W: fmt::Write>(&self, f: &mut Formatter<W>) -> fmt::Result {
        let file = self.file;
        let snippet = self.snippet;
        match self.refusal {
            Refusal::Words(refusal) => write!(f, "gtdesk: {}\n{snippet}", WordsLine(refusal)),
            Refusal::Run(refusal) => write!(f, "gtdesk: {}\n{snippet}", RunLine { refusal, file }),
        }
    }
}
