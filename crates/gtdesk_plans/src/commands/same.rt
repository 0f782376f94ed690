//! The command `same`, of time domains, of opening hours, and of the rows of a file.

ghost use Rattle.std.specs.Prelude.{MatchResult};
ghost use Rattle.clap.specs.Matches.{found_of};
ghost use Rattle.clap.specs.Walk.{rows_of};
ghost use Rattle.gtdesk_plans.specs.Arguments.{Builds};
ghost use Rattle.gtdesk_plans.specs.Commands.Same.{Asks, AsksFile, AsksHours, app, file_words, hours_words, words};
ghost use Rattle.gtdesk_words.specs.Readings.{AreStopped};

use crate::arguments::{Argument, with_arguments};
use crate::given::{text, texts, value};
use crate::plans::{OnePlan, Plan};
use clap::{ArgMatches, Command};
use gtd_core::Domain;
use gtdesk_words::{Moment, WordName, WordsRefusal, domain_of, from_of, hours_of};
use std::alloc::{AllocError, Global};

/// How the seconds of two time domains compare.
#[derive(Drop)]
pub struct SamePlan {
    /// The first domain.
    pub first: Domain,
    /// The second domain.
    pub second: Domain,
    /// The second to compare from.
    pub from: Moment,
}

// What help says of it.
const ABOUT: &str =
    "Print whether two time domains have the same seconds, or the first second that one of them has alone; \
    or what the rows of record files say more than once";

// Its words and options.
const ARGUMENTS: [Argument; 5] = [
    Argument::Flag {
        name: "hours",
        help: "Take FIRST and SECOND as opening hours",
    },
    Argument::FreeWord {
        name: "FIRST",
        help: "A time domain",
    },
    Argument::FreeWord {
        name: "SECOND",
        help: "Another time domain",
    },
    Argument::Option {
        name: "from",
        value: "MOMENT",
        help: "The second, YYYY-MM-DDThh:mm:ss, to compare from; 1901-01-01T00:00:00 if none is given",
    },
    Argument::Options {
        name: "file",
        value: "FILE",
        help: "The record files, in each of which rows are compared with one another; one may be - for standard input",
    },
];

/// The command for `clap`. Either both words or the option of files are to be given, which the library does not see to.
pub(crate) fn command<'a>(alloc: Global) -> Result<Command<'a>, AllocError>
    ensures { Builds app result }
{
    let command = Command::new(alloc, "same").about(ABOUT).override_usage(
        "gtdesk same <[OPTIONS] <FIRST> <SECOND>|--file <FILE>...>",
    );
    with_arguments(alloc, command, &ARGUMENTS)
}

/// What the words given ask for.
pub(crate) fn plan(alloc: Global, given: &ArgMatches<'_>) -> Result<Plan, WordsRefusal>
    ensures { MatchResult result (Asks (rows_of (found_of given.now))) (AreStopped (words (rows_of (found_of given.now)))) }
{
    let first = match domain_of(alloc, WordName::First, text(given, "FIRST")) {
        Ok(first) => first,
        Err(refusal) => return Err(refusal),
    };
    let second = match domain_of(alloc, WordName::Second, text(given, "SECOND")) {
        Ok(second) => second,
        Err(refusal) => return Err(refusal),
    };
    match from_of(value(given, "from")) {
        Ok(from) => Ok(Plan::One(OnePlan::Same(SamePlan {
            first,
            second,
            from,
        }))),
        Err(refusal) => Err(refusal),
    }
}

/// The same of opening hours.
pub(crate) fn plan_hours(alloc: Global, given: &ArgMatches<'_>) -> Result<Plan, WordsRefusal>
    ensures { MatchResult result (AsksHours (rows_of (found_of given.now)))
        (AreStopped (hours_words (rows_of (found_of given.now)))) }
{
    let first = match hours_of(alloc, WordName::First, text(given, "FIRST")) {
        Ok(first) => first,
        Err(refusal) => return Err(refusal),
    };
    let second = match hours_of(alloc, WordName::Second, text(given, "SECOND")) {
        Ok(second) => second,
        Err(refusal) => return Err(refusal),
    };
    match from_of(value(given, "from")) {
        Ok(from) => Ok(Plan::One(OnePlan::Same(SamePlan {
            first,
            second,
            from,
        }))),
        Err(refusal) => Err(refusal),
    }
}

/// The same of the rows of files.
pub(crate) fn plan_file(alloc: Global, given: &ArgMatches<'_>) -> Result<Plan, WordsRefusal>
    ensures { MatchResult result (AsksFile (rows_of (found_of given.now)))
        (AreStopped (file_words (rows_of (found_of given.now)))) }
{
    match texts(alloc, given, "file") {
        Ok(files) => Ok(Plan::One(OnePlan::SameRows(files))),
        Err(_) => Err(WordsRefusal::Memory),
    }
}
