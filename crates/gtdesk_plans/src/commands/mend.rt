//! The command `mend`, of a record file and of a text of opening hours.

ghost use Rattle.std.specs.Prelude.{MatchResult};
ghost use Rattle.clap.specs.Matches.{found_of};
ghost use Rattle.clap.specs.Walk.{rows_of};
ghost use Rattle.gtdesk_plans.specs.Arguments.{Builds};
ghost use Rattle.gtdesk_plans.specs.Commands.Mend.{Asks, AsksHours, app, hours_words, words};
ghost use Rattle.gtdesk_words.specs.Readings.{AreStopped};

use crate::arguments::{Argument, DAY_NAMES, with_arguments};
use crate::given::{text, value};
use crate::plans::{OnePlan, Plan};
use clap::{ArgMatches, Command};
use gtd_hours_loose_tokens::DayNames;
use gtdesk_words::{WordsRefusal, day_names_of};
use std::alloc::{AllocError, Global};

/// A text of opening hours that is to be written strictly.
#[derive(Drop)]
pub struct MendHoursPlan {
    /// The text.
    pub text: String,
    /// What `Di`, `Do` and `So` are.
    pub names: DayNames,
}

// What help says of it.
const ABOUT: &str =
    "Print a record file with its faults mended where that is safe, or opening hours as they are strictly written";

// Its words and options.
const ARGUMENTS: [Argument; 3] = [
    Argument::Word {
        name: "FILE",
        help: "The record file, or - for standard input; or the word hours",
    },
    Argument::FreeWord {
        name: "TEXT",
        help: "The opening hours, behind the word hours",
    },
    DAY_NAMES,
];

/// The command for `clap`. Its second word and its option go with one first word, which the library does not see to.
pub(crate) fn command<'a>(alloc: Global) -> Result<Command<'a>, AllocError>
    ensures { Builds app result }
{
    let command = Command::new(alloc, "mend")
        .about(ABOUT)
        .override_usage("gtdesk mend <FILE|[OPTIONS] hours <TEXT>>");
    with_arguments(alloc, command, &ARGUMENTS)
}

/// What the words given ask for, if there is a file.
pub(crate) fn plan(alloc: Global, given: &ArgMatches<'_>) -> Result<Plan, WordsRefusal>
    ensures { MatchResult result (Asks (rows_of (found_of given.now))) (AreStopped (words (rows_of (found_of given.now)))) }
{
    match String::from_str(alloc, text(given, "FILE")) {
        Ok(file) => Ok(Plan::One(OnePlan::Mend(file))),
        Err(_) => Err(WordsRefusal::Memory),
    }
}

/// What they ask for, if there is a text of opening hours.
pub(crate) fn plan_hours(alloc: Global, given: &ArgMatches<'_>) -> Result<Plan, WordsRefusal>
    ensures { MatchResult result (AsksHours (rows_of (found_of given.now)))
        (AreStopped (hours_words (rows_of (found_of given.now)))) }
{
    let names = match day_names_of(value(given, "day-names")) {
        Ok(names) => names,
        Err(refusal) => return Err(refusal),
    };
    match String::from_str(alloc, text(given, "TEXT")) {
        Ok(text) => Ok(Plan::One(OnePlan::MendHours(MendHoursPlan { text, names }))),
        Err(_) => Err(WordsRefusal::Memory),
    }
}
