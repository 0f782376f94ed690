//! The command `conditions`.

ghost use Rattle.std.specs.Prelude.{MatchResult};
ghost use Rattle.clap.specs.Matches.{found_of};
ghost use Rattle.clap.specs.Walk.{rows_of};
ghost use Rattle.gtdesk_plans.specs.Arguments.{Builds};
ghost use Rattle.gtdesk_plans.specs.Commands.Conditions.{Asks, app, words};
ghost use Rattle.gtdesk_words.specs.Readings.{AreStopped};

use crate::arguments::{
    Argument, DAWN, DAY_NAMES, DUSK, HOLIDAYS, OPEN_END, POINTS, SUNRISE, SUNSET, YEARS,
    with_arguments,
};
use crate::given::text;
use crate::options::{HoursOptions, options_of};
use crate::plans::Plan;
use clap::{ArgMatches, Command};
use gtdesk_words::WordsRefusal;
use std::alloc::{AllocError, Global};

/// A file of tags of ways, and a table of what their names mean.
#[derive(Drop)]
pub struct ConditionsPlan {
    /// The path of the file of tags, or `-` for standard input.
    pub tags: String,
    /// The path of the table of means, or `-` for standard input.
    pub means: String,
    /// How opening hours in conditions are read.
    pub options: HoursOptions,
}

// What help says at the end.
const EXAMPLES: &str = "\
Examples:
  gtdesk conditions tags.csv means.csv > records.csv
  gtdesk conditions --holidays holidays.csv --years 2026-2030 tags.csv means.csv > records.csv";

// What help says of it.
const ABOUT: &str =
    "Print the record file of the tags of ways that say, with conditions or without, who may use them and when";

// Its words and options.
const ARGUMENTS: [Argument; 12] = [
    Argument::Flag {
        name: "strict",
        help: "Take opening hours that are written loosely as faults",
    },
    DAY_NAMES,
    HOLIDAYS,
    YEARS,
    OPEN_END,
    POINTS,
    SUNRISE,
    SUNSET,
    DAWN,
    DUSK,
    Argument::Word {
        name: "TAGS",
        help: "The file of tags, with the columns element, key and value",
    },
    Argument::Word {
        name: "MEANS",
        help: "The table of means, with the columns kind, name and means: what modes, conditions and values stand for",
    },
];

/// The command for `clap`.
pub(crate) fn command<'a>(alloc: Global) -> Result<Command<'a>, AllocError>
    ensures { Builds app result }
{
    let command = Command::new(alloc, "conditions")
        .about(ABOUT)
        .after_help(EXAMPLES);
    with_arguments(alloc, command, &ARGUMENTS)
}

/// What the words given ask for.
pub(crate) fn plan(alloc: Global, given: &ArgMatches<'_>) -> Result<Plan, WordsRefusal>
    ensures { MatchResult result (Asks (rows_of (found_of given.now))) (AreStopped (words (rows_of (found_of given.now)))) }
{
    let options = match options_of(alloc, given) {
        Ok(options) => options,
        Err(refusal) => return Err(refusal),
    };
    let tags = match String::from_str(alloc, text(given, "TAGS")) {
        Ok(tags) => tags,
        Err(_) => return Err(WordsRefusal::Memory),
    };
    match String::from_str(alloc, text(given, "MEANS")) {
        Ok(means) => Ok(Plan::Conditions(ConditionsPlan {
            tags,
            means,
            options,
        })),
        Err(_) => Err(WordsRefusal::Memory),
    }
}
