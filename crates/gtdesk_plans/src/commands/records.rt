//! The command `records`.

ghost use Rattle.std.specs.Prelude.{MatchResult};
ghost use Rattle.clap.specs.Matches.{found_of};
ghost use Rattle.clap.specs.Walk.{rows_of};
ghost use Rattle.gtdesk_plans.specs.Arguments.{Builds};
ghost use Rattle.gtdesk_plans.specs.Commands.Records.{Asks, app, words};
ghost use Rattle.gtdesk_words.specs.Readings.{AreStopped};

use crate::arguments::{
    Argument, DAWN, DAY_NAMES, DUSK, HOLIDAYS, OPEN_END, POINTS, SUNRISE, SUNSET, YEARS, command_of,
};
use crate::given::texts;
use crate::options::{HoursOptions, options_of};
use crate::plans::{OnePlan, Plan};
use clap::{ArgMatches, Command};
use gtdesk_words::WordsRefusal;
use std::alloc::{AllocError, Global};

/// Files of opening hours.
#[derive(Drop)]
pub struct RecordsPlan {
    /// Their paths, of which one may be `-` for standard input.
    pub files: Vec<String>,
    /// How their texts are read.
    pub options: HoursOptions,
}

// What help says of it.
const ABOUT: &str =
    "Print the record file of each file of opening hours, with a time domain for the hours of each row";

// Its words and options.
const ARGUMENTS: [Argument; 11] = [
    Argument::Flag {
        name: "strict",
        help: "Take texts that are written loosely as faults",
    },
    DAY_NAMES,
    HOLIDAYS,
    YEARS,
    OPEN_END,
    POINTS,
    SUNRISE,
    SUNSET,
    DAWN,
    DUSK,
    Argument::Words {
        name: "FILE",
        help: "The files, with the columns element, direction, vehicles and hours; one may be - for standard input",
    },
];

/// The command for `clap`.
pub(crate) fn command<'a>(alloc: Global) -> Result<Command<'a>, AllocError>
    ensures { Builds app result }
{
    command_of(alloc, "records", ABOUT, &ARGUMENTS)
}

/// What the words given ask for.
pub(crate) fn plan(alloc: Global, given: &ArgMatches<'_>) -> Result<Plan, WordsRefusal>
    ensures { MatchResult result (Asks (rows_of (found_of given.now))) (AreStopped (words (rows_of (found_of given.now)))) }
{
    let options = match options_of(alloc, given) {
        Ok(options) => options,
        Err(refusal) => return Err(refusal),
    };
    match texts(alloc, given, "FILE") {
        Ok(files) => Ok(Plan::One(OnePlan::Records(RecordsPlan { files, options }))),
        Err(_) => Err(WordsRefusal::Memory),
    }
}
