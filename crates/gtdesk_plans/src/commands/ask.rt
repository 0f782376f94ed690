//! The command `ask`.

ghost use Rattle.std.specs.Prelude.{MatchResult};
ghost use Rattle.clap.specs.Matches.{found_of};
ghost use Rattle.clap.specs.Walk.{rows_of};
ghost use Rattle.gtdesk_plans.specs.Arguments.{Builds};
ghost use Rattle.gtdesk_plans.specs.Commands.Ask.{Asks, app, words};
ghost use Rattle.gtdesk_words.specs.Readings.{AreStopped};

use crate::arguments::{Argument, command_of};
use crate::given::text;
use crate::plans::Plan;
use clap::{ArgMatches, Command};
use gtdesk_words::WordsRefusal;
use std::alloc::{AllocError, Global};

// What help says of it.
const ABOUT: &str =
    "Answer the questions on standard input: whether elements of a record file are open at a moment, and until when";

// Its words and options.
const ARGUMENTS: [Argument; 1] = [Argument::Word {
    name: "FILE",
    help: "The record file; the questions have the columns element, direction, vehicle and moment",
}];

/// The command for `clap`.
pub(crate) fn command<'a>(alloc: Global) -> Result<Command<'a>, AllocError>
    ensures { Builds app result }
{
    command_of(alloc, "ask", ABOUT, &ARGUMENTS)
}

/// What the words given ask for.
pub(crate) fn plan(alloc: Global, given: &ArgMatches<'_>) -> Result<Plan, WordsRefusal>
    ensures { MatchResult result (Asks (rows_of (found_of given.now))) (AreStopped (words (rows_of (found_of given.now)))) }
{
    match String::from_str(alloc, text(given, "FILE")) {
        Ok(file) => Ok(Plan::Ask(file)),
        Err(_) => Err(WordsRefusal::Memory),
    }
}
