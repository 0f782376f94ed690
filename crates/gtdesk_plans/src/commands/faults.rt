//! The command `faults`.

ghost use Rattle.std.specs.Prelude.{MatchResult};
ghost use Rattle.clap.specs.Matches.{found_of};
ghost use Rattle.clap.specs.Walk.{rows_of};
ghost use Rattle.gtdesk_plans.specs.Arguments.{Builds};
ghost use Rattle.gtdesk_plans.specs.Commands.Faults.{Asks, app, words};
ghost use Rattle.gtdesk_words.specs.Readings.{AreStopped};

use crate::arguments::{Argument, command_of};
use crate::given::{is_given, texts, value};
use crate::plans::{OnePlan, Plan};
use clap::{ArgMatches, Command};
use gtd_warnings::Asked;
use gtdesk_words::{WordsRefusal, days_after, rules_of};
use std::alloc::{AllocError, Global};

/// The faults of record files.
#[derive(Drop)]
pub struct FaultsPlan {
    /// The files' paths, or `-` for standard input, which is one of them at most.
    pub files: Vec<String>,
    /// Which warnings to list, too, if they are asked for.
    pub asked: Option<Asked>,
}

// What help says of it.
const ABOUT: &str =
    "List each row of record files that is at fault, with its first fault, or why a file is refused whole";

// Its words and options.
const ARGUMENTS: [Argument; 4] = [
    Argument::Flag {
        name: "warn",
        help: "Name the rows whose domain looks like a mistake, too",
    },
    Argument::Option {
        name: "allow",
        value: "RULE[,RULE..]",
        help: "With --warn: leave out what these rules tell",
    },
    Argument::Option {
        name: "at",
        value: "DAY",
        help: "With --warn: name the rows that are over on this day, YYYY-MM-DD, or within 30 days of it",
    },
    Argument::Words {
        name: "FILE",
        help: "The record files, of which one may be - for standard input",
    },
];

/// The command for `clap`. Two of its options are to be given with another, which the library does not see to.
pub(crate) fn command<'a>(alloc: Global) -> Result<Command<'a>, AllocError>
    ensures { Builds app result }
{
    command_of(alloc, "faults", ABOUT, &ARGUMENTS)
}

/// What the words given ask for.
pub(crate) fn plan(alloc: Global, given: &ArgMatches<'_>) -> Result<Plan, WordsRefusal>
    ensures { MatchResult result (Asks (rows_of (found_of given.now))) (AreStopped (words (rows_of (found_of given.now)))) }
{
    let off = match rules_of(alloc, value(given, "allow")) {
        Ok(off) => off,
        Err(refusal) => return Err(refusal),
    };
    let days = match days_after(value(given, "at")) {
        Ok(days) => days,
        Err(refusal) => return Err(refusal),
    };
    let asked = if is_given(given, "warn") {
        Some(Asked { off, days })
    } else {
        None
    };
    match texts(alloc, given, "FILE") {
        Ok(files) => Ok(Plan::One(OnePlan::Faults(FaultsPlan { files, asked }))),
        Err(_) => Err(WordsRefusal::Memory),
    }
}
