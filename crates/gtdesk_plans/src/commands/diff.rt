//! The command `diff`.

ghost use Rattle.std.specs.Prelude.{MatchResult};
ghost use Rattle.clap.specs.Matches.{found_of};
ghost use Rattle.clap.specs.Walk.{rows_of};
ghost use Rattle.gtdesk_plans.specs.Arguments.{Builds};
ghost use Rattle.gtdesk_plans.specs.Commands.Diff.{Asks, app, words};
ghost use Rattle.gtdesk_words.specs.Readings.{AreStopped};

use crate::arguments::{Argument, VEHICLE, command_of};
use crate::given::{is_given, text};
use crate::plans::Plan;
use clap::{ArgMatches, Command};
use gtd_core::Horizon;
use gtdesk_words::{WordsRefusal, days_of, vehicle_of};
use std::alloc::{AllocError, Global};

/// Two record files, and for what they are compared.
#[derive(Drop)]
pub struct DiffPlan {
    /// The path of the old file, or `-` for standard input.
    pub old: String,
    /// The path of the new file, or `-` for standard input.
    pub new: String,
    /// The days.
    pub horizon: Horizon,
    /// The vehicle type, from 1 to 99.
    pub vehicle: u8,
    /// Whether each interval has the rows that close the element when it begins.
    pub rows: bool,
    /// Whether each element that differs has one line in place of its intervals.
    pub summary: bool,
}

// What help says of it.
const ABOUT: &str =
    "Print when each element of either of two record files was opened or closed from the one to the other";

// Its words and options.
const ARGUMENTS: [Argument; 7] = [
    Argument::Word {
        name: "OLD",
        help: "The record file as it was",
    },
    Argument::Word {
        name: "NEW",
        help: "The record file as it is to be",
    },
    Argument::Word {
        name: "FROM",
        help: "The first day, YYYY-MM-DD",
    },
    Argument::Word {
        name: "TO",
        help: "The day after the last, YYYY-MM-DD",
    },
    VEHICLE,
    Argument::Flag {
        name: "rows",
        help: "Print the rows of either file that close the element when an interval begins, too",
    },
    Argument::Flag {
        name: "summary",
        help: "Print the seconds in which each element that differs is open, in place of the intervals",
    },
];

/// The command for `clap`.
pub(crate) fn command<'a>(alloc: Global) -> Result<Command<'a>, AllocError>
    ensures { Builds app result }
{
    command_of(alloc, "diff", ABOUT, &ARGUMENTS)
}

/// What the words given ask for.
pub(crate) fn plan(alloc: Global, given: &ArgMatches<'_>) -> Result<Plan, WordsRefusal>
    ensures { MatchResult result (Asks (rows_of (found_of given.now))) (AreStopped (words (rows_of (found_of given.now)))) }
{
    let horizon = match days_of(text(given, "FROM"), text(given, "TO")) {
        Ok(horizon) => horizon,
        Err(refusal) => return Err(refusal),
    };
    let vehicle = match vehicle_of(text(given, "VEHICLE")) {
        Ok(vehicle) => vehicle,
        Err(refusal) => return Err(refusal),
    };
    let old = match String::from_str(alloc, text(given, "OLD")) {
        Ok(old) => old,
        Err(_) => return Err(WordsRefusal::Memory),
    };
    match String::from_str(alloc, text(given, "NEW")) {
        Ok(new) => Ok(Plan::Diff(DiffPlan {
            old,
            new,
            horizon,
            vehicle,
            rows: is_given(given, "rows"),
            summary: is_given(given, "summary"),
        })),
        Err(_) => Err(WordsRefusal::Memory),
    }
}
