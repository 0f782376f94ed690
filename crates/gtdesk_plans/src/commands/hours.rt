//! The command `hours`, of a text of opening hours and of a time domain.

ghost use Rattle.std.specs.Prelude.{MatchResult};
ghost use Rattle.clap.specs.Matches.{found_of};
ghost use Rattle.clap.specs.Walk.{rows_of};
ghost use Rattle.gtdesk_plans.specs.Arguments.{Builds};
ghost use Rattle.gtdesk_plans.specs.Commands.Hours.{Asks, AsksOf, app, words, words_of};
ghost use Rattle.gtdesk_words.specs.Readings.{AreStopped};

use crate::arguments::{
    Argument, DAWN, DAY_NAMES, DUSK, HOLIDAYS, OPEN_END, POINTS, SUNRISE, SUNSET, YEARS,
    with_arguments,
};
use crate::given::text;
use crate::options::{HoursOptions, options_of};
use crate::plans::{OnePlan, Plan};
use clap::{ArgMatches, Command};
use gtdesk_words::{WordName, WordsRefusal, domain_of};
use std::alloc::{AllocError, Global};

/// A text of opening hours.
#[derive(Drop)]
pub struct HoursPlan {
    /// The text.
    pub text: String,
    /// How it is read.
    pub options: HoursOptions,
}

// What help says at the end.
const EXAMPLES: &str = "\
Examples:
  gtdesk hours 'Mo-Fr 08:00-17:00' prints [[(t2t3t4t5t6h0m0){d1}]*[(h8m0){m540}]]
  gtdesk hours --of '(t6h22m0){d1}*(h22m0){m360}' prints Fr 22:00-04:00";

// What help says of it.
const ABOUT: &str =
    "Print the time domain with exactly the seconds at which opening hours of OpenStreetMap are open, \
    or opening hours that are open at exactly the seconds of a time domain";

// Its words and options.
const ARGUMENTS: [Argument; 12] = [
    Argument::Flag {
        name: "strict",
        help: "Refuse a text that is written loosely",
    },
    DAY_NAMES,
    HOLIDAYS,
    YEARS,
    OPEN_END,
    POINTS,
    SUNRISE,
    SUNSET,
    DAWN,
    DUSK,
    Argument::FreeWord {
        name: "TEXT",
        help: "The opening hours",
    },
    Argument::Option {
        name: "of",
        value: "DOMAIN",
        help: "The time domain, made of days from midnight and ranges of times in minutes",
    },
];

/// The command for `clap`. Of its word and its option one is to be given, which the library does not see to.
pub(crate) fn command<'a>(alloc: Global) -> Result<Command<'a>, AllocError>
    ensures { Builds app result }
{
    let command = Command::new(alloc, "hours")
        .about(ABOUT)
        .override_usage("gtdesk hours <[OPTIONS] <TEXT>|--of <DOMAIN>>")
        .after_help(EXAMPLES);
    with_arguments(alloc, command, &ARGUMENTS)
}

/// What the words given ask for, if there is a text.
pub(crate) fn plan(alloc: Global, given: &ArgMatches<'_>) -> Result<Plan, WordsRefusal>
    ensures { MatchResult result (Asks (rows_of (found_of given.now))) (AreStopped (words (rows_of (found_of given.now)))) }
{
    let options = match options_of(alloc, given) {
        Ok(options) => options,
        Err(refusal) => return Err(refusal),
    };
    match String::from_str(alloc, text(given, "TEXT")) {
        Ok(text) => Ok(Plan::One(OnePlan::DomainOf(HoursPlan { text, options }))),
        Err(_) => Err(WordsRefusal::Memory),
    }
}

/// What they ask for, if there is a domain.
pub(crate) fn plan_of(alloc: Global, given: &ArgMatches<'_>) -> Result<Plan, WordsRefusal>
    ensures { MatchResult result (AsksOf (rows_of (found_of given.now)))
        (AreStopped (words_of (rows_of (found_of given.now)))) }
{
    match domain_of(alloc, WordName::Domain, text(given, "of")) {
        Ok(domain) => Ok(Plan::One(OnePlan::HoursOf(domain))),
        Err(refusal) => Err(refusal),
    }
}
