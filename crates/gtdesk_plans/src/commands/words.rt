//! The command `words`.

ghost use Rattle.std.specs.Prelude.{MatchResult};
ghost use Rattle.clap.specs.Matches.{found_of};
ghost use Rattle.clap.specs.Walk.{rows_of};
ghost use Rattle.gtdesk_plans.specs.Arguments.{Builds};
ghost use Rattle.gtdesk_plans.specs.Commands.Words.{Asks, app, words};
ghost use Rattle.gtdesk_words.specs.Readings.{AreStopped};

use crate::arguments::{Argument, DOMAIN, command_of};
use crate::given::{text, value};
use crate::plans::{OnePlan, Plan};
use clap::{ArgMatches, Command};
use gtd_core::Domain;
use gtd_phrases::Language;
use gtdesk_words::{WordName, WordsRefusal, domain_of, language_of};
use std::alloc::{AllocError, Global};

/// The words of a time domain.
#[derive(Drop)]
pub struct WordsPlan {
    /// The domain.
    pub domain: Domain,
    /// The language.
    pub language: Language,
}

// What help says of it.
const ABOUT: &str = "Say in plain words when a time domain holds";

// Its words and options.
const ARGUMENTS: [Argument; 2] = [
    DOMAIN,
    Argument::Option {
        name: "lang",
        value: "LANGUAGE",
        help: "The language: en, de or fr",
    },
];

/// The command for `clap`.
pub(crate) fn command<'a>(alloc: Global) -> Result<Command<'a>, AllocError>
    ensures { Builds app result }
{
    command_of(alloc, "words", ABOUT, &ARGUMENTS)
}

/// What the words given ask for.
pub(crate) fn plan(alloc: Global, given: &ArgMatches<'_>) -> Result<Plan, WordsRefusal>
    ensures { MatchResult result (Asks (rows_of (found_of given.now))) (AreStopped (words (rows_of (found_of given.now)))) }
{
    let domain = match domain_of(alloc, WordName::Domain, text(given, "DOMAIN")) {
        Ok(domain) => domain,
        Err(refusal) => return Err(refusal),
    };
    match language_of(value(given, "lang")) {
        Ok(language) => Ok(Plan::One(OnePlan::Words(WordsPlan { domain, language }))),
        Err(refusal) => Err(refusal),
    }
}
