//! Refusals with the word that they are for.

ghost use Rattle.std.specs.Prelude.{◌≡◌, ◌⊎◌, [], string_bytes};
ghost use Rattle.clap.specs.Matches.{found_of};
ghost use Rattle.clap.specs.Walk.{rows_of};
ghost use Rattle.gtdesk_plans.specs.Refused as spec;
ghost use Rattle.gtdesk_words.specs.declared.refusal.WordsRefusal.{WordsRefusal};

use crate::commands::now::{moment_word, vehicle_word};
use crate::forms::Form;
use crate::given::text;
use clap::ArgMatches;
use gtdesk_words::{WordName, WordsRefusal};
use std::alloc::Global;

/// Why the words of a command line are refused, and the word that is.
#[derive(Drop)]
pub struct LineRefusal {
    /// Why.
    pub why: WordsRefusal,
    /// The word of the command that stands for nothing, as it was given; nothing, if the refusal is for no word.
    pub text: String,
}

/// The refusal that is for no word.
pub(crate) fn wordless(alloc: Global, why: WordsRefusal) -> LineRefusal
    ensures why { result.why ≡ why }
    ensures text { string_bytes result.text ≡ [] }
{
    LineRefusal {
        why,
        text: String::new(alloc),
    }
}

/// The refusal that keeps this text. If memory is refused for it, that is the refusal.
pub(crate) fn refused(alloc: Global, why: WordsRefusal, text: &str) -> LineRefusal
    ensures { ((result.why ≡ why) × (string_bytes result.text ≡ text.now))
        ⊎ ((result.why ≡ WordsRefusal.Memory) × (string_bytes result.text ≡ [])) }
{
    match String::from_str(alloc, text) {
        Ok(text) => LineRefusal { why, text },
        Err(_) => wordless(alloc, WordsRefusal::Memory),
    }
}

// The word of a command, as it was given.
fn word_of<'a>(form: Form, word: WordName, given: &ArgMatches<'a>) -> &'a str
    ensures { result.now ≡ spec.word_of form word (rows_of (found_of given.now)) }
{
    match word {
        WordName::Domain => match form {
            Form::HoursOf => text(given, "of"),
            _ => text(given, "DOMAIN"),
        },
        WordName::First => text(given, "FIRST"),
        WordName::Second => text(given, "SECOND"),
        WordName::Element => match form {
            Form::Picture => text(given, "ELEMENT"),
            _ => text(given, "element"),
        },
        WordName::Direction => text(given, "DIRECTION"),
        WordName::Vehicle => match form {
            Form::Now => vehicle_word(given),
            Form::NowIn => vehicle_word(given),
            _ => text(given, "VEHICLE"),
        },
        WordName::Year => text(given, "YEAR"),
        WordName::Moment => match form {
            Form::Now => moment_word(given),
            _ => text(given, "from"),
        },
        WordName::From => text(given, "FROM"),
        WordName::To => text(given, "TO"),
        WordName::Language => text(given, "lang"),
        WordName::Names => text(given, "day-names"),
        WordName::Years => text(given, "years"),
        WordName::OpenEnd => text(given, "open-end"),
        WordName::Points => text(given, "points"),
        WordName::Sunrise => text(given, "sunrise"),
        WordName::Sunset => text(given, "sunset"),
        WordName::Dawn => text(given, "dawn"),
        WordName::Dusk => text(given, "dusk"),
        WordName::Rule => text(given, "allow"),
        WordName::Day => text(given, "at"),
        WordName::Zone => text(given, "zone"),
    }
}

/// The word that a refusal of these words is for; nothing, if it is for none.
pub(crate) fn word_at<'a>(form: Form, why: WordsRefusal, given: &ArgMatches<'a>) -> &'a str
    ensures { result.now ≡ spec.word_at form why (rows_of (found_of given.now)) }
{
    match why {
        WordsRefusal::Word(fault) => word_of(form, fault.word, given),
        _ => "",
    }
}
