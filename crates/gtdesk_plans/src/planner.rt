//! From the words of a command line to a plan.

ghost use Rattle.std.specs.Prelude.{◌≡◌, ◌⊎◌, Err, IfErr, IfOk, MatchResult, Ok, map, string_bytes};
ghost use Rattle.clap.specs.Faults.{fault_of};
ghost use Rattle.clap.specs.Kinds.{HasKind};
ghost use Rattle.clap.specs.Matches.{found_of};
ghost use Rattle.clap.specs.Simple.{subcommand_rows_of};
ghost use Rattle.clap.specs.Walk.{rows_of};
ghost use Rattle.clap.specs.declared.error.kind.ErrorKind.TheVariants.{DisplayVersion};
ghost use Rattle.gtdesk_plans.specs.CommandLine as spec;
ghost use Rattle.gtdesk_plans.specs.CommandLine.{desk_app, version_line};
ghost use Rattle.gtdesk_plans.specs.Commands.{asks_of, words_of};
ghost use Rattle.gtdesk_plans.specs.Given.{Give, Given, asked_words, given_in, help_words};
ghost use Rattle.gtdesk_plans.specs.Plans.{AreRefused, AskFor, Asks, IsRefused, IsShown, IsWordFault, IsWordless, KeepsWord};
ghost use Rattle.gtdesk_plans.specs.Refused.{IsKept};
ghost use Rattle.gtdesk_words.specs.Readings.{AreStopped};
ghost use Rattle.gtdesk_words.specs.declared.refusal.WordsRefusal.{WordsRefusal};

use crate::command_line::parse;
use crate::commands::{
    ask, conditions, diff, faults, hours, mend, now, picture, records, same, words,
};
use crate::forms::{Form, Misuse, form_of};
use crate::hints::meant_by;
use crate::plans::{OnePlan, Plan};
use crate::refused::{LineRefusal, refused, word_at, wordless};
use clap::ArgMatches;
use clap::error::ErrorKind;
use gtdesk_words::WordsRefusal;
use std::alloc::{AllocError, Global};

// The line of the version.
const VERSION_LINE: &str = "gtdesk 0.1.0\n";

// Whether the words ask for help or the version.
fn is_request(kind: ErrorKind) -> bool
    ensures { result ≡ spec.is_request kind }
{
    match kind {
        ErrorKind::DisplayHelp => true,
        ErrorKind::DisplayVersion => true,
        _ => false,
    }
}

// Whether memory was refused.
fn is_memory(kind: ErrorKind) -> bool
    ensures { result ≡ spec.is_memory kind }
{
    match kind {
        ErrorKind::OutOfMemory => true,
        _ => false,
    }
}

// The text asked for: the line of the version, or help as the library makes it.
fn text_of(alloc: Global, error: &clap::Error, kind: ErrorKind) -> Result<String, AllocError>
    ensures { IfOk result (λ text. kind ≡ DisplayVersion → string_bytes text ≡ version_line) }
{
    match kind {
        ErrorKind::DisplayVersion => String::from_str(alloc, VERSION_LINE),
        _ => format!(in alloc; "{error}"),
    }
}

// The plan that shows the text asked for.
fn show(alloc: Global, error: &clap::Error, kind: ErrorKind) -> Result<Plan, WordsRefusal>
    ensures { MatchResult result (IsShown kind) (λ r. r ≡ WordsRefusal.Memory) }
{
    match text_of(alloc, error, kind) {
        Ok(text) => Ok(Plan::One(OnePlan::Show(text))),
        Err(_) => Err(WordsRefusal::Memory),
    }
}

// What is wrong with words that have a fault of this kind.
fn usage_text(kind: ErrorKind) -> &'static str
    ensures { result.now ≡ spec.usage_text kind }
{
    match kind.as_str() {
        Some(text) => text,
        None => "the words are not understood",
    }
}

// The plan for words in which `clap` finds no command: to show the text that they ask for. Otherwise their refusal.
fn plan_error(alloc: Global, error: &clap::Error, words: &[String]) -> Result<Plan, WordsRefusal>
    ensures asked { HasKind (fault_of desk_app (map string_bytes words.now)) error.now
        → MatchResult result (AskFor (map string_bytes words.now)) (AreRefused (map string_bytes words.now)) }
    ensures wordless { IfErr result IsWordless }
{
    let kind = error.kind();
    if is_memory(kind) {
        return Err(WordsRefusal::Memory);
    }
    if is_request(kind) {
        return show(alloc, error, kind);
    }
    let told = usage_text(kind);
    let meant = meant_by(kind, words);
    Err(WordsRefusal::Usage { told, meant })
}

// The plan of a command with its words.
fn plan_form(alloc: Global, form: Form, given: &ArgMatches<'_>) -> Result<Plan, WordsRefusal>
    ensures { MatchResult result (asks_of form (rows_of (found_of given.now)))
        (AreStopped (words_of form (rows_of (found_of given.now)))) }
{
    match form {
        Form::Now => now::plan(alloc, given),
        Form::NowIn => now::plan_zone(alloc, given),
        Form::Faults => faults::plan(alloc, given),
        Form::Words => words::plan(alloc, given),
        Form::Hours => hours::plan(alloc, given),
        Form::HoursOf => hours::plan_of(alloc, given),
        Form::Same => same::plan(alloc, given),
        Form::SameHours => same::plan_hours(alloc, given),
        Form::SameRows => same::plan_file(alloc, given),
        Form::Diff => diff::plan(alloc, given),
        Form::Ask => ask::plan(alloc, given),
        Form::Records => records::plan(alloc, given),
        Form::Conditions => conditions::plan(alloc, given),
        Form::Mend => mend::plan(alloc, given),
        Form::MendHours => mend::plan_hours(alloc, given),
        Form::Picture => picture::plan(alloc, given),
        Form::PictureDomain => picture::plan_domain(alloc, given),
    }
}

// The same, with the word that is refused.
fn plan_given(alloc: Global, form: Form, given: &ArgMatches<'_>) -> Result<Plan, LineRefusal>
    ensures asked { MatchResult result (asks_of form (rows_of (found_of given.now)))
        (λ r. AreStopped (words_of form (rows_of (found_of given.now))) r.why) }
    ensures kept { IfErr result (λ r. IsKept (words_of form (rows_of (found_of given.now))) r.why (string_bytes r.text)) }
{
    match plan_form(alloc, form, given) {
        Ok(plan) => Ok(plan),
        Err(why) => Err(refused(alloc, why, word_at(form, why, given))),
    }
}

// The command that the matches hold, with what was found for it; or what is wrong with its words.
fn given<'m, 'a>(matches: &'m ArgMatches<'a>) -> Result<(Form, &'m ArgMatches<'a>), Misuse>
    ensures { MatchResult result
        (λ found. given_in (subcommand_rows_of matches.now)
        ≡ Ok (record { form = found.0; rows = rows_of (found_of found.1.now) }))
        (λ misuse. given_in (subcommand_rows_of matches.now) ≡ Err misuse) }
{
    match matches.subcommand() {
        Some((name, given)) => match form_of(name, given) {
            Ok(form) => Ok((form, given)),
            Err(misuse) => Err(misuse),
        },
        None => Err(Misuse::Nothing),
    }
}

// The plan of the words after the program's name.
fn plan_line(alloc: Global, words: &[String]) -> Result<Plan, LineRefusal>
    ensures asked { MatchResult result (AskFor (map string_bytes words.now))
        (λ r. AreRefused (map string_bytes words.now) r.why) }
    ensures kept { IfErr result (λ r. KeepsWord (map string_bytes words.now) r.why (string_bytes r.text)) }
{
    match parse(alloc, words) {
        Ok(matches) => match given(&matches) {
            Ok((form, given)) => plan_given(alloc, form, given),
            Err(misuse) => {
                let told = misuse.told();
                Err(wordless(alloc, WordsRefusal::Usage { told, meant: None }))
            }
        },
        Err(error) => match plan_error(alloc, &error, words) {
            Ok(plan) => Ok(plan),
            Err(why) => Err(wordless(alloc, why)),
        },
    }
}

// The plan of a program that is given no words: it is asked for its help.
fn plan_help(alloc: Global) -> Result<Plan, LineRefusal>
    ensures asked { MatchResult result (AskFor help_words) (λ r. AreRefused help_words r.why) }
    ensures kept { IfErr result (λ r. KeepsWord help_words r.why (string_bytes r.text)) }
{
    match String::from_str(alloc, "--help") {
        Ok(help) => plan_line(alloc, &[help]),
        Err(_) => Err(wordless(alloc, WordsRefusal::Memory)),
    }
}

// The plan of the words after the program's name, of which there may be none.
fn plan_asked(alloc: Global, words: &[String]) -> Result<Plan, LineRefusal>
    ensures asked { MatchResult result (AskFor (asked_words (map string_bytes words.now)))
        (λ r. AreRefused (asked_words (map string_bytes words.now)) r.why) }
    ensures kept { IfErr result (λ r. KeepsWord (asked_words (map string_bytes words.now)) r.why (string_bytes r.text)) }
{
    match words.split_first() {
        Some(_) => plan_line(alloc, words),
        None => plan_help(alloc),
    }
}

/// What the words after the program's name ask for, or why they are refused. Without words, they ask for help.
///
/// In order: `Usage` if they neither give a command with its words nor ask for help; then `Word` for the first of the command's
/// words that stands for nothing, from left to right and its options last, with that word. If memory was refused, `Memory` is the
/// answer in place of these.
pub fn plan(alloc: Global, words: Vec<String>) -> Result<Plan, LineRefusal>
    // The plan is what the words ask for.
    ensures asked { IfOk result (AskFor (asked_words (map string_bytes words.items))) }
    // The refusal is one that the words have, unless memory was refused.
    ensures refused { IfErr result (λ r. AreRefused (asked_words (map string_bytes words.items)) r.why) }
    // If it is for a word, it keeps that word.
    ensures kept { IfErr result (λ r. KeepsWord (asked_words (map string_bytes words.items)) r.why (string_bytes r.text)) }
    // If the words give a command, the plan is what that command asks for; or the refusal is for the first of its words that
    // stands for nothing, unless memory was refused.
    ensures only { (given : Given) → Give (asked_words (map string_bytes words.items)) given
        → MatchResult result (Asks given) (λ r. IsRefused given r.why) }
    // If a word of the command stands for nothing, the first such word gives the refusal, unless memory is refused.
    ensures first { (given : Given) (refusal : WordsRefusal) → Give (asked_words (map string_bytes words.items)) given
        → IsWordFault given refusal
        → MatchResult result (λ plan. ⊥) (λ r. (r.why ≡ WordsRefusal.Memory) ⊎ (r.why ≡ refusal)) }
    // If each of its words stands for something, they are planned, unless memory is refused.
    ensures planned { (given : Given) → Give (asked_words (map string_bytes words.items)) given
        → ((refusal : WordsRefusal) → IsWordFault given refusal → ⊥)
        → MatchResult result (Asks given) (λ r. r.why ≡ WordsRefusal.Memory) }
{
    plan_asked(alloc, words.as_slice())
}
