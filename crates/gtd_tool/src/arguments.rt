//! The command line, as `clap` reads it: the name of a command, and positional words.

ghost use Rattle.std.specs.Prelude.{List, ◌≡◌, ◌⊎◌, if◌then◌else◌, [], None, false, IfErr, IfOk, MatchOption, map, string_bytes};
ghost use Rattle.clap.specs.Simple.{app_of, with_subcommand};
ghost use Rattle.clap.specs.Values.{kind_of};
ghost use Rattle.gtd_tool.specs.Asked.{Text, texts};
ghost use Rattle.gtd_tool.specs.ClapCommand.{HasGiven, gtd_app, is_memory, leaf_given, none_given, with_commands};
ghost use Rattle.gtd_tool.specs.CommandLines.{named_in, reading_in};
ghost use Rattle.gtd_tool.specs.Plans.{AsksFor, IsReadTo, asked_by};
ghost use Rattle.gtd_tool.specs.Refusals.{IsStoppedBy};

use crate::commands::read_command;
use crate::plans::Plan;
use crate::refusal::Refusal;
use clap::error::ErrorKind;
use clap::{Arg, ArgAction, ArgMatches, Command};
use std::alloc::{AllocError, Global};

// The program without its commands. A request for help is refused, as is any other option.
fn without_commands<'a>(alloc: Global) -> Command<'a>
    ensures { app_of result ≡ none_given }
{
    Command::new(alloc, "gtd")
        .no_binary_name(true)
        .disable_help_flag(true)
        .disable_help_subcommand(true)
        .subcommand_required(true)
}

// Adds a command that has only positional words. Their number is checked after they are read.
fn add_command<'a>(
    alloc: Global,
    program: Command<'a>,
    name: &'a str,
) -> Result<Command<'a>, AllocError>
    ensures { IfOk result (λ c.
        app_of c ≡ with_subcommand (app_of program.entry) (leaf_given name.entry.now)) }
{
    let words = Arg::new(alloc, "WORDS").action(ArgAction::Append);
    let command = Command::new(alloc, name).arg(words)?;
    program.subcommand(command)
}

// Adds a command of each name.
fn add_commands<'a>(
    alloc: Global,
    program: Command<'a>,
    names: &[&'a str],
) -> Result<Command<'a>, AllocError>
    ensures { IfOk result (λ c.
        app_of c ≡ with_commands (app_of program.entry) (texts names.now)) }
{
    let mut program = program;
    for name in names {
        program = add_command(alloc, program, name)?;
    }
    Ok(program)
}

// The program with all its commands.
fn gtd<'a>(alloc: Global) -> Result<Command<'a>, AllocError>
    ensures { IfOk result (λ c. app_of c ≡ gtd_app) }
{
    add_commands(
        alloc,
        without_commands(alloc),
        &[
            "check", "canon", "at", "next", "ever", "schedule", "year", "migrate",
        ],
    )
}

// An error of `clap` is a refusal of memory or a fault of usage.
fn usage_refusal(error: &clap::Error) -> Refusal
    ensures { result ≡ (if is_memory (kind_of error.now) then Refusal.Memory else Refusal.Usage) }
{
    match error.kind() {
        ErrorKind::OutOfMemory => Refusal::Memory,
        _ => Refusal::Usage,
    }
}

// What `clap` finds in the words.
fn parse<'a>(alloc: Global, words: &'a [String]) -> Result<ArgMatches<'a>, Refusal>
    ensures found { IfOk result (HasGiven (map string_bytes words.entry.now)) }
    ensures refused { IfErr result (λ r. (r ≡ Refusal.Memory)
        ⊎ ((r ≡ Refusal.Usage) × (named_in (map string_bytes words.entry.now) ≡ None))) }
{
    let Ok(program) = gtd(alloc) else {
        return Err(Refusal::Memory);
    };
    match program.try_get_matches_from(words) {
        Ok(matches) => Ok(matches),
        Err(error) => Err(usage_refusal(&error)),
    }
}

// The plan of the command and the words that the matches hold.
fn read_given(alloc: Global, matches: &ArgMatches<'_>) -> Option<Result<Plan, Refusal>>
    ensures { (words : List Text) → HasGiven words matches.now
        → MatchOption result ⊥ (IsReadTo (reading_in words)) }
{
    let (name, given) = matches.subcommand()?;
    let words = given.get_strs("WORDS").unwrap_or(&[]);
    Some(read_command(alloc, name, words))
}

/// The plan of the words after the program's name.
pub fn plan_words(alloc: Global, words: &[String]) -> Result<Plan, Refusal>
    ensures asked { IfOk result (λ plan. AsksFor (map string_bytes words.now) (asked_by plan)) }
    ensures stopped { IfErr result (IsStoppedBy (reading_in (map string_bytes words.now))) }
{
    let matches = parse(alloc, words)?;
    match read_given(alloc, &matches) {
        Some(result) => result,
        None => Err(Refusal::Usage),
    }
}
