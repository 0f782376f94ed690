//! The command line as `clap` reads it.
//!
//! Memory may be refused while a command is built. What adds to a command then hands the refusal on.

ghost use Rattle.std.specs.Prelude.{◌≡◌, IfErr, IfOk, map, string_bytes, true};
ghost use Rattle.clap.specs.Faults.{fault_of};
ghost use Rattle.clap.specs.Kinds.{HasKind};
ghost use Rattle.clap.specs.Simple.{App, with_subcommand};
ghost use Rattle.gtdesk_plans.specs.Arguments.{Builds};
ghost use Rattle.gtdesk_plans.specs.CommandLine.{HasWords, desk_app, none_given};

use crate::commands::{
    ask, conditions, diff, faults, hours, mend, now, picture, records, same, words,
};
use clap::{ArgMatches, Command};
use std::alloc::{AllocError, Global};

// The program without its commands. A usage line begins with the program's name; the words that are read do not.
fn without_commands<'a>(alloc: Global) -> Result<Command<'a>, AllocError>
    ensures { Builds none_given result }
{
    Command::new(alloc, "gtdesk")
        .no_binary_name(true)
        .version("0.1.0")
        .about("Time domains and road restrictions, for people")
        .subcommand_required(true)
        .bin_name("gtdesk")
}

// Adds a command.
fn add_command<'a>(
    program: Result<Command<'a>, AllocError>,
    command: Result<Command<'a>, AllocError>,
) -> Result<Command<'a>, AllocError>
    ensures { (app sub : App) → Builds app program.entry → Builds sub command.entry
        → sub.top.is_plain ≡ true → Builds (with_subcommand app sub.top) result }
{
    let program = program?;
    let command = command?;
    program.subcommand(command)
}

// The program with all its commands.
fn gtdesk<'a>(alloc: Global) -> Result<Command<'a>, AllocError>
    ensures { Builds desk_app result }
{
    let program = without_commands(alloc);
    let program = add_command(program, now::command(alloc));
    let program = add_command(program, faults::command(alloc));
    let program = add_command(program, words::command(alloc));
    let program = add_command(program, hours::command(alloc));
    let program = add_command(program, same::command(alloc));
    let program = add_command(program, diff::command(alloc));
    let program = add_command(program, ask::command(alloc));
    let program = add_command(program, records::command(alloc));
    let program = add_command(program, conditions::command(alloc));
    let program = add_command(program, mend::command(alloc));
    let program = add_command(program, picture::command(alloc));
    add_command(program, picture::domain_command(alloc))
}

/// What `clap` finds in the words, or its error.
pub(crate) fn parse<'a>(alloc: Global, words: &'a [String]) -> Result<ArgMatches<'a>, clap::Error>
    ensures found { IfOk result (HasWords (map string_bytes words.entry.now)) }
    ensures refused { IfErr result (HasKind (fault_of desk_app (map string_bytes words.entry.now))) }
{
    let program = gtdesk(alloc)?;
    program.try_get_matches_from(words)
}
