//! The words and options that a command takes, as they are described to `clap`.

ghost use Rattle.std.specs.Prelude.{◌≡◌, IfOk, false, map};
ghost use Rattle.clap.specs.Simple.{app_of};
ghost use Rattle.clap.specs.Walk.{rule_of};
ghost use Rattle.gtdesk_plans.specs.Arguments.{Builds, command_of, rule, with_rules};

use clap::{Arg, ArgAction, Command};
use std::alloc::{AllocError, Global};

/// A word or an option of a command, with what help says of it.
#[derive(Clone, Copy)]
pub(crate) enum Argument {
    /// A word that must be given.
    Word {
        name: &'static str,
        help: &'static str,
    },
    /// A word that must be given, and may be followed by more of its kind.
    Words {
        name: &'static str,
        help: &'static str,
    },
    /// A word that may be left out.
    FreeWord {
        name: &'static str,
        help: &'static str,
    },
    /// An option without a value.
    Flag {
        name: &'static str,
        help: &'static str,
    },
    /// An option with a value, for which help shows a name.
    Option {
        name: &'static str,
        value: &'static str,
        help: &'static str,
    },
    /// An option with one value or more.
    Options {
        name: &'static str,
        value: &'static str,
        help: &'static str,
    },
}

/// A record file.
pub(crate) const FILE: Argument = Argument::Word {
    name: "FILE",
    help: "The record file, or - for standard input",
};

/// A vehicle type.
pub(crate) const VEHICLE: Argument = Argument::Word {
    name: "VEHICLE",
    help: "The vehicle type, from 1 to 99",
};

/// A time domain.
pub(crate) const DOMAIN: Argument = Argument::Word {
    name: "DOMAIN",
    help: "The time domain",
};

/// The language of short names of weekdays.
pub(crate) const DAY_NAMES: Argument = Argument::Option {
    name: "day-names",
    value: "NAMES",
    help: "In which language Di, Do and So are weekdays: de",
};

/// The table of holidays.
pub(crate) const HOLIDAYS: Argument = Argument::Option {
    name: "holidays",
    value: "FILE",
    help: "The table of holidays, for PH and SH; or - for standard input",
};

/// The years in which holidays are known.
pub(crate) const YEARS: Argument = Argument::Option {
    name: "years",
    value: "YEARS",
    help: "The years in which holidays are known: F-L or F",
};

/// The clock time of an open end.
pub(crate) const OPEN_END: Argument = Argument::Option {
    name: "open-end",
    value: "HH:MM",
    help: "The clock time of an open end, as 17:00+: 00:00 to 48:00",
};

/// How long a point of time lasts.
pub(crate) const POINTS: Argument = Argument::Option {
    name: "points",
    value: "N",
    help: "The minutes of a point of time: 1 to 1440",
};

/// The clock time of sunrise.
pub(crate) const SUNRISE: Argument = Argument::Option {
    name: "sunrise",
    value: "HH:MM",
    help: "The clock time of sunrise: 00:00 to 24:00",
};

/// The clock time of sunset.
pub(crate) const SUNSET: Argument = Argument::Option {
    name: "sunset",
    value: "HH:MM",
    help: "The clock time of sunset: 00:00 to 24:00",
};

/// The clock time of dawn.
pub(crate) const DAWN: Argument = Argument::Option {
    name: "dawn",
    value: "HH:MM",
    help: "The clock time of dawn: 00:00 to 24:00",
};

/// The clock time of dusk.
pub(crate) const DUSK: Argument = Argument::Option {
    name: "dusk",
    value: "HH:MM",
    help: "The clock time of dusk: 00:00 to 24:00",
};

/// The year of a picture.
pub(crate) const YEAR: Argument = Argument::Word {
    name: "YEAR",
    help: "The year, from 1901 to 2199",
};

// The same for `clap`.
fn arg_of<'a>(alloc: Global, argument: Argument) -> Arg<'a>
    ensures rule { rule_of result ≡ rule argument }
    ensures local { result.global ≡ false }
{
    match argument {
        Argument::Word { name, help } => Arg::new(alloc, name)
            .required(true)
            .action(ArgAction::Set)
            .help(help),
        Argument::Words { name, help } => Arg::new(alloc, name)
            .required(true)
            .num_args(1..)
            .action(ArgAction::Append)
            .help(help),
        Argument::FreeWord { name, help } => {
            Arg::new(alloc, name).action(ArgAction::Set).help(help)
        }
        Argument::Flag { name, help } => Arg::new(alloc, name)
            .long(name)
            .action(ArgAction::SetTrue)
            .help(help),
        Argument::Option { name, value, help } => Arg::new(alloc, name)
            .long(name)
            .value_name(value)
            .action(ArgAction::Set)
            .help(help),
        Argument::Options { name, value, help } => Arg::new(alloc, name)
            .long(name)
            .value_name(value)
            .num_args(1..)
            .action(ArgAction::Append)
            .help(help),
    }
}

/// The command with these words and options more.
pub(crate) fn with_arguments<'a>(
    alloc: Global,
    command: Command<'a>,
    arguments: &[Argument],
) -> Result<Command<'a>, AllocError>
    ensures { IfOk result (λ c. app_of c ≡ with_rules (app_of command.entry) (map rule arguments.now)) }
{
    let mut command = command;
    for argument in arguments {
        command = command.arg(arg_of(alloc, *argument))?;
    }
    Ok(command)
}

/// The command of this name, with these words and options.
pub(crate) fn command_of<'a>(
    alloc: Global,
    name: &'static str,
    about: &'static str,
    arguments: &[Argument],
) -> Result<Command<'a>, AllocError>
    ensures { Builds (command_of name.now (map rule arguments.now)) result }
{
    with_arguments(alloc, Command::new(alloc, name).about(about), arguments)
}
