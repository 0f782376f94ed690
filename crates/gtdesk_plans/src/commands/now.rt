//! The command `now`, at a moment and by the clock of a time zone.

ghost use Rattle.std.specs.Prelude.{◌≡◌, IfOk, MatchResult, codes, map, string_bytes};
ghost use Rattle.clap.specs.Matches.{found_of};
ghost use Rattle.clap.specs.Walk.{rows_of};
ghost use Rattle.gtdesk_plans.specs.Arguments.{Builds};
ghost use Rattle.gtdesk_plans.specs.Commands.Now as spec;
ghost use Rattle.gtdesk_plans.specs.Commands.Now.{Asks, AsksIn, IsView, app, view_words, words, zone_words};
ghost use Rattle.gtdesk_plans.specs.Rows.{but_last, texts_of};
ghost use Rattle.gtdesk_words.specs.Readings.{AreStopped};

use crate::arguments::{Argument, with_arguments};
use crate::given::{but_last, from_last, is_given, owned, text, value, values};
use crate::plans::{OnePlan, Plan};
use clap::{ArgMatches, Command};
use gtdesk_words::{Moment, WordsRefusal, elements_of, moment_of, vehicle_of, zone_of};
use std::alloc::{AllocError, Global};

/// What is printed of the state of elements.
#[derive(Drop)]
pub struct NowView {
    /// The vehicle type, from 1 to 99.
    pub vehicle: u8,
    /// Whether closed elements alone are printed.
    pub closed: bool,
    /// The elements that are printed; all, if none is named.
    pub elements: Vec<u64>,
    /// Whether the rows that close an element are told.
    pub why: bool,
    /// Whether each element is an object of JSON.
    pub json: bool,
    /// Whether the elements are a table for a screen.
    pub table: bool,
}

/// The state of the elements of record files at a moment.
#[derive(Drop)]
pub struct NowPlan {
    /// The files' paths, or `-` for standard input, which is one of them at most.
    pub files: Vec<String>,
    /// The moment.
    pub moment: Moment,
    /// What is printed.
    pub view: NowView,
}

/// The same at the moment that the clock of a time zone shows.
#[derive(Drop)]
pub struct ZonePlan {
    /// The files' paths, or `-` for standard input, which is one of them at most.
    pub files: Vec<String>,
    /// The name of the zone.
    pub zone: String,
    /// What is printed.
    pub view: NowView,
}

impl ZonePlan {
    ghost use Rattle.std.specs.Prelude.{◌≡◌};
    ghost use Rattle.gtdesk_plans.specs.Plans.{plan_at};

    /// The plan at this moment.
    pub fn at(self, moment: Moment) -> OnePlan
        ensures plan { result ≡ plan_at self moment }
    {
        let ZonePlan {
            files,
            zone: _,
            view,
        } = self;
        OnePlan::Now(NowPlan {
            files,
            moment,
            view,
        })
    }
}

// What help says of it.
const ABOUT: &str =
    "Print whether each element of record files is open at a moment, until when, and by which rows it is closed";

// Its words and options.
const ARGUMENTS: [Argument; 7] = [
    Argument::Words {
        name: "FILE",
        help: "The record files, of which one may be - for standard input; then MOMENT, the second, \
            YYYY-MM-DDThh:mm:ss, of the local clock, left out with --zone; then VEHICLE, the vehicle type, from 1 to 99",
    },
    Argument::Flag {
        name: "closed",
        help: "Print closed elements alone",
    },
    Argument::Option {
        name: "element",
        value: "N[,N..]",
        help: "Print these elements alone",
    },
    Argument::Flag {
        name: "why",
        help: "Tell the rows that close an element, with their domains in words",
    },
    Argument::Flag {
        name: "json",
        help: "Print an object of JSON for each line",
    },
    Argument::Flag {
        name: "table",
        help: "Print columns for a screen",
    },
    Argument::Option {
        name: "zone",
        value: "NAME",
        help: "Take the second that the clock of this time zone shows now, such as Europe/Vienna",
    },
];

/// The command for `clap`. Its words are one list, of which one is left out with an option, which the library does not see to.
pub(crate) fn command<'a>(alloc: Global) -> Result<Command<'a>, AllocError>
    ensures { Builds app result }
{
    let command = Command::new(alloc, "now").about(ABOUT).override_usage(
        "gtdesk now <[OPTIONS] <FILE>... <MOMENT> <VEHICLE>|[OPTIONS] <FILE>... <VEHICLE> --zone <NAME>>",
    );
    with_arguments(alloc, command, &ARGUMENTS)
}

// What is printed, for the vehicle type that this word stands for.
fn view_of(alloc: Global, given: &ArgMatches<'_>, vehicle: &str) -> Result<NowView, WordsRefusal>
    ensures { MatchResult result (IsView (rows_of (found_of given.now)) vehicle.now)
        (AreStopped (view_words (rows_of (found_of given.now)) vehicle.now)) }
{
    let vehicle = match vehicle_of(vehicle) {
        Ok(vehicle) => vehicle,
        Err(refusal) => return Err(refusal),
    };
    let closed = is_given(given, "closed");
    let why = is_given(given, "why");
    let json = is_given(given, "json");
    let table = is_given(given, "table");
    match elements_of(alloc, value(given, "element")) {
        Ok(elements) => Ok(NowView {
            vehicle,
            closed,
            elements,
            why,
            json,
            table,
        }),
        Err(refusal) => Err(refusal),
    }
}

/// The word of the vehicle type.
pub(crate) fn vehicle_word<'a>(given: &ArgMatches<'a>) -> &'a str
    ensures { result.now ≡ spec.vehicle_word (rows_of (found_of given.now)) }
{
    match values(given, "FILE") {
        Some(words) => from_last(words, 0),
        None => "",
    }
}

/// The word of the moment, if no zone is given.
pub(crate) fn moment_word<'a>(given: &ArgMatches<'a>) -> &'a str
    ensures { result.now ≡ spec.moment_word (rows_of (found_of given.now)) }
{
    match values(given, "FILE") {
        Some(words) => from_last(words, 1),
        None => "",
    }
}

// The words before the last ones, of which there are so many.
fn files_before(
    alloc: Global,
    given: &ArgMatches<'_>,
    count: usize,
) -> Result<Vec<String>, AllocError>
    ensures { IfOk result (λ files. map string_bytes files.items
        ≡ but_last count (texts_of (codes "FILE") (rows_of (found_of given.now)))) }
{
    match values(given, "FILE") {
        Some(words) => owned(alloc, but_last(words, count)),
        None => Ok(Vec::new(alloc)),
    }
}

/// What the words given ask for at a moment.
pub(crate) fn plan(alloc: Global, given: &ArgMatches<'_>) -> Result<Plan, WordsRefusal>
    ensures { MatchResult result (Asks (rows_of (found_of given.now))) (AreStopped (words (rows_of (found_of given.now)))) }
{
    let moment = match moment_of(moment_word(given)) {
        Ok(moment) => moment,
        Err(refusal) => return Err(refusal),
    };
    let view = match view_of(alloc, given, vehicle_word(given)) {
        Ok(view) => view,
        Err(refusal) => return Err(refusal),
    };
    match files_before(alloc, given, 2) {
        Ok(files) => Ok(Plan::One(OnePlan::Now(NowPlan {
            files,
            moment,
            view,
        }))),
        Err(_) => Err(WordsRefusal::Memory),
    }
}

/// What they ask for by the clock of a time zone.
pub(crate) fn plan_zone(alloc: Global, given: &ArgMatches<'_>) -> Result<Plan, WordsRefusal>
    ensures { MatchResult result (AsksIn (rows_of (found_of given.now)))
        (AreStopped (zone_words (rows_of (found_of given.now)))) }
{
    let view = match view_of(alloc, given, vehicle_word(given)) {
        Ok(view) => view,
        Err(refusal) => return Err(refusal),
    };
    let zone = match zone_of(text(given, "zone")) {
        Ok(zone) => zone,
        Err(refusal) => return Err(refusal),
    };
    let zone = match String::from_str(alloc, zone) {
        Ok(zone) => zone,
        Err(_) => return Err(WordsRefusal::Memory),
    };
    match files_before(alloc, given, 1) {
        Ok(files) => Ok(Plan::NowIn(ZonePlan { files, zone, view })),
        Err(_) => Err(WordsRefusal::Memory),
    }
}
