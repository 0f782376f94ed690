//! The commands `picture` and `picture-domain`.

ghost use Rattle.std.specs.Prelude.{◌≡◌, IfOk, MatchResult, string_bytes};
ghost use Rattle.clap.specs.Matches.{found_of};
ghost use Rattle.clap.specs.Walk.{rows_of};
ghost use Rattle.gtdesk_plans.specs.Arguments.{Builds};
ghost use Rattle.gtdesk_plans.specs.Commands.Picture.{Asks, AsksDomain, AreSubject, app, domain_app, domain_words};
ghost use Rattle.gtdesk_plans.specs.Commands.Picture.{title_of, words};
ghost use Rattle.gtdesk_words.specs.Readings.{AreStopped};

use crate::arguments::{Argument, DOMAIN, FILE, VEHICLE, YEAR, command_of};
use crate::given::text;
use crate::plans::{OnePlan, Plan};
use clap::{ArgMatches, Command};
use gtd_core::Domain;
use gtd_rows::Direction;
use gtdesk_words::{
    WordName, WordsRefusal, direction_of, domain_of, element_of, vehicle_of, year_of,
};
use std::alloc::{AllocError, Global};

/// What a picture of an element is about. The vehicle type of a plan is from 1 to 99, and its year from 1901 to 2199.
#[derive(Clone, Copy)]
pub struct PictureSubject {
    /// The element.
    pub element: u64,
    /// The direction.
    pub direction: Direction,
    /// The vehicle type.
    pub vehicle: u8,
    /// The year.
    pub year: u16,
}

/// The picture of an element of a record file.
#[derive(Drop)]
pub struct PicturePlan {
    /// The file's path, or `-` for standard input.
    pub file: String,
    /// The picture's title.
    pub title: String,
    /// The element, its direction, the vehicle type and the year.
    pub subject: PictureSubject,
}

/// The picture of a time domain.
#[derive(Drop)]
pub struct DomainPicturePlan {
    /// The domain.
    pub domain: Domain,
    /// The picture's title: the text of the domain.
    pub title: String,
    /// The year, from 1901 to 2199.
    pub year: u16,
}

// What help says of it.
const ABOUT: &str =
    "Print a picture, in SVG, of the seconds of a year in which an element of a record file is open";

// Its words and options.
const ARGUMENTS: [Argument; 5] = [
    FILE,
    Argument::Word {
        name: "ELEMENT",
        help: "The number of the element",
    },
    Argument::Word {
        name: "DIRECTION",
        help: "The direction: positive or negative",
    },
    VEHICLE,
    YEAR,
];

/// The command `picture` for `clap`.
pub(crate) fn command<'a>(alloc: Global) -> Result<Command<'a>, AllocError>
    ensures { Builds app result }
{
    command_of(alloc, "picture", ABOUT, &ARGUMENTS)
}

// What the words given are about.
fn subject_of(given: &ArgMatches<'_>) -> Result<PictureSubject, WordsRefusal>
    ensures { MatchResult result (AreSubject (rows_of (found_of given.now)))
        (AreStopped (words (rows_of (found_of given.now)))) }
{
    let element = match element_of(text(given, "ELEMENT")) {
        Ok(element) => element,
        Err(refusal) => return Err(refusal),
    };
    let direction = match direction_of(text(given, "DIRECTION")) {
        Ok(direction) => direction,
        Err(refusal) => return Err(refusal),
    };
    let vehicle = match vehicle_of(text(given, "VEHICLE")) {
        Ok(vehicle) => vehicle,
        Err(refusal) => return Err(refusal),
    };
    match year_of(text(given, "YEAR")) {
        Ok(year) => Ok(PictureSubject {
            element,
            direction,
            vehicle,
            year,
        }),
        Err(refusal) => Err(refusal),
    }
}

// The title.
fn title_of(alloc: Global, given: &ArgMatches<'_>) -> Result<String, AllocError>
    ensures { IfOk result (λ title. string_bytes title ≡ title_of (rows_of (found_of given.now))) }
{
    let element = text(given, "ELEMENT");
    let direction = text(given, "DIRECTION");
    let vehicle = text(given, "VEHICLE");
    let year = text(given, "YEAR");
    let file = text(given, "FILE");
    format!(in alloc; "Element {element}, {direction}, vehicle type {vehicle}, {year} ({file})")
}

/// What the words given of `picture` ask for.
pub(crate) fn plan(alloc: Global, given: &ArgMatches<'_>) -> Result<Plan, WordsRefusal>
    ensures { MatchResult result (Asks (rows_of (found_of given.now))) (AreStopped (words (rows_of (found_of given.now)))) }
{
    let subject = match subject_of(given) {
        Ok(subject) => subject,
        Err(refusal) => return Err(refusal),
    };
    let title = match title_of(alloc, given) {
        Ok(title) => title,
        Err(_) => return Err(WordsRefusal::Memory),
    };
    match String::from_str(alloc, text(given, "FILE")) {
        Ok(file) => Ok(Plan::One(OnePlan::Picture(PicturePlan {
            file,
            title,
            subject,
        }))),
        Err(_) => Err(WordsRefusal::Memory),
    }
}

// What help says of it.
const DOMAIN_ABOUT: &str =
    "Print a picture, in SVG, of the seconds of a year that a time domain contains";

// Its words and options.
const DOMAIN_ARGUMENTS: [Argument; 2] = [DOMAIN, YEAR];

/// The command `picture-domain` for `clap`.
pub(crate) fn domain_command<'a>(alloc: Global) -> Result<Command<'a>, AllocError>
    ensures { Builds domain_app result }
{
    command_of(alloc, "picture-domain", DOMAIN_ABOUT, &DOMAIN_ARGUMENTS)
}

/// What the words given of `picture-domain` ask for.
pub(crate) fn plan_domain(alloc: Global, given: &ArgMatches<'_>) -> Result<Plan, WordsRefusal>
    ensures { MatchResult result (AsksDomain (rows_of (found_of given.now)))
        (AreStopped (domain_words (rows_of (found_of given.now)))) }
{
    let domain = match domain_of(alloc, WordName::Domain, text(given, "DOMAIN")) {
        Ok(domain) => domain,
        Err(refusal) => return Err(refusal),
    };
    let year = match year_of(text(given, "YEAR")) {
        Ok(year) => year,
        Err(refusal) => return Err(refusal),
    };
    match String::from_str(alloc, text(given, "DOMAIN")) {
        Ok(title) => Ok(Plan::One(OnePlan::DomainPicture(DomainPicturePlan {
            domain,
            title,
            year,
        }))),
        Err(_) => Err(WordsRefusal::Memory),
    }
}
