//! The options with which texts of opening hours are read.

ghost use Rattle.std.specs.Prelude.{◌≡◌, MatchResult};
ghost use Rattle.clap.specs.Matches.{found_of};
ghost use Rattle.clap.specs.Walk.{rows_of};
ghost use Rattle.gtdesk_plans.specs.TextOptions as spec;
ghost use Rattle.gtdesk_plans.specs.TextOptions.{AreOptions, clock_texts, option_words};
ghost use Rattle.gtdesk_words.specs.ClockWords.{AreClocks, clock_words};
ghost use Rattle.gtdesk_words.specs.Readings.{AreStopped};

use crate::given::{has_value, is_given, kept_value, value};
use clap::ArgMatches;
use gtd_hours_holidays::KnownYears;
use gtd_hours_loose_tokens::DayNames;
use gtd_hours_moments::Clocks;
use gtdesk_words::{ClockWords, WordsRefusal, clocks_of, day_names_of, years_of};
use std::alloc::Global;

/// How texts of opening hours are read.
#[derive(Drop)]
pub struct HoursOptions {
    /// Whether a text that is written loosely is at fault.
    pub strict: bool,
    /// What `Di`, `Do` and `So` are where a text is written loosely.
    pub names: DayNames,
    /// The path of the table of holidays, or `-` for standard input, if one is given.
    pub holidays: Option<String>,
    /// The years in which holidays are known, if they are given.
    pub years: Option<KnownYears>,
    /// What is given for times that texts leave open.
    pub clocks: Clocks,
}

// What the words given say of times that texts leave open.
fn clocks_given(given: &ArgMatches<'_>) -> Result<Clocks, WordsRefusal>
    ensures { MatchResult result (AreClocks (clock_texts (rows_of (found_of given.now))))
        (AreStopped (clock_words (clock_texts (rows_of (found_of given.now))))) }
{
    clocks_of(&ClockWords {
        open_end: value(given, "open-end"),
        points: value(given, "points"),
        sunrise: value(given, "sunrise"),
        sunset: value(given, "sunset"),
        dawn: value(given, "dawn"),
        dusk: value(given, "dusk"),
    })
}

/// What the words given say.
pub(crate) fn options_of(
    alloc: Global,
    given: &ArgMatches<'_>,
) -> Result<HoursOptions, WordsRefusal>
    ensures { MatchResult result (AreOptions (rows_of (found_of given.now)))
        (AreStopped (option_words (rows_of (found_of given.now)))) }
{
    let names = match day_names_of(value(given, "day-names")) {
        Ok(names) => names,
        Err(refusal) => return Err(refusal),
    };
    let years = match years_of(value(given, "years")) {
        Ok(years) => years,
        Err(refusal) => return Err(refusal),
    };
    let clocks = match clocks_given(given) {
        Ok(clocks) => clocks,
        Err(refusal) => return Err(refusal),
    };
    let strict = is_given(given, "strict");
    match kept_value(alloc, given, "holidays") {
        Ok(holidays) => Ok(HoursOptions {
            strict,
            names,
            holidays,
            years,
            clocks,
        }),
        Err(_) => Err(WordsRefusal::Memory),
    }
}

// Whether options for times that texts leave open are given.
fn has_clock_options(given: &ArgMatches<'_>) -> bool
    ensures { result ≡ spec.has_clock_options (rows_of (found_of given.now)) }
{
    has_value(given, "open-end")
        || has_value(given, "points")
        || has_value(given, "sunrise")
        || has_value(given, "sunset")
        || has_value(given, "dawn")
        || has_value(given, "dusk")
}

/// Whether any of these options is given.
pub(crate) fn has_text_options(given: &ArgMatches<'_>) -> bool
    ensures { result ≡ spec.has_text_options (rows_of (found_of given.now)) }
{
    is_given(given, "strict")
        || has_value(given, "day-names")
        || has_value(given, "holidays")
        || has_value(given, "years")
        || has_clock_options(given)
}
