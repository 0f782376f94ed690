//! The forms of commands.

ghost use Rattle.std.specs.Prelude.{◌≡◌, ◌∷◌, [], codes, is_ok, map};
ghost use Rattle.clap.specs.Matches.{found_of};
ghost use Rattle.clap.specs.Walk.{first_of, rows_of};
ghost use Rattle.gtd_moments.specs.Moments.{moment_in};
ghost use Rattle.gtdesk_plans.specs.Given as spec;
ghost use Rattle.gtdesk_plans.specs.Rows as rows_spec;
ghost use Rattle.gtdesk_plans.specs.Rows.{text_of, texts_of};

use crate::given::{
    but_last, from_last, has_input, has_value, is_given, is_input, is_once, is_read_once,
    reads_input, text, value, values,
};
use crate::options::has_text_options;
use clap::ArgMatches;
use gtd_moments::read_moment;

/// The form of a command. Some commands have two or three.
#[derive(Clone, Copy)]
pub(crate) enum Form {
    /// `now`
    Now,
    /// `now --zone`
    NowIn,
    /// `faults`
    Faults,
    /// `words`
    Words,
    /// `hours TEXT`
    Hours,
    /// `hours --of DOMAIN`
    HoursOf,
    /// `same`
    Same,
    /// `same --hours`
    SameHours,
    /// `same --file`
    SameRows,
    /// `diff`
    Diff,
    /// `ask`
    Ask,
    /// `records`
    Records,
    /// `conditions`
    Conditions,
    /// `mend FILE`
    Mend,
    /// `mend hours TEXT`
    MendHours,
    /// `picture`
    Picture,
    /// `picture-domain`
    PictureDomain,
}

/// What is wrong with the words of a command that the library takes.
#[derive(Clone, Copy)]
pub(crate) enum Misuse {
    /// `hours` has both its word and its option of a domain, or neither.
    TextOrDomain,
    /// `hours` has options of a text, and a domain.
    OptionsOfText,
    /// `same` has neither both its words nor its option of a file alone.
    WordsOrFile,
    /// `faults` has options of warnings, and is not asked for these.
    NoWarnings,
    /// `mend` has two words, of which the first is not `hours`.
    FileOrHours,
    /// `mend` has the option of a text, and no text.
    NamesOfFile,
    /// `now` has both a moment and a zone, or neither; or no file or vehicle type.
    MomentOrZone,
    /// `now` is to print two forms.
    TwoForms,
    /// Standard input is among the files more than once.
    InputTwice,
    /// No command is given.
    Nothing,
}

impl Misuse {
    ghost use Rattle.std.specs.Prelude.{◌≡◌};
    ghost use Rattle.gtdesk_plans.specs.Given.{told_of};

    /// The same in words.
    pub(crate) fn told(self) -> &'static str
        ensures { result.now ≡ told_of self }
    {
        match self {
            Misuse::TextOrDomain => "hours takes either TEXT or --of DOMAIN",
            Misuse::OptionsOfText => "hours takes no other option with --of DOMAIN",
            Misuse::WordsOrFile => "same takes either FIRST and SECOND or --file FILE alone",
            Misuse::NoWarnings => "faults takes --allow and --at with --warn alone",
            Misuse::FileOrHours => "mend takes either FILE or hours TEXT",
            Misuse::NamesOfFile => "mend takes --day-names with hours TEXT alone",
            Misuse::MomentOrZone => {
                "now takes FILE.. MOMENT VEHICLE, or FILE.. VEHICLE --zone NAME"
            }
            Misuse::TwoForms => "now takes either --json or --table",
            Misuse::InputTwice => "standard input is given more than once",
            Misuse::Nothing => "the words are not understood",
        }
    }
}

// A form whose files are the words of this name, or the values of the option.
fn form_with(form: Form, given: &ArgMatches<'_>, name: &str) -> Result<Form, Misuse>
    ensures { result ≡ spec.form_with form (texts_of name.now (rows_of (found_of given.now))) }
{
    if is_read_once(given, name) {
        Ok(form)
    } else {
        Err(Misuse::InputTwice)
    }
}

// The form of `records`, whose table of holidays may be standard input.
fn records_form(given: &ArgMatches<'_>) -> Result<Form, Misuse>
    ensures { result ≡ spec.tabled_form Form.Records
        (rows_spec.is_input (first_of (codes "holidays") (rows_of (found_of given.now))))
        (texts_of (codes "FILE") (rows_of (found_of given.now))) }
{
    if is_input(value(given, "holidays")) && reads_input(given, "FILE") {
        return Err(Misuse::InputTwice);
    }
    form_with(Form::Records, given, "FILE")
}

// The form of these files.
fn form_of_files(form: Form, files: &[&str]) -> Result<Form, Misuse>
    ensures { result ≡ spec.form_with form (map (λ f. f.now) files.now) }
{
    if is_once(files) {
        Ok(form)
    } else {
        Err(Misuse::InputTwice)
    }
}

// The form of `conditions`, whose table of holidays may be standard input.
fn conditions_form(given: &ArgMatches<'_>) -> Result<Form, Misuse>
    ensures { result ≡ spec.tabled_form Form.Conditions
        (rows_spec.is_input (first_of (codes "holidays") (rows_of (found_of given.now))))
        (text_of (codes "TAGS") (rows_of (found_of given.now)) ∷ text_of (codes "MEANS") (rows_of (found_of given.now)) ∷ []) }
{
    let files = [text(given, "TAGS"), text(given, "MEANS")];
    if is_input(value(given, "holidays")) && has_input(&files) {
        return Err(Misuse::InputTwice);
    }
    form_of_files(Form::Conditions, &files)
}

// The form of `now` with these words, of which the last but one is to be a moment.
fn moment_form(words: &[&str]) -> Result<Form, Misuse>
    ensures { result ≡ spec.moment_form (map (λ w. w.now) words.now) }
{
    if words.len() > 2 {
        form_of_files(Form::Now, but_last(words, 2))
    } else {
        Err(Misuse::MomentOrZone)
    }
}

// Whether a word is a moment.
fn is_moment(word: &str) -> bool
    ensures { result ≡ is_ok (moment_in word.now) }
{
    match read_moment(word.as_bytes()) {
        Ok(_) => true,
        Err(_) => false,
    }
}

// The form of `now` with these words, if a zone is given.
fn zone_form(words: &[&str]) -> Result<Form, Misuse>
    ensures { result ≡ spec.zone_form (map (λ w. w.now) words.now) }
{
    if words.len() > 1 && !is_moment(from_last(words, 1)) {
        form_of_files(Form::NowIn, but_last(words, 1))
    } else {
        Err(Misuse::MomentOrZone)
    }
}

// The form of `now` with these words, by whether a zone is given.
fn words_form(words: &[&str], zone: bool) -> Result<Form, Misuse>
    ensures { result ≡ spec.words_form (map (λ w. w.now) words.now) zone }
{
    if zone {
        zone_form(words)
    } else {
        moment_form(words)
    }
}

// The form of `now`.
fn now_form(given: &ArgMatches<'_>) -> Result<Form, Misuse>
    ensures { result ≡ spec.now_form (rows_of (found_of given.now)) }
{
    if is_given(given, "json") && is_given(given, "table") {
        return Err(Misuse::TwoForms);
    }
    match values(given, "FILE") {
        Some(words) => words_form(words, has_value(given, "zone")),
        None => Err(Misuse::MomentOrZone),
    }
}

// The form of `faults`.
fn faults_form(given: &ArgMatches<'_>) -> Result<Form, Misuse>
    ensures { result ≡ spec.faults_form (rows_of (found_of given.now)) }
{
    if !is_given(given, "warn") {
        if has_value(given, "allow") {
            return Err(Misuse::NoWarnings);
        }
        if has_value(given, "at") {
            return Err(Misuse::NoWarnings);
        }
    }
    form_with(Form::Faults, given, "FILE")
}

// The form of `hours`, by whether its text, its domain and options of the text are given.
fn hours_form(text: bool, domain: bool, options: bool) -> Result<Form, Misuse>
    ensures { result ≡ spec.hours_form text domain options }
{
    if text {
        if domain {
            Err(Misuse::TextOrDomain)
        } else {
            Ok(Form::Hours)
        }
    } else if domain {
        if options {
            Err(Misuse::OptionsOfText)
        } else {
            Ok(Form::HoursOf)
        }
    } else {
        Err(Misuse::TextOrDomain)
    }
}

// The form of `same` of two words, of domains or of opening hours.
fn pair_form(hours: bool, second: bool) -> Result<Form, Misuse>
    ensures { result ≡ spec.pair_form hours second }
{
    if second {
        if hours {
            Ok(Form::SameHours)
        } else {
            Ok(Form::Same)
        }
    } else {
        Err(Misuse::WordsOrFile)
    }
}

// The form of `same`.
fn same_form(given: &ArgMatches<'_>) -> Result<Form, Misuse>
    ensures { result ≡ spec.same_form (rows_of (found_of given.now)) }
{
    let hours = is_given(given, "hours");
    if !has_value(given, "file") {
        return pair_form(hours, has_value(given, "SECOND"));
    }
    if hours || has_value(given, "FIRST") || has_value(given, "from") {
        return Err(Misuse::WordsOrFile);
    }
    form_with(Form::SameRows, given, "file")
}

// The form of `mend` of a file, by whether the option of a text is given.
fn file_form(names: bool) -> Result<Form, Misuse>
    ensures { result ≡ spec.file_form names }
{
    if names {
        Err(Misuse::NamesOfFile)
    } else {
        Ok(Form::Mend)
    }
}

// The form of `mend`.
fn mend_form(given: &ArgMatches<'_>) -> Result<Form, Misuse>
    ensures { result ≡ spec.mend_form (rows_of (found_of given.now)) }
{
    if !has_value(given, "TEXT") {
        file_form(has_value(given, "day-names"))
    } else if text(given, "FILE") == "hours" {
        Ok(Form::MendHours)
    } else {
        Err(Misuse::FileOrHours)
    }
}

/// The form of the command of this name, or what is wrong with its words.
pub(crate) fn form_of(name: &str, given: &ArgMatches<'_>) -> Result<Form, Misuse>
    ensures { result ≡ spec.form_in (name.now, rows_of (found_of given.now)) }
{
    match name {
        "now" => now_form(given),
        "faults" => faults_form(given),
        "words" => Ok(Form::Words),
        "hours" => hours_form(
            has_value(given, "TEXT"),
            has_value(given, "of"),
            has_text_options(given),
        ),
        "same" => same_form(given),
        "diff" => Ok(Form::Diff),
        "ask" => Ok(Form::Ask),
        "records" => records_form(given),
        "conditions" => conditions_form(given),
        "mend" => mend_form(given),
        "picture" => Ok(Form::Picture),
        "picture-domain" => Ok(Form::PictureDomain),
        _ => Err(Misuse::Nothing),
    }
}
