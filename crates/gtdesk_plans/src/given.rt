//! The words of a command, as they were given.

ghost use Rattle.std.specs.Prelude.{◌≡◌, IfOk, map, option_map, string_bytes};
ghost use Rattle.clap.specs.Matches.{found_of};
ghost use Rattle.clap.specs.Walk.{all_of, first_of, rows_of};
ghost use Rattle.gtdesk_plans.specs.Rows as spec;

use clap::ArgMatches;
use std::alloc::{AllocError, Global};

/// The value of the word or the option of this name, if it was given.
pub(crate) fn value<'a>(given: &ArgMatches<'a>, name: &str) -> Option<&'a str>
    ensures { option_map (λ s. s.now) result ≡ first_of name.now (rows_of (found_of given.now)) }
{
    given.get_str(name)
}

/// The same, to be kept.
pub(crate) fn kept_value(
    alloc: Global,
    given: &ArgMatches<'_>,
    name: &str,
) -> Result<Option<String>, AllocError>
    ensures { IfOk result (λ kept. option_map string_bytes kept ≡ first_of name.now (rows_of (found_of given.now))) }
{
    match value(given, name) {
        Some(text) => match String::from_str(alloc, text) {
            Ok(text) => Ok(Some(text)),
            Err(why) => Err(why),
        },
        None => Ok(None),
    }
}

/// The word of this name.
pub(crate) fn text<'a>(given: &ArgMatches<'a>, name: &str) -> &'a str
    ensures { result.now ≡ spec.text_of name.now (rows_of (found_of given.now)) }
{
    match value(given, name) {
        Some(text) => text,
        None => "",
    }
}

/// Its values, if it was given.
pub(crate) fn values<'m, 'a>(given: &'m ArgMatches<'a>, name: &str) -> Option<&'m [&'a str]>
    ensures { option_map (λ s. map (λ t. t.now) s.now) result ≡ all_of name.now (rows_of (found_of given.now)) }
{
    given.get_raw(name)
}

/// Words without their last ones, of which there are so many.
pub(crate) fn but_last<'m, 'a>(words: &'m [&'a str], count: usize) -> &'m [&'a str]
    ensures { map (λ t. t.now) result.now ≡ spec.but_last count (map (λ t. t.now) words.now) }
{
    &words[..words.len().saturating_sub(count)]
}

/// The word that stands before so many others at the end.
pub(crate) fn from_last<'a>(words: &[&'a str], behind: usize) -> &'a str
    ensures { result.now ≡ spec.from_last behind (map (λ t. t.now) words.now) }
{
    if words.len() <= behind {
        return "";
    }
    words[words.len() - 1 - behind]
}

/// The same texts, to be kept.
pub(crate) fn owned(alloc: Global, texts: &[&str]) -> Result<Vec<String>, AllocError>
    ensures { IfOk result (λ owned. map string_bytes owned.items ≡ map (λ t. t.now) texts.now) }
{
    let mut owned = Vec::new(alloc);
    for text in texts {
        owned.push(String::from_str(alloc, *text)?)?;
    }
    Ok(owned)
}

/// The words of this name, or the values of the option.
pub(crate) fn texts(
    alloc: Global,
    given: &ArgMatches<'_>,
    name: &str,
) -> Result<Vec<String>, AllocError>
    ensures { IfOk result (λ texts. map string_bytes texts.items ≡ spec.texts_of name.now (rows_of (found_of given.now))) }
{
    match values(given, name) {
        Some(texts) => owned(alloc, texts),
        None => Ok(Vec::new(alloc)),
    }
}

// Whether an option without a value was given, by what is kept of it.
fn is_set(kept: Option<&str>) -> bool
    ensures { result ≡ spec.is_set (option_map (λ s. s.now) kept.entry) }
{
    match kept {
        Some(text) => text == "true",
        None => false,
    }
}

/// Whether the option of this name was given, which has no value.
pub(crate) fn is_given(given: &ArgMatches<'_>, name: &str) -> bool
    ensures { result ≡ spec.is_given name.now (rows_of (found_of given.now)) }
{
    is_set(value(given, name))
}

/// Whether the word or the option of this name was given, which has a value.
pub(crate) fn has_value(given: &ArgMatches<'_>, name: &str) -> bool
    ensures { result ≡ spec.has_value name.now (rows_of (found_of given.now)) }
{
    match value(given, name) {
        Some(_) => true,
        None => false,
    }
}

/// Whether standard input is among these files.
pub(crate) fn has_input(files: &[&str]) -> bool
    ensures { result ≡ spec.has_input (map (λ f. f.now) files.now) }
{
    match files {
        [] => false,
        [file, rest @ ..] => *file == "-" || has_input(rest),
    }
}

/// Whether standard input is among the files that the words of this name give.
pub(crate) fn reads_input(given: &ArgMatches<'_>, name: &str) -> bool
    ensures { result ≡ spec.has_input (spec.texts_of name.now (rows_of (found_of given.now))) }
{
    match values(given, name) {
        Some(files) => has_input(files),
        None => false,
    }
}

/// Whether a file that may be left out is standard input.
pub(crate) fn is_input(file: Option<&str>) -> bool
    ensures { result ≡ spec.is_input (option_map (λ f. f.now) file.entry) }
{
    match file {
        Some(file) => file == "-",
        None => false,
    }
}

/// Whether standard input is among these files once at most.
pub(crate) fn is_once(files: &[&str]) -> bool
    ensures { result ≡ spec.is_read_once (map (λ f. f.now) files.now) }
{
    match files {
        [] => true,
        [file, rest @ ..] => {
            if *file == "-" {
                !has_input(rest)
            } else {
                is_once(rest)
            }
        }
    }
}

/// Whether standard input is once at most among the files that the words of this name give, or the values of the option.
pub(crate) fn is_read_once(given: &ArgMatches<'_>, name: &str) -> bool
    ensures { result ≡ spec.is_read_once (spec.texts_of name.now (rows_of (found_of given.now))) }
{
    match values(given, name) {
        Some(files) => is_once(files),
        None => true,
    }
}
