//! What a term names.

ghost use Rattle.std.specs.Prelude.{◌≡◌, if◌then◌else◌, Some, None, option_map, IfOk};
ghost use Rattle.gtd_conditional_means.specs.Meanings.{types_of};
ghost use Rattle.gtd_conditional_means.specs.Names.{is_there};
ghost use Rattle.gtd_conditional_means.specs.declared.meaning.MeansKind.TheVariants.{Condition};
ghost use Rattle.gtd_conditional_values.specs.TermNames as spec;

use gtd_conditional_means::{Means, is_lower_word, normal_form};
use std::alloc::{AllocError, Global};

fn is_state_word(word: &[u8]) -> bool
    ensures { result ≡ spec.is_state_word word.now }
{
    word == b"open".as_slice()
        || word == b"on".as_slice()
        || word == b"closed".as_slice()
        || word == b"off".as_slice()
        || word == b"unknown".as_slice()
}

fn is_day_word(word: &[u8]) -> bool
    ensures { result ≡ spec.is_day_word word.now }
{
    word == b"week".as_slice()
        || word == b"easter".as_slice()
        || word == b"day".as_slice()
        || word == b"days".as_slice()
}

fn is_sun_word(word: &[u8]) -> bool
    ensures { result ≡ spec.is_sun_word word.now }
{
    word == b"sunrise".as_slice()
        || word == b"sunset".as_slice()
        || word == b"dawn".as_slice()
        || word == b"dusk".as_slice()
}

// Whether a word is one of opening hours.
fn is_hours_word(word: &[u8]) -> bool
    ensures { result ≡ spec.is_hours_word word.now }
{
    is_state_word(word) || is_day_word(word) || is_sun_word(word)
}

/// Whether a table has a condition of this name.
pub(crate) fn has_condition(means: &Means, name: &[u8]) -> bool
    ensures { result ≡ is_there (types_of Condition name.now means.now.rows.items) }
{
    means.condition(name).is_some()
}

// Whether a term is the word of a condition.
fn is_condition_word(means: &Means, term: &[u8]) -> bool
    ensures { result ≡ spec.is_condition_word means.now.rows.items term.now }
{
    (is_lower_word(term) && !is_hours_word(term)) || has_condition(means, term)
}

// The term itself, if it is the word of a condition.
fn word_name(alloc: Global, means: &Means, term: &[u8]) -> Result<Option<Vec<u8>>, AllocError>
    ensures { IfOk result (λ name. option_map (λ v. v.items) name
        ≡ (if spec.is_condition_word means.now.rows.items term.now then Some term.now else None)) }
{
    if !is_condition_word(means, term) {
        return Ok(None);
    }
    Ok(Some(term.to_vec(alloc)?))
}

/// The name by which a term is looked up in a table: a comparison by its normal form, and a word as it is. `None` if the term is
/// opening hours: if it is no comparison, the table has no condition of this name, and it is no word of lower case letters and
/// `_` or one of opening hours. `AllocError` is answered only if memory was refused.
pub fn condition_name(
    alloc: Global,
    means: &Means,
    term: &[u8],
) -> Result<Option<Vec<u8>>, AllocError>
    ensures name { IfOk result (λ name. option_map (λ v. v.items) name ≡ spec.name_of means.now.rows.items term.now) }
{
    match normal_form(alloc, term)? {
        Some(form) => Ok(Some(form)),
        None => word_name(alloc, means, term),
    }
}
