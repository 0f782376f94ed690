//! The terms of a condition.

ghost use Rattle.std.specs.Prelude.{◌≡◌, ◌≤◌, ◌+◌, ◌∷◌, ◌++◌, [], length, IfOk, IfErr, OnOk};
ghost use Rattle.gtd_hours_options.specs.Readings.{how_read};
ghost use Rattle.gtd_conditional_parts.specs.Conditions.{AreConditions, AreTerms, IsConditionsStop, IsTermAt, IsTermsStop};

use crate::cuts::text_from;
use gtd_conditional_means::Means;
use gtd_conditional_values::{
    Term, UnreadTerm, enclosed, front_spaces, read_term, term_length, trimmed,
};
use gtd_hours_options::HoursReading;
use std::alloc::{AllocError, Global};

// What the term that stands at a place is.
fn read_term_at(
    alloc: Global,
    means: &Means,
    reading: HoursReading<'_>,
    place: usize,
    text: &[u8],
) -> Result<Term, UnreadTerm>
    requires fits { place + length text.now ≤ 18446744073709551615 }
    ensures { IsTermAt (how_read reading.entry) means.now.rows.items place text.now result }
{
    read_term(
        alloc,
        means,
        reading,
        place + front_spaces(text),
        trimmed(text),
    )
}

fn push_term(terms: &mut Vec<Term>, term: Term) -> Result<(), AllocError>
    ensures { OnOk result (terms.new.items ≡ terms.old.items ++ term ∷ []) }
{
    terms.push(term)?;
    Ok(())
}

// The terms of a text that begins at a place.
fn read_terms(
    alloc: Global,
    means: &Means,
    reading: HoursReading<'_>,
    place: usize,
    text: &[u8],
) -> Result<Vec<Term>, UnreadTerm>
    requires fits { place + length text.now ≤ 18446744073709551615 }
    ensures terms { IfOk result (λ terms. AreTerms (how_read reading.entry) means.now.rows.items place text.now terms.items) }
    ensures fault { IfErr result (λ why. IsTermsStop (how_read reading.entry) means.now.rows.items place text.now why) }
{
    let mut terms = Vec::new(alloc);
    let mut at = place;
    let mut rest = text;
    loop {
        let bytes = term_length(rest);
        let term = match read_term_at(alloc, means, reading, at, &rest[..bytes]) {
            Ok(term) => term,
            Err(why) => return Err(why),
        };
        push_term(&mut terms, term)?;
        if rest.len() - bytes < 3 {
            return Ok(terms);
        }
        at += bytes + 3;
        rest = text_from(rest, bytes + 3);
    }
}

/// The terms of a condition that begins at a place of a value, whose hours are read so; or why they are not read.
/// `NoMemory` is answered only if memory was refused.
pub(crate) fn read_condition(
    alloc: Global,
    means: &Means,
    reading: HoursReading<'_>,
    place: usize,
    text: &[u8],
) -> Result<Vec<Term>, UnreadTerm>
    requires fits { place + length text.now ≤ 18446744073709551615 }
    ensures terms { IfOk result (λ terms.
        AreConditions (how_read reading.entry) means.now.rows.items place text.now terms.items) }
    ensures fault { IfErr result (λ why. IsConditionsStop (how_read reading.entry) means.now.rows.items place text.now why) }
{
    match enclosed(trimmed(text)) {
        Some(inside) => read_terms(
            alloc,
            means,
            reading,
            place + front_spaces(text) + 1,
            inside,
        ),
        None => read_terms(alloc, means, reading, place, text),
    }
}
