//! What is shown below the line that refuses a text.

ghost use Rattle.std.specs.Prelude.{◌≡◌, Some, get_or};
ghost use Rattle.gtd_faults.specs.Snippet.{IsOfField};
ghost use Rattle.gtd_faults.specs.Expected as of_records;
ghost use Rattle.gtd_hours_faults.specs.Accepted.{told_in, told_of};
ghost use Rattle.gtd_hours_faults.specs.Refused.{IsOfHours, IsOfTooMany, refusal_snippet};

use crate::accepted::{Expectation, accepted};
use crate::place::place_in;
use gtd_core::TextFault;
use gtd_faults::{Snippet, Stretch, accepted_at};
use gtd_hours_options::OptionsFault;
use gtd_records::RecordFault;
use std::fmt;
use std::fmt::{Display, Formatter};

/// What is shown below the line that refuses a text, as indented lines: the text, or a stretch of it around the place of its
/// fault, a caret below the byte there, and what is accepted there. It is what `faults` shows of a field.
#[derive(Clone, Copy)]
pub struct RefusalSnippet<'a> {
    /// The stretch of the text.
    pub snippet: Snippet<'a>,
    /// What is accepted there.
    pub accepted: Expectation,
}

impl Display for RefusalSnippet<'_> {
    ghost output = { λ shown. Some (refusal_snippet shown) };

    fn fmt<W: fmt::Write>(&self, f: &mut Formatter<W>) -> fmt::Result {
        let snippet = self.snippet;
        let accepted = self.accepted;
        write!(f, "{snippet}{accepted}")
    }
}

// What is shown of a text around a place.
fn around(text: &str, place: usize) -> Snippet<'_>
    ensures around { IsOfField (Some text.now) place result }
{
    if place > text.len() {
        return Snippet::Nothing;
    }
    Snippet::Field(Stretch::around(text.as_bytes(), place))
}

// The byte of a text at a place; 0 if there is none.
fn byte_at(text: &str, place: usize) -> u8
    ensures { result ≡ get_or text.now place 0 }
{
    match text.as_bytes().get(place) {
        Some(byte) => *byte,
        None => 0,
    }
}

/// What is shown below the line that refuses a text as a time domain, for this fault.
pub fn domain_snippet(text: &str, fault: TextFault) -> RefusalSnippet<'_>
    ensures snippet { IsOfField (Some text.now) fault.place result.snippet }
    ensures accepted { told_of result.accepted
        ≡ told_in (of_records.accepted_at (RecordFault.Domain 1 fault) (get_or text.now fault.place 0)) }
{
    let letter = byte_at(text, fault.place);
    RefusalSnippet {
        snippet: around(text, fault.place),
        accepted: Expectation::of_words(accepted_at(RecordFault::Domain { row: 1, fault }, letter)),
    }
}

/// What is shown below the line that refuses a text as opening hours, for this fault.
pub fn hours_snippet(text: &str, fault: OptionsFault) -> RefusalSnippet<'_>
    ensures shown { IsOfHours text.now fault result }
{
    RefusalSnippet {
        snippet: around(text, place_in(fault)),
        accepted: Expectation::Words(accepted(fault)),
    }
}

/// What is shown below the line that refuses opening hours whose domain would have so many basic domains.
pub fn too_many_snippet(text: &str, needed: u32) -> RefusalSnippet<'_>
    ensures shown { IsOfTooMany text.now needed result }
{
    RefusalSnippet {
        snippet: around(text, 0),
        accepted: Expectation::Fewer { needed },
    }
}
