//! What is shown below the line of a fault.

ghost use Rattle.std.specs.Prelude.{◌≡◌, Some};
ghost use Rattle.gtd_faults.specs.Snippet as spec;
ghost use Rattle.gtd_faults.specs.Snippet.{snippet_text};

use crate::hint::{Hint, HintLine};
use crate::stretch::{Caret, Stretch};
use std::fmt;
use std::fmt::{Display, Formatter};

/// What is shown below the line of a fault, as indented lines.
#[derive(Clone, Copy)]
pub enum Snippet<'a> {
    /// Nothing.
    Nothing,
    /// The stretch of a field around a place, with a caret below the place.
    Field(Stretch<'a>),
    /// The first line of a row, and how many fields the row has.
    Row {
        /// The first line.
        found: Stretch<'a>,
        /// How many fields the row has.
        fields: usize,
    },
    /// The first line of a file without a header, the header that is expected, and a hint.
    Header {
        /// The first line.
        found: Stretch<'a>,
        /// The header that is expected, in words.
        expected: &'a str,
        /// What is wrong with it, if it is nearly a header.
        hint: Option<Hint>,
    },
}

/// The byte at the place around which a field is shown; 0 if there is none.
pub(crate) fn byte_at(snippet: Snippet<'_>) -> u8
    ensures { result ≡ spec.byte_at snippet.entry }
{
    match snippet {
        Snippet::Field(stretch) => match stretch.after.first() {
            Some(byte) => *byte,
            None => 0,
        },
        _ => 0,
    }
}

impl Display for Snippet<'_> {
    ghost output = { λ snippet. Some (snippet_text snippet) };

    fn fmt<W: fmt::Write>(&self, f: &mut Formatter<W>) -> fmt::Result {
        match *self {
            Snippet::Nothing => Ok(()),
            Snippet::Field(field) => {
                let caret = Caret(field);
                write!(f, "    {field}\n    {caret}\n")
            }
            Snippet::Row { found, fields } => {
                write!(f, "    found:    {found}\n    fields:   {fields}\n")
            }
            Snippet::Header {
                found,
                expected,
                hint,
            } => {
                let line = HintLine(hint);
                write!(f, "    found:    {found}\n    expected: {expected}\n{line}")
            }
        }
    }
}
