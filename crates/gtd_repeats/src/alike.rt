//! The ways in which rows are alike.

ghost use Rattle.std.specs.Prelude.{◌≡◌, ◌↔◌, IfOk, IsTrue};
ghost use Rattle.gtd_repeats.specs.Sameness.{AreAlike, AreAlikeIn};

use crate::firsts::Likeness;
use crate::rows::is_same_row;
use crate::seconds::{have_same_text, hold_same};
use gtd_records::Record;
use std::alloc::{AllocError, Global};

/// A way in which two rows are alike.
#[derive(Clone, Copy, Debug, PartialEq, Eq)]
pub(crate) enum Kind {
    /// Their domains have the same canonical text.
    Text,
    /// Their domains have the same seconds.
    Seconds,
    /// They say the same.
    Row,
}

/// Rows, and the way in which they are compared.
#[derive(Clone, Copy)]
pub(crate) struct Compared<'a> {
    pub(crate) rows: &'a [Record],
    pub(crate) kind: Kind,
}

fn are_alike(alloc: Global, kind: Kind, first: &Record, second: &Record) -> Result<bool, AllocError>
    ensures alike { IfOk result (λ alike. IsTrue alike ↔ AreAlike kind first.now second.now) }
{
    match kind {
        Kind::Text => Ok(have_same_text(first.domain(), second.domain())),
        Kind::Seconds => hold_same(alloc, first.domain(), second.domain()),
        Kind::Row => is_same_row(alloc, first, second),
    }
}

impl Likeness for Compared<'_> {
    ghost alike = { λ compared. AreAlikeIn compared.rows.now compared.kind };

    fn is_alike(&self, alloc: Global, first: usize, second: usize) -> Result<bool, AllocError> {
        let Some(one) = self.rows.get(first) else {
            return Ok(false);
        };
        let Some(other) = self.rows.get(second) else {
            return Ok(false);
        };
        are_alike(alloc, self.kind, one, other)
    }
}
