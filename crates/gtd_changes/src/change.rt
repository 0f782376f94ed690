//! What changes from one record file to another.

ghost use Rattle.std.specs.Prelude.{◌≡◌};
ghost use Rattle.gtd_changes.specs.Changes.{change_word, span_of};

use gtd_core::Span;

/// A span of which each second changes in the same way from an old record file to a new one.
#[derive(Clone, Copy, Debug)]
pub enum Change {
    /// The old file closes an element at its seconds, the new one does not.
    Opened(Span),
    /// The new file closes the element at its seconds, the old one does not.
    Closed(Span),
}

impl Change {
    /// The span.
    pub fn span(&self) -> Span
        ensures value { result ≡ span_of self.now }
    {
        match self {
            Change::Opened(span) => *span,
            Change::Closed(span) => *span,
        }
    }

    /// The word for what happened at its seconds: `opened` or `closed`.
    pub fn word(&self) -> &'static str
        ensures value { result.now ≡ change_word self.now }
    {
        match self {
            Change::Opened(_) => "opened",
            Change::Closed(_) => "closed",
        }
    }
}
