//! What the check finds in one pass over the tokens.

ghost use Rattle.std.specs.Prelude.{◌≡◌, ◌≤◌, ◌<◌, ◌+◌, ◌^◌, Some};
ghost use Rattle.std.specs.Option.{option_or};
ghost use Rattle.gtd_text.specs.Findings.{no_findings, findings_with, misfit_at, incomplete_at, first_of};

use crate::check::grammar::Seen;
use crate::check::limits::{
    OpenDuration, count_after, fault_of_opened, note_opened, too_deep_at, too_many_at,
};
use crate::token::{Token, TokenKind};
use gtd_core::{Fault, TextFault};

/// The first fault of each kind among the tokens so far, and what is remembered of them to find later faults.
#[derive(Clone, Copy)]
pub struct Findings {
    seen: Seen,
    count: usize,
    opened: Option<OpenDuration>,
    too_deep: Option<TextFault>,
    too_many: Option<TextFault>,
    misfit: Option<TextFault>,
    too_long: Option<TextFault>,
}

impl Findings {
    /// Before any token is read.
    pub fn none() -> Findings
        ensures { result ≡ no_findings }
    {
        Findings {
            seen: Seen::none(),
            count: 0,
            opened: None,
            too_deep: None,
            too_many: None,
            misfit: None,
            too_long: None,
        }
    }

    /// Reads one more token.
    pub fn note(&mut self, token: Token)
        requires depth { self.old.seen.depth + 1 < 2 ^ 64 }
        requires count { self.old.count + 1 < 2 ^ 64 }
        ensures { self.new ≡ findings_with self.old token }
    {
        keep_first(&mut self.misfit, misfit_at(self.seen, token));
        self.seen.note(token.kind);
        self.count = count_after(self.count, token.kind);
        keep_first(
            &mut self.too_deep,
            too_deep_at(self.seen.depth(), token.from),
        );
        keep_first(&mut self.too_many, too_many_at(self.count, token.from));
        if !matches!(token.kind, TokenKind::Field { .. }) {
            keep_first(&mut self.too_long, fault_of_opened(self.opened));
        }
        note_opened(&mut self.opened, token);
    }

    /// The first fault of a text that ends at this place: the limits come first, then the grammar, then the durations.
    pub fn first(&self, end: usize) -> Option<TextFault>
        ensures { result ≡ first_of end self.now }
    {
        let limits = self.too_deep.or(self.too_many);
        let grammar = self.misfit.or(incomplete_at(self.seen, end));
        let durations = self.too_long.or(fault_of_opened(self.opened));
        limits.or(grammar).or(durations)
    }
}

// Keeps the first of the faults of a kind: the one that was found, or else this one.
fn keep_first(found: &mut Option<TextFault>, fault: Option<TextFault>)
    ensures { found.new ≡ option_or found.old fault }
{
    if let Some(fault) = fault {
        *found = first_of_two(*found, fault);
    }
}

// The fault that was found, or else another of its kind. Nearly no token has one, so this stands alone: a compiler would work
// out both answers for each token.
#[cold]
#[inline(never)]
fn first_of_two(found: Option<TextFault>, fault: TextFault) -> Option<TextFault>
    ensures { result ≡ option_or found (Some fault) }
{
    match found {
        Some(_) => found,
        None => Some(fault),
    }
}

// The fault of a token that does not fit after those before it.
fn misfit_at(seen: Seen, token: Token) -> Option<TextFault>
    ensures { result ≡ misfit_at seen token }
{
    if seen.fits(token.kind) {
        None
    } else {
        Some(TextFault {
            kind: seen.fault_of(token.kind),
            place: token.from,
        })
    }
}

// The fault of tokens that end too early.
fn incomplete_at(seen: Seen, end: usize) -> Option<TextFault>
    ensures { result ≡ incomplete_at seen end }
{
    if seen.may_end() {
        None
    } else {
        Some(TextFault {
            kind: Fault::Incomplete,
            place: end,
        })
    }
}
