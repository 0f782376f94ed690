//! The limits on a text: how deep its brackets are, how many basic domains it has, how long their durations are.

ghost use Rattle.std.specs.Prelude.{◌≡◌, ◌<◌, ◌+◌, ◌^◌, ℕ};
ghost use Rattle.gtd_text.specs.Findings.{opened_after, with_field, fault_of_opened, too_deep_at, too_many_at};
ghost use Rattle.gtd_text.specs.Found.{depth_after, count_after};
ghost use Rattle.gtd_text.specs.declared.token.TokenKind.TheVariants.{Field};

use crate::token::{Token, TokenKind};
use gtd_core::fields::duration_with;
use gtd_core::limits::{MOST_BASIC_DOMAINS, MOST_BOUND, MOST_DEPTH};
use gtd_core::{DurationParts, Fault, TextFault};

/// A duration whose brace is open: the place of the brace, and the fields so far.
#[derive(Clone, Copy)]
pub struct OpenDuration {
    pub place: usize,
    pub parts: DurationParts,
}

/// How many brackets are open after one more token.
pub fn depth_after(depth: usize, kind: TokenKind) -> usize
    requires { depth + 1 < 2 ^ 64 }
    ensures { result ≡ depth_after depth kind }
{
    match kind {
        TokenKind::OpenBracket => depth + 1,
        TokenKind::CloseBracket => depth.saturating_sub(1),
        _ => depth,
    }
}

/// How many parentheses have opened after one more token.
pub fn count_after(count: usize, kind: TokenKind) -> usize
    requires { count + 1 < 2 ^ 64 }
    ensures { result ≡ count_after count kind }
{
    match kind {
        TokenKind::OpenParenthesis => count + 1,
        _ => count,
    }
}

/// The fault of a token after which this many brackets are open.
pub fn too_deep_at(depth: usize, place: usize) -> Option<TextFault>
    ensures { result ≡ too_deep_at depth place }
{
    let kind = Fault::TooDeep;
    (usize::from(MOST_DEPTH) < depth).then_some(TextFault { kind, place })
}

/// The fault of a token after which this many parentheses have opened.
pub fn too_many_at(count: usize, place: usize) -> Option<TextFault>
    ensures { result ≡ too_many_at count place }
{
    let kind = Fault::TooMany;
    (usize::from(MOST_BASIC_DOMAINS) < count).then_some(TextFault { kind, place })
}

/// Reads one more token, which may open a duration, add a field to it or close it.
pub fn note_opened(opened: &mut Option<OpenDuration>, token: Token)
    ensures { opened.new ≡ opened_after opened.old token.kind token.from }
{
    match token.kind {
        TokenKind::OpenBrace => {
            *opened = Some(OpenDuration {
                place: token.from,
                parts: DurationParts::default(),
            });
        }
        TokenKind::Field { letter, value, .. } => note_field(opened, letter, value),
        _ => *opened = None,
    }
}

fn note_field(opened: &mut Option<OpenDuration>, letter: u8, value: u32)
    ensures { (digits : ℕ) → opened.new ≡ with_field opened.old (Field letter value digits) }
{
    if let Some(duration) = opened {
        duration.parts = duration_with(duration.parts, letter, value);
    }
}

/// The fault of a duration that ends with the fields so far: `TooLongDuration`, at its brace.
pub fn fault_of_opened(opened: Option<OpenDuration>) -> Option<TextFault>
    ensures { result ≡ fault_of_opened opened }
{
    let OpenDuration { place, parts } = opened?;
    let kind = Fault::TooLongDuration;
    (MOST_BOUND < parts.bound()).then_some(TextFault { kind, place })
}
