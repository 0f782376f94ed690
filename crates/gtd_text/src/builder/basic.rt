//! Basic domains: the fields of a start and those of a duration, each read in one loop.

ghost use Rattle.std.specs.Prelude.{◌≡◌, ◌≤◌, ◌<◌, List, [], length, IfSome, MatchOption, Option};
ghost use Rattle.gtd_core.specs.Parts.{start_parts, duration_parts};
ghost use Rattle.gtd_core.specs.Ranges.{no_parts};
ghost use Rattle.gtd_core.specs.Trees.{Tree, Single};
ghost use Rattle.gtd_core.specs.declared.start.StartParts.{StartParts};
ghost use Rattle.gtd_text.specs.Grammar.{zero_parts};
ghost use Rattle.gtd_text.specs.Building as building;
ghost use Rattle.gtd_text.specs.ToCome.{IsBuildable};
ghost use Rattle.gtd_text.specs.Reached.{Reached};

use crate::check::grammar::{fits_duration, fits_start};
use crate::check::letters::Letters;
use crate::lexer::next_token;
use crate::token::TokenKind;
use gtd_core::fields::{duration_with, start_with};
use gtd_core::{Basic, Duration, DurationParts, Start, StartParts};

/// The basic domain whose parenthesis has opened, and the place after it; or `None`, if none comes here.
pub fn basic_at(text: &[u8], place: usize) -> Option<(Basic, usize)>
    requires { place ≤ length text.now }
    ensures found { (outer : List building.Pending) (sum : building.Sums) (product : Option Tree) →
        Reached text.now place (building.InStart outer sum product [] no_parts)
        → MatchOption result (IsBuildable text.now → ⊥) (λ found.
        Reached text.now found.1 (building.AfterItem outer sum (building.times product
        (Single (start_parts found.0.start) (duration_parts found.0.duration))))) }
    ensures past { IfSome result (λ found. place ≤ found.1) }
    ensures inside { IfSome result (λ found. found.1 ≤ length text.now) }
{
    let (start, end) = start_at(text, place)?;
    let brace = next_token(text, end)?;
    match brace.kind {
        TokenKind::OpenBrace => {
            let (duration, to) = duration_at(text, brace.to)?;
            Some((Basic { start, duration }, to))
        }
        _ => None,
    }
}

// The start whose fields come next, and the place after the sign that closes it.
#[inline(never)]
fn start_at(text: &[u8], place: usize) -> Option<(Start, usize)>
    requires { place ≤ length text.now }
    ensures found { (outer : List building.Pending) (sum : building.Sums) (product : Option Tree) →
        Reached text.now place (building.InStart outer sum product [] no_parts)
        → MatchOption result (IsBuildable text.now → ⊥) (λ found.
        Reached text.now found.1 (building.AfterStart outer sum product (start_parts found.0))) }
    ensures past { IfSome result (λ found. place ≤ found.1) }
    ensures inside { IfSome result (λ found. found.1 ≤ length text.now) }
{
    let mut parts = StartParts::default();
    let mut letters = Letters::none();
    let mut at = place;
    while let Some(token) = next_token(text, at) {
        match token.kind {
            TokenKind::Field { letter, value, .. } => {
                if !fits_start(letters, token.kind) {
                    return None;
                }
                parts = start_with(parts, letter, value);
                letters = letters.with(letter);
            }
            TokenKind::CloseParenthesis => {
                return match Start::new(parts) {
                    Some(start) => Some((start, token.to)),
                    None => None,
                };
            }
            _ => return None,
        }
        at = token.to;
    }
    None
}

// The duration whose fields come next, and the place after the sign that closes it.
#[inline(never)]
fn duration_at(text: &[u8], place: usize) -> Option<(Duration, usize)>
    requires { place ≤ length text.now }
    ensures found { (outer : List building.Pending) (sum : building.Sums) (product : Option Tree)
        (start : StartParts) →
        Reached text.now place (building.InDuration outer sum product start [] zero_parts)
        → MatchOption result (IsBuildable text.now → ⊥) (λ found. Reached text.now found.1
        (building.AfterItem outer sum (building.times product (Single start (duration_parts found.0))))) }
    ensures past { IfSome result (λ found. place ≤ found.1) }
    ensures inside { IfSome result (λ found. found.1 ≤ length text.now) }
{
    let mut parts = DurationParts::default();
    let mut letters = Letters::none();
    let mut has_field = false;
    let mut at = place;
    while let Some(token) = next_token(text, at) {
        match token.kind {
            TokenKind::Field { letter, value, .. } => {
                if !fits_duration(letters, token.kind) {
                    return None;
                }
                parts = duration_with(parts, letter, value);
                letters = letters.with(letter);
                has_field = true;
            }
            TokenKind::CloseBrace => {
                if !has_field {
                    return None;
                }
                return match Duration::new(parts) {
                    Some(duration) => Some((duration, token.to)),
                    None => None,
                };
            }
            _ => return None,
        }
        at = token.to;
    }
    None
}
