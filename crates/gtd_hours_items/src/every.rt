//! Years without a last one, of which there are more than a domain holds, among tokens.

ghost use Rattle.std.specs.Prelude.{◌≡◌};
ghost use Rattle.gtd_hours_grammar.specs.Faults.{is_slash};
ghost use Rattle.gtd_hours_items.specs.Every.{are_many, every_front, is_many};

use gtd_hours_tokens::{Token, TokenKind};

// Whether every so many years from this one to the last of the calendar are more than 128.
fn is_many(first: u16, digits: u8, step: u16) -> bool
    ensures { result ≡ is_many first digits step }
{
    digits == 4 && 1800 <= first && 1 <= step && u32::from(first) + 128 * u32::from(step) <= 2799
}

fn are_many(first: TokenKind, step: TokenKind) -> bool
    ensures { result ≡ are_many first step }
{
    match first {
        TokenKind::Number {
            value: year,
            digits,
        } => match step {
            TokenKind::Number { value, .. } => is_many(year, digits, value),
            _ => false,
        },
        _ => false,
    }
}

fn is_slash(kind: TokenKind) -> bool
    ensures { result ≡ is_slash kind }
{
    match kind {
        TokenKind::Slash => true,
        _ => false,
    }
}

/// Where the slash stands, and where they end, if a token and those behind it begin with years without a last one, of which there
/// are more than a domain holds.
pub fn every_front(token: Token, later: &[Token]) -> Option<(usize, usize)>
    ensures { result ≡ every_front token later.now }
{
    match later {
        [slash, step, ..] => {
            if is_slash(slash.kind) && are_many(token.kind, step.kind) {
                Some((slash.from, step.to))
            } else {
                None
            }
        }
        _ => None,
    }
}
