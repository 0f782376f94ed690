//! The fault of a text, if it has one, found in one pass that keeps no token and takes no memory.

ghost use Rattle.std.specs.Prelude.{MatchOption};
ghost use Rattle.gtd_text.specs.Found.{IsReadable};
ghost use Rattle.gtd_text.specs.Reading.{IsFault};

use crate::check::findings::Findings;
use crate::lexer::{token_at, token_fault_at};
use gtd_core::TextFault;

pub mod findings;
pub mod grammar;
pub mod letters;
pub mod limits;

/// The first fault of a text: that of the first byte that is not a space and begins no token, or else that of its tokens.
/// A byte that begins no token comes first, so the whole text is read even if a token is at fault.
pub fn first_fault(text: &[u8]) -> Option<TextFault>
    ensures { MatchOption result (IsReadable text.now) (λ fault. IsFault text.now fault) }
{
    let mut findings = Findings::none();
    let mut place = 0;
    while place < text.len() {
        if text[place] == b' ' {
            place += 1;
        } else {
            match token_at(text, place) {
                Some(token) => {
                    findings.note(token);
                    place = token.to;
                }
                None => return Some(token_fault_at(text, place)),
            }
        }
    }
    findings.first(text.len())
}
