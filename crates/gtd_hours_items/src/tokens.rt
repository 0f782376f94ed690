//! All tokens of a text.

ghost use Rattle.std.specs.Prelude.{◌≡◌, ◌++◌, ◌∷◌, [], true, IfErr, IfOk, OnOk};
ghost use Rattle.gtd_hours_tokens.specs.Lexing.{AreTokens};
ghost use Rattle.gtd_hours_items.specs.Comments.{are_whole};
ghost use Rattle.gtd_hours_items.specs.Comments.{IsNoHolidayText};

use crate::comments::is_whole;
use crate::stop::NoHolidayText;
use gtd_hours_tokens::{Token, next_token};
use std::alloc::{AllocError, Global};

fn push_token(tokens: &mut Vec<Token>, token: Token) -> Result<(), AllocError>
    ensures { OnOk result (tokens.new.items ≡ tokens.old.items ++ token ∷ []) }
{
    tokens.push(token)?;
    Ok(())
}

/// The tokens of a text. Errors: the first byte with which no token begins, or the first comment that does not end or has a
/// control byte, whichever stands first; or that there is no memory.
pub fn tokens_of(alloc: Global, text: &[u8]) -> Result<Vec<Token>, NoHolidayText>
    ensures tokens { IfOk result (λ tokens. AreTokens text.now tokens.items) }
    ensures whole { IfOk result (λ tokens. are_whole text.now tokens.items ≡ true) }
    ensures fault { IfErr result (IsNoHolidayText text.now) }
{
    let mut tokens = Vec::new(alloc);
    let mut place = 0;
    while let Some(token) = next_token(text, place)? {
        if !is_whole(text, token) {
            return Err(NoHolidayText::BadToken { place: token.from });
        }
        push_token(&mut tokens, token)?;
        place = token.to;
    }
    Ok(tokens)
}
