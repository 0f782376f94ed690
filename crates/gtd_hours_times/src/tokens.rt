//! The tokens of a text.

ghost use Rattle.std.specs.Prelude.{◌≡◌, ◌≤◌, ◌<◌, ◌++◌, ◌∷◌, [], IfErr, IfOk, IfSome, OnOk, length};
ghost use Rattle.gtd_hours_times.specs.Tokens.{AreTimeTokens, IsNextTime, IsNoMomentText};

use crate::stop::NoMomentText;
use crate::times::{TimeToken, parenthesis_at, time_token};
use gtd_hours_tokens::{BadToken, next_token};
use std::alloc::{AllocError, Global};

// The token that comes next from a place on, if one does; or the first byte behind spaces with which none begins.
fn next_time_token(text: &[u8], place: usize) -> Result<Option<TimeToken>, BadToken>
    requires { place ≤ length text.now }
    ensures next { IsNextTime text.now place result }
    ensures past { IfOk result (λ next. IfSome next (λ token. place < token.to)) }
    ensures inside { IfOk result (λ next. IfSome next (λ token. token.to ≤ length text.now)) }
{
    match next_token(text, place) {
        Ok(next) => match next {
            None => Ok(None),
            Some(token) => Ok(Some(time_token(text, token))),
        },
        Err(bad) => match parenthesis_at(text, bad.place) {
            Some(sign) => Ok(Some(sign)),
            None => Err(bad),
        },
    }
}

fn push_token(tokens: &mut Vec<TimeToken>, token: TimeToken) -> Result<(), AllocError>
    ensures { OnOk result (tokens.new.items ≡ tokens.old.items ++ token ∷ []) }
{
    tokens.push(token)?;
    Ok(())
}

/// The tokens of a text. Errors: the first byte with which no token begins; or that there is no memory.
pub fn time_tokens(alloc: Global, text: &[u8]) -> Result<Vec<TimeToken>, NoMomentText>
    ensures tokens { IfOk result (λ tokens. AreTimeTokens text.now tokens.items) }
    ensures fault { IfErr result (IsNoMomentText text.now) }
{
    let mut tokens = Vec::new(alloc);
    let mut place = 0;
    while let Some(token) = next_time_token(text, place)? {
        push_token(&mut tokens, token)?;
        place = token.to;
    }
    Ok(tokens)
}
