//! The strict form of a text, from its tokens.

ghost use Rattle.std.specs.Prelude.{◌+◌, ◌<◌, ◌++◌, ◌^◌, List, OnOk, IfOk, IfErr, length};
ghost use Rattle.gtd_hours_loose.specs.Mending.{Holds, Mended, by_fate, form_of, mended, spaces_in};
ghost use Rattle.gtd_hours_loose.specs.StrictForms.{IsLooseStop, IsPushed, IsStrictForm};

use crate::behind::{Behind, Fate, after, fate_of, kind_here};
use crate::pairs::pair_fault;
use crate::strict::{StrictForm, nothing, push_part, push_strict, stretch};
use gtd_hours_loose_tokens::{
    DayNames, LooseKind, LooseStop, LooseToken, TokenFault, other_space, tokens_of,
};
use std::alloc::{AllocError, Global};

/// The strict form of a loosely written text, or the first place where a token is wrong.
pub fn strict_form(alloc: Global, text: &[u8], names: DayNames) -> Result<StrictForm, LooseStop>
    ensures form { IfOk result (IsStrictForm names text.now) }
    ensures fault { IfErr result (IsLooseStop names text.now) }
{
    let lower = text.to_ascii_lowercase(alloc)?;
    let tokens = tokens_of(alloc, names, lower.as_slice())?;
    match pair_fault(tokens.as_slice()) {
        Some(place) => Err(LooseStop::Token(TokenFault::Ambiguous { place })),
        None => Ok(mended(alloc, text, tokens.as_slice())?),
    }
}

// The strict form of a text with these tokens.
fn mended(alloc: Global, text: &[u8], tokens: &[LooseToken]) -> Result<StrictForm, AllocError>
    ensures { IfOk result (λ form. Holds form (mended text.now tokens.now)) }
{
    let mut form = nothing(alloc);
    let mut place = 0;
    let mut behind = Behind::Front;
    let mut rest = tokens;
    while let Some((token, later)) = rest.split_first() {
        push_spaces(&mut form, place, stretch(text, place, token.from))?;
        behind = push_token(&mut form, text, behind, rest)?;
        place = token.to;
        rest = later;
    }
    push_spaces(&mut form, place, stretch(text, place, text.len()))?;
    Ok(form)
}

// Appends the spaces other than those of ASCII, of bytes that begin at a place.
fn push_spaces(form: &mut StrictForm, place: usize, bytes: &[u8]) -> Result<(), AllocError>
    requires { 0 < length bytes.now → place + length bytes.now < 2 ^ 63 }
    ensures { OnOk result ((ms : List Mended) → Holds form.old ms
        → Holds form.new (ms ++ spaces_in place bytes.now)) }
{
    let mut at = place;
    let mut rest = bytes;
    while let Some((byte, later)) = rest.split_first() {
        let size = other_space(*byte, later);
        if size > 0 {
            push_part(form, at, at + size, b" ")?;
        }
        at += 1;
        rest = later;
    }
    Ok(())
}

// Appends the strict form of the first of these tokens, and answers what stands behind it.
fn push_token(
    form: &mut StrictForm,
    text: &[u8],
    behind: Behind,
    tokens: &[LooseToken],
) -> Result<Behind, AllocError>
    ensures { IfOk result (IsPushed text.now behind tokens.now form.old form.new) }
{
    match tokens.split_first() {
        None => Ok(behind),
        Some((token, later)) => {
            let kind = kind_here(behind, token.kind, tokens);
            let fate = fate_of(behind, kind, later);
            push_by(
                form,
                fate,
                *token,
                kind,
                stretch(text, token.from, token.to),
            )?;
            Ok(after(fate, behind, token.kind, tokens))
        }
    }
}

// Appends a token with this fate, this kind and this text.
fn push_by(
    form: &mut StrictForm,
    fate: Fate,
    token: LooseToken,
    kind: LooseKind,
    written: &[u8],
) -> Result<(), AllocError>
    ensures { OnOk result ((ms : List Mended) → Holds form.old ms
        → Holds form.new (ms ++ by_fate fate token.from token.to (form_of kind written.now))) }
{
    match fate {
        Fate::Kept => push_strict(form, kind, token.from, token.to, written),
        Fate::Dropped => push_part(form, token.from, token.to, b""),
        Fate::Joined => {
            push_part(form, token.from, token.from, b",")?;
            push_strict(form, kind, token.from, token.to, written)
        }
    }
}
