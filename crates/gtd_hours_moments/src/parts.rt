//! The tokens of a text, with what becomes of each.

ghost use Rattle.std.specs.Prelude.{◌≡◌, ◌++◌, ◌∷◌, [], IfErr, IfOk, OnOk};
ghost use Rattle.gtd_hours_times.specs.Tokens.{IsNoMomentText};
ghost use Rattle.gtd_hours_moments.specs.Reading.{ArePartsIn};
ghost use Rattle.gtd_hours_moments.specs.Parts.{breaks_off, forms_of, goes_on, part_of, parts_of, told_at, told_of, whole_of};

use crate::told::Told;
use gtd_hours_times::{
    Behind, NoMomentText, Step, TimeForm, TimeToken, Written, step_of, time_tokens,
};
use std::alloc::{AllocError, Global};

/// A token, and what becomes of it.
#[derive(Clone, Copy)]
pub struct Part {
    /// Its place: the number of bytes before it.
    pub from: usize,
    /// The number of bytes up to its end.
    pub to: usize,
    /// What stands for it in the checked text.
    pub written: Written,
    /// The form that is whole with it.
    pub whole: Option<TimeForm>,
    /// Whether a form that is not whole goes on behind it.
    pub goes_on: bool,
}

fn goes_on(behind: Behind) -> bool
    ensures { result ≡ goes_on behind }
{
    match behind {
        Behind::Free => false,
        Behind::Whole => false,
        _ => true,
    }
}

fn part_of(token: TimeToken, step: Step) -> Part
    ensures { result ≡ part_of token step }
{
    Part {
        from: token.from,
        to: token.to,
        written: step.written,
        whole: step.whole,
        goes_on: goes_on(step.behind),
    }
}

fn push_part(parts: &mut Vec<Part>, part: Part) -> Result<(), AllocError>
    ensures { OnOk result (parts.new.items ≡ parts.old.items ++ part ∷ []) }
{
    parts.push(part)?;
    Ok(())
}

// What becomes of the tokens of a text.
fn parts_of(alloc: Global, tokens: &[TimeToken]) -> Result<Vec<Part>, AllocError>
    ensures { IfOk result (λ parts. parts.items ≡ parts_of tokens.now) }
{
    let mut parts = Vec::new(alloc);
    let mut behind = Behind::Free;
    let mut rest = tokens;
    while let Some((token, later)) = rest.split_first() {
        let step = step_of(behind, *token, later);
        push_part(&mut parts, part_of(*token, step))?;
        behind = step.behind;
        rest = later;
    }
    Ok(parts)
}

/// The tokens of a text, with what becomes of each. Errors: the first byte with which no token begins; or that there is no
/// memory.
pub fn parts_in(alloc: Global, text: &[u8]) -> Result<Vec<Part>, NoMomentText>
    ensures parts { IfOk result (λ parts. ArePartsIn text.now parts.items) }
    ensures fault { IfErr result (IsNoMomentText text.now) }
{
    let tokens = time_tokens(alloc, text)?;
    let parts = parts_of(alloc, tokens.as_slice())?;
    Ok(parts)
}

fn push_form(forms: &mut Vec<TimeForm>, form: Option<TimeForm>) -> Result<(), AllocError>
    ensures { OnOk result (forms.new.items ≡ forms.old.items ++ whole_of form) }
{
    if let Some(form) = form {
        forms.push(form)?;
    }
    Ok(())
}

/// The forms that are whole.
pub fn forms_of(alloc: Global, parts: &[Part]) -> Result<Vec<TimeForm>, AllocError>
    ensures { IfOk result (λ forms. forms.items ≡ forms_of parts.now) }
{
    let mut forms = Vec::new(alloc);
    let mut rest = parts;
    while let Some((part, later)) = rest.split_first() {
        push_form(&mut forms, part.whole)?;
        rest = later;
    }
    Ok(forms)
}

fn push_told(told: &mut Vec<Told>, place: usize, written: Written) -> Result<(), AllocError>
    ensures { OnOk result (told.new.items ≡ told.old.items ++ told_at place written) }
{
    match written {
        Written::Misfit(kind) => {
            told.push(Told { place, kind })?;
            Ok(())
        }
        _ => Ok(()),
    }
}

/// How faults of the checked text are told.
pub fn told_of(alloc: Global, parts: &[Part]) -> Result<Vec<Told>, AllocError>
    ensures { IfOk result (λ told. told.items ≡ told_of parts.now) }
{
    let mut told = Vec::new(alloc);
    let mut rest = parts;
    while let Some((part, later)) = rest.split_first() {
        push_told(&mut told, part.from, part.written)?;
        rest = later;
    }
    Ok(told)
}

/// Whether a form breaks off behind the last one.
pub fn breaks_off(parts: &[Part]) -> bool
    ensures { result ≡ breaks_off parts.now }
{
    let mut last = false;
    let mut rest = parts;
    while let Some((part, later)) = rest.split_first() {
        last = part.goes_on;
        rest = later;
    }
    last
}
