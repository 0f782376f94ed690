//! From the tokens of a part to its values: numbers in brackets.

ghost use Rattle.std.specs.Prelude.{◌≡◌, ◌++◌, ◌+◌, ◌-◌, ◌≤◌, IfErr, IfOk, OnOk, Ok, drop};
ghost use Rattle.gtd_hours_text2.specs.Faults.{IsPartFault};
ghost use Rattle.gtd_hours_text2.specs.Parts.{Gives, after_dash, after_number, all_suit, before_nths, bracket_number, in_brackets};
ghost use Rattle.gtd_hours_text2.specs.Parts.{lowest, nth_weekdays, nths, numbered, pushed, read_so_far};
ghost use Rattle.gtd_hours_text2.specs.declared.brackets.BracketState.TheVariants.{Nothing};
ghost use Rattle.gtd_hours_text2.specs.declared.brackets.PartError.TheVariants as errors;

use crate::ends::weekday;
use crate::times::{offset, suits};
use crate::years::{after, is, place_of};
use gtd_hours_grammar2::Class;
use gtd_hours_tokens2::{Token, TokenKind};
use gtd_hours2::{DayOffset, RulePart};
use std::alloc::{AllocError, AllocFailed, Global};

/// Why parts could not be read.
#[derive(Drop)]
pub enum PartError {
    /// Memory was refused.
    NoMemory,
    /// The token at this offset is out of range.
    Range(u16),
}

impl From<AllocError> for PartError {
    ghost from_gives = { λ _ e. e ≡ errors.NoMemory };

    fn from(_e: AllocError) -> PartError {
        PartError::NoMemory
    }
}

impl<T: Drop> From<AllocFailed<T>> for PartError {
    ghost from_gives = { λ _ e. e ≡ errors.NoMemory };

    fn from(_e: AllocFailed<T>) -> PartError {
        PartError::NoMemory
    }
}

/// Which of the weekdays of a month.
#[derive(Clone, Copy)]
pub(crate) struct NthNumber {
    /// 1 to 5.
    pub number: u8,
    /// Whether it is counted from the end of the month.
    pub is_back: bool,
}

/// What has been read in brackets since the last comma.
#[derive(Clone, Copy)]
pub(crate) enum BracketState {
    /// Nothing.
    Nothing,
    /// `-`
    Minus,
    /// `3`, `-1`
    One(NthNumber),
    /// `3-`
    Dash(u8),
    /// `3-4`
    Span(u8, u8),
}

// The numbers from the first up to the last.
fn push_numbers(out: &mut Vec<NthNumber>, first: u8, last: u8) -> Result<(), AllocError>
    ensures { OnOk result (out.new.items ≡ out.old.items ++ nths first (last + 1 - first)) }
{
    for number in u16::from(first)..u16::from(last) + 1 {
        out.push(NthNumber {
            number: number as u8,
            is_back: false,
        })?;
    }
    Ok(())
}

fn push_so_far(out: &mut Vec<NthNumber>, state: BracketState) -> Result<(), AllocError>
    ensures { OnOk result (out.new.items ≡ out.old.items ++ read_so_far state) }
{
    match state {
        BracketState::One(nth) => {
            out.push(nth)?;
            Ok(())
        }
        BracketState::Span(first, last) => push_numbers(out, first, last),
        _ => Ok(()),
    }
}

fn after_dash(state: BracketState) -> BracketState
    ensures { result ≡ after_dash state }
{
    match state {
        BracketState::One(nth) => BracketState::Dash(nth.number),
        _ => BracketState::Minus,
    }
}

fn after_number(state: BracketState, number: u8) -> BracketState
    ensures { result ≡ after_number state number }
{
    match state {
        BracketState::Minus => BracketState::One(NthNumber {
            number,
            is_back: true,
        }),
        BracketState::Dash(first) => BracketState::Span(first, number),
        _ => BracketState::One(NthNumber {
            number,
            is_back: false,
        }),
    }
}

fn lowest(state: BracketState) -> u16
    ensures { result ≡ lowest state }
{
    match state {
        BracketState::Dash(first) => u16::from(first),
        _ => 1,
    }
}

// A number in brackets, and the state after it.
fn bracket_number(state: BracketState, token: Token) -> Result<BracketState, u16>
    ensures { Gives (λ x. x) result (bracket_number state token) }
{
    match token.kind {
        TokenKind::Number { value, digits } => {
            if digits == 1 && lowest(state) <= value && value <= 5 {
                Ok(after_number(state, value as u8))
            } else {
                Err(token.from)
            }
        }
        _ => Err(token.from),
    }
}

// The numbers in brackets, and the tokens after these.
#[tactic(auto, using(crate::proofs::Numbering::before_nothing, crate::proofs::Numbering::before_more))]
fn in_brackets(alloc: Global, tokens: &[Token]) -> Result<(Vec<NthNumber>, &[Token]), PartError>
    ensures read { IfOk result (λ x. in_brackets Nothing tokens.now ≡ Ok (x.0.items, x.1.now)) }
    ensures fault { IfErr result (λ why. IsPartFault why (in_brackets Nothing tokens.now)) }
{
    let mut out = Vec::new(alloc);
    let mut state = BracketState::Nothing;
    let mut rest = tokens;
    while let Some((token, more)) = rest.split_first() {
        if is(Class::Close, rest) {
            push_so_far(&mut out, state)?;
            return Ok((out, more));
        }
        if is(Class::Comma, rest) {
            push_so_far(&mut out, state)?;
            state = BracketState::Nothing;
        } else if is(Class::Dash, rest) {
            state = after_dash(state);
        } else {
            match bracket_number(state, *token) {
                Ok(next) => state = next,
                Err(offset) => return Err(PartError::Range(offset)),
            }
        }
        rest = more;
    }
    push_so_far(&mut out, state)?;
    Ok((out, rest))
}

fn all_suit(offset: DayOffset, numbers: &[NthNumber]) -> bool
    ensures { result ≡ all_suit offset numbers.now }
{
    let mut rest = numbers;
    while let Some((nth, more)) = rest.split_first() {
        if !suits(offset, u16::from(nth.number), nth.is_back) {
            return false;
        }
        rest = more;
    }
    true
}

fn push_numbered(
    out: &mut Vec<RulePart>,
    weekday: u8,
    offset: DayOffset,
    numbers: &[NthNumber],
) -> Result<(), AllocError>
    ensures { OnOk result (out.new.items ≡ out.old.items ++ numbered weekday offset numbers.now) }
{
    let mut rest = numbers;
    while let Some((nth, more)) = rest.split_first() {
        out.push(RulePart::NthWeekday {
            weekday,
            number: nth.number,
            is_back: nth.is_back,
            offset,
        })?;
        rest = more;
    }
    Ok(())
}

/// `We[1,3-4,-1] +2 days`
pub(crate) fn push_nth_weekdays(
    alloc: Global,
    out: &mut Vec<RulePart>,
    tokens: &[Token],
) -> Result<(), PartError>
    ensures read { OnOk result (pushed out.old.items (nth_weekdays tokens.now) ≡ Ok out.new.items) }
    ensures fault { IfErr result (λ why. IsPartFault why (nth_weekdays tokens.now)) }
{
    let (numbers, rest) = in_brackets(alloc, after(after(tokens)))?;
    match offset(27, rest) {
        Err(offset) => Err(PartError::Range(offset)),
        Ok((offset, _)) => {
            if !all_suit(offset, numbers.as_slice()) {
                return Err(PartError::Range(place_of(rest)));
            }
            push_numbered(out, weekday(tokens), offset, numbers.as_slice())?;
            Ok(())
        }
    }
}
