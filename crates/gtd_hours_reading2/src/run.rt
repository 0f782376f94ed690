//! The run over a text: from bytes to rules.

ghost use Rattle.std.specs.Prelude.{◌≡◌, IfErr, IfOk, Ok};
ghost use Rattle.gtd_hours_grammar2.specs.Machine as machine;
ghost use Rattle.gtd_hours_grammar2.specs.declared.class.Class.TheVariants as classes;
ghost use Rattle.gtd_hours_reading2.specs.Reading as reading;
ghost use Rattle.gtd_hours_reading2.specs.Seen.{IsReadError, built, or_tokens, part_error, seen};
ghost use Rattle.gtd_hours_text2.specs.Parts.{class_of};
ghost use Rattle.gtd_hours_tokens2.specs.Cursors.{IsInside, ahead};

use crate::builder::RuleBuilder;
use crate::fault::{HoursFault, HoursFaultKind, ReadError};
use crate::places::{LooseForm, PartPlace, RulePlace};
use gtd_hours_grammar2::{Class, State, Wrong, next};
use gtd_hours_text2::{PartError, class_of};
use gtd_hours_tokens2::{
    Cursor, DayNames, Piece, Token, TokenFault, TokenFaultKind, first_cursor, next_piece,
};
use gtd_hours2::Rules;
use std::alloc::{AllocError, Global};

/// The rules of a text, and where they are in it.
#[derive(Drop)]
pub struct TextHours {
    /// The rules.
    pub rules: Rules,
    /// Where each rule is, and where it says something.
    pub rule_places: Vec<RulePlace>,
    /// Where the parts of all rules are, in order.
    pub part_places: Vec<PartPlace>,
    /// What is written loosely beside tokens.
    pub loose: Vec<LooseForm>,
}

fn token_fault(kind: TokenFaultKind) -> HoursFaultKind
    ensures { result ≡ reading.token_fault kind }
{
    match kind {
        TokenFaultKind::BadToken => HoursFaultKind::BadToken,
        TokenFaultKind::Ambiguous => HoursFaultKind::Ambiguous,
        TokenFaultKind::TooLong => HoursFaultKind::TooLong,
    }
}

fn fault_at(bad: TokenFault) -> HoursFault
    ensures { result ≡ reading.fault_at bad }
{
    HoursFault {
        kind: token_fault(bad.kind),
        offset: bad.place,
    }
}

fn fault_of(wrong: Wrong) -> HoursFaultKind
    ensures { result ≡ reading.fault_of wrong }
{
    match wrong {
        Wrong::Unexpected => HoursFaultKind::Unexpected,
        Wrong::Ambiguous => HoursFaultKind::Ambiguous,
        Wrong::Unsupported => HoursFaultKind::Unsupported,
    }
}

// A part was not read.
fn part_error(error: PartError) -> ReadError
    ensures { result ≡ part_error error }
{
    match error {
        PartError::NoMemory => ReadError::NoMemory,
        PartError::Range(offset) => ReadError::Fault(HoursFault {
            kind: HoursFaultKind::Range,
            offset: usize::from(offset),
        }),
    }
}

// A token in a state: where it leads.
#[inline(always)]
fn step_over(
    builder: &mut RuleBuilder,
    alloc: Global,
    text: &[u8],
    state: State,
    token: Token,
) -> Result<State, ReadError>
    ensures read { IfOk result (λ to.
        reading.token_step text.now token (machine.next state (class_of token.kind)) (built builder.old)
        ≡ Ok (to, built builder.new)) }
    ensures fault { IfErr result (λ why. IsReadError why
        (reading.token_step text.now token (machine.next state (class_of token.kind)) (built builder.old))) }
{
    match next(state, class_of(token.kind)) {
        Err(wrong) => Err(ReadError::Fault(HoursFault {
            kind: fault_of(wrong),
            offset: usize::from(token.from),
        })),
        Ok(step) => {
            if let Err(error) = builder.cut_step(alloc, step, token.from) {
                return Err(part_error(error));
            }
            builder.take_up(text, step.way, token)?;
            Ok(step.to)
        }
    }
}

// The last rule is complete.
fn complete(builder: RuleBuilder) -> Result<TextHours, AllocError>
    ensures { IfOk result (λ hours. seen hours ≡ reading.text_read (built builder)) }
{
    let RuleBuilder {
        mut rules,
        mut rule_places,
        part_places,
        head,
        parts,
        place,
        loose,
        ..
    } = builder;
    rules.push(head, parts.as_slice())?;
    rule_places.push(place)?;
    Ok(TextHours {
        rules,
        rule_places,
        part_places,
        loose,
    })
}

// The end of a text of so many bytes.
#[inline(never)]
fn finish(
    mut builder: RuleBuilder,
    alloc: Global,
    state: State,
    size: usize,
) -> Result<TextHours, ReadError>
    ensures read { IfOk result (λ hours. reading.completed
        (reading.finish size (machine.next state classes.End) (built builder)) ≡ Ok (seen hours)) }
    ensures fault { IfErr result (λ why. IsReadError why
        (reading.completed (reading.finish size (machine.next state classes.End) (built builder)))) }
{
    match next(state, Class::End) {
        Err(_) => Err(ReadError::Fault(HoursFault {
            kind: HoursFaultKind::Incomplete,
            offset: size,
        })),
        Ok(step) => {
            if let Err(error) = builder.cut_step(alloc, step, 0) {
                return Err(part_error(error));
            }
            builder.drop_last(step.way)?;
            let hours = complete(builder)?;
            Ok(hours)
        }
    }
}

// A fault at a token, or that of the tokens to come.
#[cold]
#[inline(never)]
fn fault_ahead(names: DayNames, text: &[u8], cursor: Cursor, fault: HoursFault) -> HoursFault
    requires inside { IsInside text.now cursor }
    ensures { result ≡ or_tokens fault (ahead names text.now cursor) }
{
    let mut cursor = cursor;
    'piece: loop {
        match next_piece(names, text, cursor) {
            Err(bad) => return fault_at(bad),
            Ok(None) => return fault,
            Ok(Some((_, later))) => cursor = later,
        }
    }
}

/// The rules that a text of opening hours means, with their places, or its first fault. A text has one meaning or one first
/// fault. Memory is taken for rules, and not for tokens.
///
/// ```text
/// read_hours(alloc, DayNames::Unsaid, b"Mo-Fr 08:00-25") == Err(ReadError::Fault(HoursFault { kind: Unexpected, offset: 12 }))
/// ```
pub fn read_hours(alloc: Global, names: DayNames, text: &[u8]) -> Result<TextHours, ReadError>
    ensures read { IfOk result (λ hours. reading.read names text.now ≡ Ok (seen hours)) }
    ensures fault { IfErr result (λ why. IsReadError why (reading.read names text.now)) }
{
    let mut cursor = match first_cursor(text) {
        Ok(cursor) => cursor,
        Err(bad) => return Err(ReadError::Fault(fault_at(bad))),
    };
    let mut builder = RuleBuilder::new(alloc);
    let mut state = State::Front;
    'piece: loop {
        match next_piece(names, text, cursor) {
            Err(bad) => return Err(ReadError::Fault(fault_at(bad))),
            Ok(None) => return finish(builder, alloc, state, text.len()),
            Ok(Some((Piece::Space(_), later))) => cursor = later,
            Ok(Some((Piece::Token(token), later))) => {
                match step_over(&mut builder, alloc, text, state, token) {
                    Err(ReadError::NoMemory) => return Err(ReadError::NoMemory),
                    Err(ReadError::Fault(fault)) => {
                        return Err(ReadError::Fault(fault_ahead(names, text, later, fault)));
                    }
                    Ok(to) => {
                        state = to;
                        cursor = later;
                    }
                }
            }
        }
    }
}
