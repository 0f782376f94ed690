//! Reading a text of opening hours, piece by piece.

ghost use Rattle.std.specs.Prelude.{◌≡◌, ◌<◌, ◌≤◌, ◌∷◌, ◌++◌, [], IfErr, IfOk, IfSome, List, None, Ok, Some, length, ℕ};
ghost use Rattle.gtd_hours_tokens.specs.Lexing.{IsNext};
ghost use Rattle.gtd_hours_tokens.specs.facts.WholeText.{HasRead};
ghost use Rattle.gtd_hours_tokens.specs.declared.token.Token.{Token};
ghost use Rattle.gtd_hours_parts.specs.declared.piece.Piece.{Piece};
ghost use Rattle.gtd_hours_grammar.specs.Faults.{IsFirstFault, IsHoursText, dash_kind, day_kind, is_few, is_offset};
ghost use Rattle.gtd_hours_grammar.specs.Faults.{is_slash, is_told_before, plus_kind, weekday_kind};
ghost use Rattle.gtd_hours_grammar.specs.Kinds.{misfit_of, number_misfit, place_of, range_if};
ghost use Rattle.gtd_hours_moves.specs.Runs.{IsGood};
ghost use Rattle.gtd_hours_moves.specs.Sound.{IsPlace};
ghost use Rattle.gtd_hours_parts.specs.SoundPieces.{IsPiece};
ghost use Rattle.gtd_hours_parts.specs.Values.{IsPartOf};
ghost use Rattle.gtd_hours_grammar.specs.Steps.{IsEndOrFault, IsMove, IsReading, IsToldAt, advanced, bad_token, fault_at};
ghost use Rattle.gtd_hours_grammar.specs.Steps.{kind_of, moves_left};

use crate::fault::{FaultKind, HoursFault};
use gtd_hours_moves::{
    Move, Place, fits, is_judged, is_step_of_years, next_move, takes_number, takes_time,
};
use gtd_hours_parts::{Part, part_of};
use gtd_hours_tokens::{BadToken, Token, TokenKind, check_tokens, next_token};

/// How far a text of opening hours has been read.
#[derive(Clone, Copy)]
pub struct Reading {
    // The number of bytes that have been read.
    place: usize,
    // Where the grammar stood when the next token came.
    behind: Place,
    // Where it stands now.
    at: Place,
    // The token before the one that was read last.
    before_last: Option<TokenKind>,
    // The token that was read last.
    last: Option<TokenKind>,
    // The number of bytes before it.
    from: usize,
}

/// The reading of any text, of which nothing has been read.
pub fn begin() -> Reading
    ensures { (text : List ℕ) → IsReading text result [] }
{
    Reading {
        place: 0,
        behind: Place::Front,
        at: Place::Front,
        before_last: None,
        last: None,
        from: 0,
    }
}

/// What the next piece stands for, and the reading behind it. `None` where the text has been read in full, or its first fault.
/// Takes no memory.
pub fn next_part(text: &[u8], reading: Reading) -> Result<Option<(Part, Reading)>, HoursFault>
    requires stands { (given : List Piece) × IsReading text.now reading given }
    ensures piece { (given : List Piece) → IsReading text.now reading given →
        IfOk result (λ next. IfSome next (λ x.
        (y : Piece) × IsPiece y × IsPartOf x.0 y × IsReading text.now x.1 (given ++ y ∷ []))) }
    ensures all { (given : List Piece) → IsReading text.now reading given →
        result ≡ Ok None → IsHoursText text.now given }
    ensures fault { IfErr result (λ bad. IsFirstFault text.now bad) }
    ensures nearer { IfOk result (λ next. IfSome next (λ x. moves_left text.now x.1 < moves_left text.now reading)) }
{
    let mut now = reading;
    loop {
        let next = token_behind(text, now.place)?;
        let Some(step) = step_from(now.at, kind_of(next)) else {
            return end_or_fault(text, now, next);
        };
        now = advanced(now, next, step);
        if let Some(part) = part_behind(step) {
            return Ok(Some((part, now)));
        }
    }
}

// A byte with which no token begins, as a fault.
fn bad_token(bad: BadToken) -> HoursFault
    ensures { result ≡ bad_token bad.place }
{
    HoursFault {
        kind: FaultKind::BadToken,
        place: bad.place,
    }
}

// The next token, behind those that have been read.
fn token_behind(text: &[u8], place: usize) -> Result<Option<Token>, HoursFault>
    requires inside { place ≤ length text.now }
    requires read { HasRead text.now place }
    ensures next { IfOk result (λ next. IsNext text.now place (Ok next)) }
    ensures past { IfOk result (λ next. IfSome next (λ token. place < token.to)) }
    ensures inside { IfOk result (λ next. IfSome next (λ token. token.to ≤ length text.now)) }
    ensures fault { IfErr result (λ bad. IsFirstFault text.now bad) }
{
    match next_token(text, place) {
        Ok(next) => Ok(next),
        Err(bad) => Err(bad_token(bad)),
    }
}

// The first fault where a token cannot come next. Bytes behind it with which no token begins are told first.
fn first_fault(text: &[u8], now: Reading, token: Token) -> HoursFault
    requires inside { token.to ≤ length text.now }
    requires read { HasRead text.now token.to }
    ensures { IsToldAt text.now now token result }
{
    match check_tokens(text, token.to) {
        Ok(()) => fault_at(now, token),
        Err(bad) => bad_token(bad),
    }
}

fn kind_of(next: Option<Token>) -> Option<TokenKind>
    ensures { result ≡ kind_of next }
{
    match next {
        Some(token) => Some(token.kind),
        None => None,
    }
}

// The move that a token, or the end of the text, makes.
fn step_from(place: Place, next: Option<TokenKind>) -> Option<Move>
    requires { IsPlace place }
    ensures computed { IsMove place next result }
    ensures good { IfSome result (λ move. IsGood place next move) }
{
    next_move(place, next, fits(place, next))
}

// What the piece that a move completes stands for.
fn part_behind(step: Move) -> Option<Part>
    ensures kept { IfSome result (λ x. (y : Piece) × (step.piece ≡ Some y) × IsPartOf x y) }
    ensures none { result ≡ None → IfSome step.piece IsPiece → step.piece ≡ None }
{
    match step.piece {
        Some(piece) => part_of(piece),
        None => None,
    }
}

// The reading behind a move.
fn advanced(reading: Reading, next: Option<Token>, step: Move) -> Reading
    ensures { result ≡ advanced reading next step }
{
    match next {
        Some(token) => {
            if step.takes {
                Reading {
                    place: token.to,
                    behind: step.to,
                    at: step.to,
                    before_last: reading.last,
                    last: Some(token.kind),
                    from: token.from,
                }
            } else {
                Reading {
                    at: step.to,
                    ..reading
                }
            }
        }
        None => Reading {
            at: step.to,
            ..reading
        },
    }
}

// What a reading comes to where no move can be made.
fn end_or_fault(
    text: &[u8],
    now: Reading,
    next: Option<Token>,
) -> Result<Option<(Part, Reading)>, HoursFault>
    requires inside { IfSome next (λ token. token.to ≤ length text.now) }
    requires read { IfSome next (λ token. HasRead text.now token.to) }
    ensures { IsEndOrFault text.now now next result }
{
    match next {
        Some(token) => Err(first_fault(text, now, token)),
        None => {
            if now.at.is_after() {
                Ok(None)
            } else {
                Err(HoursFault {
                    kind: FaultKind::Incomplete,
                    place: text.len(),
                })
            }
        }
    }
}

// The fault at a token that cannot come next. Weeks that go back have no step: the second week, before the slash, is told. A step
// of too many years is told at the slash before it, and an offset that leads back too far at its sign.
fn fault_at(now: Reading, token: Token) -> HoursFault
    ensures { result ≡ fault_at now token }
{
    let kind = misfit(now, token.kind);
    let place = place_of(kind, is_offset(now.before_last, now.last), now.from, token);
    HoursFault { kind, place }
}

// What is wrong with a number: it is a step of too many years, or out of its range, or none is expected.
fn number_misfit(many: bool, fits_by_place: bool) -> FaultKind
    ensures { result ≡ number_misfit many fits_by_place }
{
    if many {
        FaultKind::Years
    } else {
        range_if(fits_by_place)
    }
}

// Where a fault of this kind is told at a token, behind one at the place before, which may be the sign of an offset.
fn place_of(kind: FaultKind, offset: bool, before: usize, token: Token) -> usize
    ensures { result ≡ place_of kind offset before token }
{
    match kind {
        FaultKind::Years => before,
        FaultKind::Range => {
            if is_told_before(offset, token.kind) {
                before
            } else {
                token.from
            }
        }
        _ => token.from,
    }
}

fn is_told_before(offset: bool, kind: TokenKind) -> bool
    ensures { result ≡ is_told_before offset kind }
{
    is_slash(kind) || offset && is_few(kind)
}

// The number of an offset, by its digits and its value.
fn is_few(kind: TokenKind) -> bool
    ensures { result ≡ is_few kind }
{
    match kind {
        TokenKind::Number { value, digits } => {
            1 <= digits && digits <= 2 && 1 <= value && value <= 27
        }
        _ => false,
    }
}

// Of two tokens, the second is the sign of an offset.
fn is_offset(before: Option<TokenKind>, last: Option<TokenKind>) -> bool
    ensures { result ≡ is_offset before last }
{
    match before {
        Some(TokenKind::CloseBracket) => match last {
            Some(TokenKind::Plus) => true,
            Some(TokenKind::Dash) => true,
            _ => false,
        },
        _ => false,
    }
}

fn is_slash(kind: TokenKind) -> bool
    ensures { result ≡ is_slash kind }
{
    matches!(kind, TokenKind::Slash)
}

// What is wrong with a token that cannot come next, behind the one that was read last.
fn misfit(now: Reading, kind: TokenKind) -> FaultKind
    ensures { result ≡ misfit_of now.behind now.at now.before_last now.last kind }
{
    match kind {
        TokenKind::Number { .. } => {
            number_misfit(is_step_of_years(now.at, kind), takes_number(now.behind))
        }
        TokenKind::Time { .. } => range_if(takes_time(now.behind)),
        TokenKind::Month(_) => range_if(is_judged(now.at, kind)),
        TokenKind::Slash => range_if(is_judged(now.at, kind)),
        TokenKind::Unsupported => FaultKind::Unsupported,
        TokenKind::Plus => plus_kind(now.last),
        TokenKind::Dash => dash_kind(now.last),
        TokenKind::Day => day_kind(now.before_last, now.last),
        TokenKind::Weekday(_) => weekday_kind(is_offset(now.before_last, now.last)),
        _ => FaultKind::Unexpected,
    }
}

// Behind brackets a `+` is an offset, which suits none of the places. Behind years and weekdays it is unexpected. Elsewhere it
// would be an open end or an offset that is not read.
fn plus_kind(last: Option<TokenKind>) -> FaultKind
    ensures { result ≡ plus_kind last }
{
    match last {
        Some(TokenKind::CloseBracket) => FaultKind::Range,
        Some(TokenKind::Weekday(_)) => FaultKind::Unexpected,
        Some(TokenKind::Number { digits, .. }) => {
            if digits == 4 {
                FaultKind::Unexpected
            } else {
                FaultKind::Unsupported
            }
        }
        Some(TokenKind::Plus) => FaultKind::Unexpected,
        _ => FaultKind::Unsupported,
    }
}

fn dash_kind(last: Option<TokenKind>) -> FaultKind
    ensures { result ≡ dash_kind last }
{
    match last {
        Some(TokenKind::CloseBracket) => FaultKind::Range,
        _ => FaultKind::Unexpected,
    }
}

// A weekday behind the sign of an offset is an offset to a weekday.
fn weekday_kind(offset: bool) -> FaultKind
    ensures { result ≡ weekday_kind offset }
{
    if offset {
        FaultKind::Unsupported
    } else {
        FaultKind::Unexpected
    }
}

// `day` behind a range of dates is an offset of a date.
fn day_kind(before: Option<TokenKind>, last: Option<TokenKind>) -> FaultKind
    ensures { result ≡ day_kind before last }
{
    match before {
        Some(TokenKind::Dash) => match last {
            Some(TokenKind::Number { .. }) => FaultKind::Unsupported,
            _ => FaultKind::Unexpected,
        },
        _ => FaultKind::Unexpected,
    }
}

fn range_if(fits_by_place: bool) -> FaultKind
    ensures { result ≡ range_if fits_by_place }
{
    if fits_by_place {
        FaultKind::Range
    } else {
        FaultKind::Unexpected
    }
}
