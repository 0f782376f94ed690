//! The tokens of a text, one after another.

ghost use Rattle.std.specs.Prelude.{◌≡◌, ◌≤◌, ◌<◌, ◌-◌, IfErr, IfOk, IfSome, Err, length};
ghost use Rattle.gtd_hours_tokens2.specs.Tokens.{tokens_of};
ghost use Rattle.gtd_hours_tokens2.specs.Cursors.{IsFirstFour, IsFirstToken, IsInside, IsNext, IsPaired, IsSecond, ahead, bytes_left};
ghost use Rattle.gtd_hours_tokens2.specs.Cursors as cursors;
ghost use Rattle.gtd_hours_tokens2.specs.declared.token.DayNames.{DayNames};

use crate::lexer::next_raw;
use crate::pairs::{Before, Paired, after_kind, four, is_dash_kind, pair_of};
use crate::token::{DayNames, Piece, Token, TokenFault, TokenFaultKind, TokenKind};

/// How far the tokens of a text have been handed out. It begins as [`first_cursor`].
#[derive(Clone, Copy)]
pub struct Cursor {
    // The number of bytes that have been read.
    place: usize,
    // What the last token is to the next one.
    before: Before,
    // Whether two numbers were read as times.
    is_time: bool,
    // The first of the first two numbers that were read as years.
    year: Option<usize>,
}

/// The cursor of a text of which nothing has been read. A text of more than 65,536 bytes is `TooLong`.
pub fn first_cursor(text: &[u8]) -> Result<Cursor, TokenFault>
    ensures ahead { IfOk result (λ c. (names : DayNames) → ahead names text.now c ≡ tokens_of names text.now) }
    ensures inside { IfOk result (λ c. IsInside text.now c) }
    ensures fault { IfErr result (λ bad. (names : DayNames) → tokens_of names text.now ≡ Err bad) }
{
    if text.len() > 65_536 {
        return Err(TokenFault {
            kind: TokenFaultKind::TooLong,
            place: 65_536,
        });
    }
    Ok(Cursor {
        place: 0,
        before: Before::Other,
        is_time: false,
        year: None,
    })
}

/// The next token of a text or its next loose space, and the cursor after it; `None` at the end, or the fault of the whole text,
/// even where it is further on. Takes no memory.
///
/// ```text
/// next_piece(DayNames::Unsaid, b"8:00", cursor) == Ok(Some((Piece::Token(Token { kind: TokenKind::Time { hour: 8, minute: 0 },
///     from: 0, to: 4, is_loose: true }), later)))
/// ```
#[inline(always)]
pub fn next_piece(
    names: DayNames,
    text: &[u8],
    cursor: Cursor,
) -> Result<Option<(Piece, Cursor)>, TokenFault>
    requires inside { IsInside text.now cursor }
    ensures next { IsNext names text.now cursor result }
    ensures inside { IfOk result (λ next. IfSome next (λ x. IsInside text.now x.1)) }
    ensures nearer { IfOk result (λ next. IfSome next (λ x. bytes_left text.now x.1 < bytes_left text.now cursor)) }
{
    match next_raw(names, text, cursor.place)? {
        None => end(cursor),
        Some((Piece::Space(place), to)) => Ok(Some((Piece::Space(place), moved(cursor, to)))),
        Some((Piece::Token(token), to)) => {
            if is_single(cursor.before, token.kind) {
                return Ok(Some((Piece::Token(token), passed(cursor, token.kind, to))));
            }
            let paired = paired_at(names, text, cursor.before, token, to);
            Ok(Some((Piece::Token(paired.token), advanced(cursor, paired, to))))
        }
    }
}

// At the end: some numbers are times, and others are years.
fn end(cursor: Cursor) -> Result<Option<(Piece, Cursor)>, TokenFault>
    ensures { result ≡ cursors.end cursor }
{
    if !cursor.is_time {
        return Ok(None);
    }
    match cursor.year {
        None => Ok(None),
        Some(place) => Err(TokenFault {
            kind: TokenFaultKind::Ambiguous,
            place,
        }),
    }
}

// Whether the token is in no pair. Most tokens are not, so that they are handed out as they are.
fn is_single(before: Before, kind: TokenKind) -> bool
    ensures { result ≡ cursors.is_single before kind }
{
    match before {
        Before::Times => false,
        Before::Years => false,
        _ => match four(kind) {
            None => true,
            Some(_) => false,
        },
    }
}

fn passed(cursor: Cursor, kind: TokenKind, place: usize) -> Cursor
    ensures { result ≡ cursors.passed cursor kind place }
{
    Cursor {
        place,
        before: after_kind(kind),
        ..cursor
    }
}

fn moved(cursor: Cursor, place: usize) -> Cursor
    ensures { result ≡ cursors.moved cursor place }
{
    Cursor { place, ..cursor }
}

fn advanced(cursor: Cursor, paired: Paired, place: usize) -> Cursor
    ensures { result ≡ cursors.advanced cursor paired place }
{
    Cursor {
        place,
        before: paired.before,
        is_time: cursor.is_time || paired.is_time,
        year: cursor.year.or(paired.year),
    }
}

// What becomes of a token that ends at a place.
#[inline(never)]
fn paired_at(names: DayNames, text: &[u8], before: Before, token: Token, to: usize) -> Paired
    requires inside { to ≤ length text.now }
    requires room { length text.now ≤ 65_536 }
    ensures { IsPaired names text.now before token to result }
{
    match four(token.kind) {
        None => pair_of(before, token, None),
        Some(_) => pair_of(before, token, second_number(names, text, to)),
    }
}

// The first token from a place on, and the place after it.
#[inline(never)]
fn first_token(names: DayNames, text: &[u8], from: usize) -> Option<(Token, usize)>
    requires inside { from ≤ length text.now }
    requires room { length text.now ≤ 65_536 }
    ensures first { IsFirstToken names text.now from result }
    ensures inside { IfSome result (λ x. x.1 ≤ length text.now) }
{
    let mut place = from;
    loop {
        match next_raw(names, text, place) {
            Err(_) => return None,
            Ok(None) => return None,
            Ok(Some((Piece::Space(_), to))) => place = to,
            Ok(Some((Piece::Token(token), to))) => return Some((token, to)),
        }
    }
}

// The number of four digits after a dash.
fn second_number(names: DayNames, text: &[u8], from: usize) -> Option<u16>
    requires inside { from ≤ length text.now }
    requires room { length text.now ≤ 65_536 }
    ensures { IsSecond names text.now from result }
{
    match first_token(names, text, from) {
        None => None,
        Some((dash, to)) => {
            if is_dash_kind(dash.kind) {
                first_four(names, text, to)
            } else {
                None
            }
        }
    }
}

// The number of four digits that comes first.
fn first_four(names: DayNames, text: &[u8], from: usize) -> Option<u16>
    requires inside { from ≤ length text.now }
    requires room { length text.now ≤ 65_536 }
    ensures { IsFirstFour names text.now from result }
{
    match first_token(names, text, from) {
        None => None,
        Some((number, _)) => four(number.kind),
    }
}
