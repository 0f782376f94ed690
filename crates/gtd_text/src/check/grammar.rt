//! Which tokens make an expression.

ghost use Rattle.std.specs.Prelude.{◌≡◌, ◌<◌, ◌+◌, ◌^◌, []};
ghost use Rattle.gtd_text.specs.Fitting.{begins_item, follows_item};
ghost use Rattle.gtd_text.specs.Summary.{field_takes, field_misfit};
ghost use Rattle.gtd_text.specs.Summary.{start_takes, duration_takes, is_found_in_start};

use crate::check::letters::Letters;
use crate::check::limits::depth_after;
use crate::token::TokenKind;
use gtd_core::Fault;
use gtd_core::fields::{is_duration_letter, is_start_letter, is_start_value};

/// What decides whether the next token fits: the last token, the last sign, how many brackets are open, and the letters
/// of the fields since that sign.
#[derive(Clone, Copy)]
pub struct Seen {
    last: Option<TokenKind>,
    sign: Option<TokenKind>,
    depth: usize,
    letters: Letters,
}

impl Seen {
    ghost use Rattle.gtd_text.specs.Summary.{seen, seen_with, takes, misfit, ends};

    /// No token comes before.
    pub fn none() -> Seen
        ensures { result ≡ seen [] }
    {
        Seen {
            last: None,
            sign: None,
            depth: 0,
            letters: Letters::none(),
        }
    }

    /// Reads one more token.
    pub fn note(&mut self, kind: TokenKind)
        requires { self.old.depth + 1 < 2 ^ 64 }
        ensures { self.new ≡ seen_with self.old kind }
    {
        self.last = Some(kind);
        if let TokenKind::Field { letter, .. } = kind {
            self.letters = self.letters.with(letter);
            return;
        }
        self.sign = Some(kind);
        self.depth = depth_after(self.depth, kind);
        self.letters = Letters::none();
    }

    /// How many brackets are open.
    pub fn depth(self) -> usize
        ensures { result ≡ self.depth }
    {
        self.depth
    }

    /// Whether the token may come next after those before it.
    pub fn fits(self, kind: TokenKind) -> bool
        ensures { result ≡ takes self kind }
    {
        match self.last {
            None => begins_item(kind),
            Some(last) => match last {
                TokenKind::OpenBracket | TokenKind::Plus | TokenKind::Star | TokenKind::Minus =>
                    begins_item(kind),
                TokenKind::OpenParenthesis => fits_start(self.letters, kind),
                TokenKind::CloseParenthesis => matches!(kind, TokenKind::OpenBrace),
                TokenKind::OpenBrace => fits_duration(self.letters, kind),
                TokenKind::CloseBrace | TokenKind::CloseBracket => follows_item(self.depth, kind),
                TokenKind::Field { .. } => fits_after_field(self.sign, self.letters, kind),
            },
        }
    }

    /// The fault of a token that does not fit.
    pub fn fault_of(self, kind: TokenKind) -> Fault
        ensures { result ≡ misfit self kind }
    {
        match kind {
            TokenKind::Field { letter, .. } => field_fault(self.sign, self.letters, letter),
            TokenKind::Minus => match self.last {
                Some(TokenKind::OpenBrace) => Fault::Negative,
                _ => Fault::Unexpected,
            },
            _ => Fault::Unexpected,
        }
    }

    /// Whether the tokens may end here.
    pub fn may_end(self) -> bool
        ensures { result ≡ ends self }
    {
        match self.last {
            Some(TokenKind::CloseBrace | TokenKind::CloseBracket) => self.depth == 0,
            _ => false,
        }
    }
}

fn begins_item(kind: TokenKind) -> bool
    ensures { result ≡ begins_item kind }
{
    matches!(kind, TokenKind::OpenBracket | TokenKind::OpenParenthesis)
}

fn follows_item(depth: usize, kind: TokenKind) -> bool
    ensures { result ≡ follows_item depth kind }
{
    match kind {
        TokenKind::Plus | TokenKind::Minus | TokenKind::Star => true,
        TokenKind::CloseBracket => 0 < depth,
        _ => false,
    }
}

fn fits_after_field(sign: Option<TokenKind>, letters: Letters, kind: TokenKind) -> bool
    ensures { result ≡ field_takes sign letters kind }
{
    match sign {
        Some(TokenKind::OpenParenthesis) => {
            fits_start(letters, kind) || matches!(kind, TokenKind::CloseParenthesis)
        }
        Some(TokenKind::OpenBrace) => {
            fits_duration(letters, kind) || matches!(kind, TokenKind::CloseBrace)
        }
        _ => false,
    }
}

/// Whether a field of a start may follow fields with these letters.
#[inline(always)]
pub fn fits_start(letters: Letters, kind: TokenKind) -> bool
    ensures { result ≡ start_takes letters kind }
{
    match kind {
        TokenKind::Field {
            letter,
            value,
            digits,
        } => {
            is_start_letter(letter)
                && !is_repeated_in_start(letters, letter)
                && is_start_value(letter, value, digits)
        }
        _ => false,
    }
}

/// Whether a field of a duration may follow fields with these letters.
pub fn fits_duration(letters: Letters, kind: TokenKind) -> bool
    ensures { result ≡ duration_takes letters kind }
{
    match kind {
        TokenKind::Field { letter, .. } => is_duration_letter(letter) && !letters.has(letter),
        _ => false,
    }
}

// Whether a field with this letter would be `Repeated` in the same parentheses.
fn is_repeated_in_start(letters: Letters, letter: u8) -> bool
    ensures { result ≡ is_found_in_start letters letter }
{
    letter != b't' && letters.has(letter)
}

fn field_fault(sign: Option<TokenKind>, letters: Letters, letter: u8) -> Fault
    ensures { result ≡ field_misfit sign letters letter }
{
    match sign {
        Some(TokenKind::OpenParenthesis) if is_start_letter(letter) => {
            if is_repeated_in_start(letters, letter) {
                Fault::Repeated
            } else {
                Fault::FieldRange
            }
        }
        Some(TokenKind::OpenBrace) if is_duration_letter(letter) => {
            if letters.has(letter) {
                Fault::Repeated
            } else {
                Fault::FieldRange
            }
        }
        _ => Fault::Unexpected,
    }
}
