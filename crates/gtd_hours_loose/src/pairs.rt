//! Numbers of four digits that are times.

ghost use Rattle.std.specs.Prelude.{◌≡◌, false, true};
ghost use Rattle.gtd_hours_loose.specs.Pairs.{begins_pair, begins_read, clock_of, is_before_years, is_clock_number, is_dash};
ghost use Rattle.gtd_hours_loose.specs.Pairs.{is_pair, is_read, names_days, pair_fault, pair_left, reads_pair};

use gtd_hours_loose_tokens::{LooseKind, LooseToken};

/// Whether it is a weekday, a holiday, or the bracket behind places of a weekday.
pub fn names_days(kind: LooseKind) -> bool
    ensures { result ≡ names_days kind }
{
    match kind {
        LooseKind::Weekday(_) => true,
        LooseKind::CloseBracket => true,
        LooseKind::PublicHoliday => true,
        LooseKind::SchoolHoliday => true,
        _ => false,
    }
}

fn is_dash(kind: LooseKind) -> bool
    ensures { result ≡ is_dash kind }
{
    match kind {
        LooseKind::Dash => true,
        _ => false,
    }
}

/// Whether it is four digits that could be a time up to 48:00.
pub fn is_clock_number(kind: LooseKind) -> bool
    ensures { result ≡ is_clock_number kind }
{
    match kind {
        LooseKind::Number { value, digits } => digits == 4 && value % 100 < 60 && value <= 4800,
        _ => false,
    }
}

fn is_before_years(kind: LooseKind) -> bool
    ensures { result ≡ is_before_years kind }
{
    match kind {
        LooseKind::Number { value, .. } => value < 1800,
        _ => false,
    }
}

/// The time that four digits are.
pub fn clock_of(kind: LooseKind) -> LooseKind
    requires { is_clock_number kind ≡ true }
    ensures { result ≡ clock_of kind }
{
    match kind {
        LooseKind::Number { value, .. } => {
            let hour = (value / 100) as u8;
            let minute = (value % 100) as u8;
            LooseKind::Time { hour, minute }
        }
        _ => kind,
    }
}

fn is_pair(a: LooseToken, dash: LooseToken, b: LooseToken) -> bool
    ensures { result ≡ is_pair a dash b }
{
    is_clock_number(a.kind) && is_dash(dash.kind) && is_clock_number(b.kind)
}

fn is_read(days: bool, a: LooseToken, dash: LooseToken, b: LooseToken) -> bool
    ensures { result ≡ is_read days a dash b }
{
    is_pair(a, dash, b) && (days || is_before_years(a.kind))
}

/// Whether the tokens begin with two numbers that are times, where days are named directly before them or not.
pub fn begins_read(days: bool, tokens: &[LooseToken]) -> bool
    ensures { result ≡ begins_read days tokens.now }
{
    match tokens {
        [a, dash, b, ..] => is_read(days, *a, *dash, *b),
        _ => false,
    }
}

fn begins_pair(tokens: &[LooseToken]) -> bool
    ensures { result ≡ begins_pair tokens.now }
{
    match tokens {
        [a, dash, b, ..] => is_pair(*a, *dash, *b),
        _ => false,
    }
}

// Whether some two numbers are times.
fn reads_pair(tokens: &[LooseToken]) -> bool
    ensures { result ≡ reads_pair false tokens.now }
{
    let mut rest = tokens;
    let mut days = false;
    while let Some((token, later)) = rest.split_first() {
        if begins_read(days, rest) {
            return true;
        }
        days = names_days(token.kind);
        rest = later;
    }
    false
}

// The place of the first two numbers that could be times and are not.
fn pair_left(tokens: &[LooseToken]) -> Option<usize>
    ensures { result ≡ pair_left 0 false tokens.now }
{
    let mut rest = tokens;
    let mut days = false;
    let mut skipped: u8 = 0;
    while let Some((token, later)) = rest.split_first() {
        if skipped > 0 {
            skipped -= 1;
        } else if begins_read(days, rest) {
            skipped = 2;
            days = false;
        } else if begins_pair(rest) {
            return Some(token.from);
        } else {
            days = names_days(token.kind);
        }
        rest = later;
    }
    None
}

/// The first two numbers that are not read as times, where others are.
pub fn pair_fault(tokens: &[LooseToken]) -> Option<usize>
    ensures { result ≡ pair_fault tokens.now }
{
    if reads_pair(tokens) {
        pair_left(tokens)
    } else {
        None
    }
}
