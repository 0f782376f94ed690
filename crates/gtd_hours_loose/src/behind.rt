//! What stands behind the tokens that have been read, and what becomes of the next one there.

ghost use Rattle.std.specs.Prelude.{◌≡◌};
ghost use Rattle.gtd_hours_loose.specs.Behind.{after, after_kept, all_commas, all_semicolons, begins_hours};
ghost use Rattle.gtd_hours_loose.specs.Behind.{begins_moment, behind_close, behind_dash, behind_kind, behind_open, behind_time};
ghost use Rattle.gtd_hours_loose.specs.Behind.{behind_unread, comma_fate, drop_if, fate_of, hours_follow};
ghost use Rattle.gtd_hours_loose.specs.Behind.{is_clock_here, is_comma, is_days, is_pair_dash, is_range, is_semicolon};
ghost use Rattle.gtd_hours_loose.specs.Behind.{kind_here, may_end, semicolon_fate};

use crate::pairs::{begins_read, clock_of, is_clock_number, names_days};
use gtd_hours_loose_tokens::{LooseKind, LooseToken};

/// What stands behind the tokens that have been read.
#[derive(Clone, Copy)]
pub enum Behind {
    /// Nothing has been read.
    Front,
    /// A weekday, a holiday, or the bracket behind places of a weekday.
    Days,
    /// A moment: a time, or an event of the sun, in a parenthesis or not.
    Time,
    /// A moment and a dash.
    TimeDash,
    /// The parenthesis of a moment, which is not closed yet.
    Inside,
    /// The same behind a moment and a dash.
    EndInside,
    /// The first of two numbers that are times.
    PairTime,
    /// That number and a dash.
    PairDash,
    /// Two moments with a dash between.
    Range,
    /// A comma.
    Comma,
    /// A semicolon.
    Semicolon,
    /// Something else.
    Other,
}

/// What becomes of a token.
#[derive(Clone, Copy)]
pub enum Fate {
    /// It is there in the strict form.
    Kept,
    /// It is left out.
    Dropped,
    /// A comma is put before it.
    Joined,
}

fn is_days(behind: Behind) -> bool
    ensures { result ≡ is_days behind }
{
    match behind {
        Behind::Days => true,
        _ => false,
    }
}

fn is_pair_dash(behind: Behind) -> bool
    ensures { result ≡ is_pair_dash behind }
{
    match behind {
        Behind::PairDash => true,
        _ => false,
    }
}

fn is_range(behind: Behind) -> bool
    ensures { result ≡ is_range behind }
{
    match behind {
        Behind::Range => true,
        _ => false,
    }
}

fn may_end(behind: Behind) -> bool
    ensures { result ≡ may_end behind }
{
    match behind {
        Behind::Front => false,
        Behind::Comma => false,
        Behind::Semicolon => false,
        _ => true,
    }
}

// Whether a number that is read as a time stands here.
fn is_clock_here(behind: Behind, tokens: &[LooseToken]) -> bool
    ensures { result ≡ is_clock_here behind tokens.now }
{
    is_pair_dash(behind) || begins_read(is_days(behind), tokens)
}

/// What a token stands for, where these tokens begin with it.
pub fn kind_here(behind: Behind, kind: LooseKind, tokens: &[LooseToken]) -> LooseKind
    ensures { result ≡ kind_here behind kind tokens.now }
{
    if is_clock_here(behind, tokens) && is_clock_number(kind) {
        clock_of(kind)
    } else {
        kind
    }
}

fn is_comma(kind: LooseKind) -> bool
    ensures { result ≡ is_comma kind }
{
    match kind {
        LooseKind::Comma => true,
        _ => false,
    }
}

fn is_semicolon(kind: LooseKind) -> bool
    ensures { result ≡ is_semicolon kind }
{
    match kind {
        LooseKind::Semicolon => true,
        _ => false,
    }
}

fn all_commas(tokens: &[LooseToken]) -> bool
    ensures { result ≡ all_commas tokens.now }
{
    let mut rest = tokens;
    while let Some((token, later)) = rest.split_first() {
        if !is_comma(token.kind) {
            return false;
        }
        rest = later;
    }
    true
}

fn all_semicolons(tokens: &[LooseToken]) -> bool
    ensures { result ≡ all_semicolons tokens.now }
{
    let mut rest = tokens;
    while let Some((token, later)) = rest.split_first() {
        if !is_semicolon(token.kind) {
            return false;
        }
        rest = later;
    }
    true
}

// The first token of a moment: a time, an event of the sun, or the parenthesis around one.
fn begins_moment(kind: LooseKind) -> bool
    ensures { result ≡ begins_moment kind }
{
    match kind {
        LooseKind::Time { .. } => true,
        LooseKind::Event => true,
        LooseKind::OpenParenthesis => true,
        _ => false,
    }
}

// The first token of a moment, a modifier or a comment.
fn begins_hours(kind: LooseKind) -> bool
    ensures { result ≡ begins_hours kind }
{
    match kind {
        LooseKind::Open => true,
        LooseKind::Closed => true,
        LooseKind::Comment => true,
        LooseKind::Quoted => true,
        _ => begins_moment(kind),
    }
}

fn hours_follow(tokens: &[LooseToken]) -> bool
    ensures { result ≡ hours_follow tokens.now }
{
    match tokens.first() {
        None => false,
        Some(token) => begins_hours(token.kind) || begins_read(false, tokens),
    }
}

fn drop_if(left_out: bool) -> Fate
    ensures { result ≡ drop_if left_out }
{
    if left_out { Fate::Dropped } else { Fate::Kept }
}

fn comma_fate(behind: Behind, later: &[LooseToken]) -> Fate
    ensures { result ≡ comma_fate behind later.now }
{
    match behind {
        Behind::Comma => Fate::Dropped,
        _ => drop_if(may_end(behind) && all_commas(later)),
    }
}

fn semicolon_fate(behind: Behind, later: &[LooseToken]) -> Fate
    ensures { result ≡ semicolon_fate behind later.now }
{
    match behind {
        Behind::Semicolon => Fate::Dropped,
        _ => drop_if(may_end(behind) && all_semicolons(later)),
    }
}

/// What becomes of a token that stands for this, where these come behind it.
pub fn fate_of(behind: Behind, kind: LooseKind, later: &[LooseToken]) -> Fate
    ensures { result ≡ fate_of behind kind later.now }
{
    match kind {
        LooseKind::Comma => comma_fate(behind, later),
        LooseKind::Semicolon => semicolon_fate(behind, later),
        LooseKind::Colon => drop_if(is_days(behind) && hours_follow(later)),
        _ => {
            if is_range(behind) && begins_moment(kind) {
                Fate::Joined
            } else {
                Fate::Kept
            }
        }
    }
}

fn behind_time(behind: Behind) -> Behind
    ensures { result ≡ behind_time behind }
{
    match behind {
        Behind::PairDash => Behind::Range,
        Behind::TimeDash => Behind::Range,
        Behind::Inside => Behind::Inside,
        Behind::EndInside => Behind::EndInside,
        _ => Behind::Time,
    }
}

fn behind_dash(behind: Behind) -> Behind
    ensures { result ≡ behind_dash behind }
{
    match behind {
        Behind::Time => Behind::TimeDash,
        Behind::PairTime => Behind::PairDash,
        Behind::Inside => Behind::Inside,
        Behind::EndInside => Behind::EndInside,
        _ => Behind::Other,
    }
}

// Behind the sign of what is added to an event, or another word or sign.
fn behind_unread(behind: Behind) -> Behind
    ensures { result ≡ behind_unread behind }
{
    match behind {
        Behind::Inside => Behind::Inside,
        Behind::EndInside => Behind::EndInside,
        _ => Behind::Other,
    }
}

fn behind_open(behind: Behind) -> Behind
    ensures { result ≡ behind_open behind }
{
    match behind {
        Behind::TimeDash => Behind::EndInside,
        _ => Behind::Inside,
    }
}

fn behind_close(behind: Behind) -> Behind
    ensures { result ≡ behind_close behind }
{
    match behind {
        Behind::Inside => Behind::Time,
        Behind::EndInside => Behind::Range,
        _ => Behind::Other,
    }
}

fn behind_kind(behind: Behind, kind: LooseKind) -> Behind
    ensures { result ≡ behind_kind behind kind }
{
    match kind {
        LooseKind::Time { .. } => behind_time(behind),
        LooseKind::Event => behind_time(behind),
        LooseKind::Dash => behind_dash(behind),
        LooseKind::Unread => behind_unread(behind),
        LooseKind::OpenParenthesis => behind_open(behind),
        LooseKind::CloseParenthesis => behind_close(behind),
        LooseKind::Comma => Behind::Comma,
        LooseKind::Semicolon => Behind::Semicolon,
        _ => {
            if names_days(kind) {
                Behind::Days
            } else {
                Behind::Other
            }
        }
    }
}

fn after_kept(behind: Behind, kind: LooseKind, tokens: &[LooseToken]) -> Behind
    ensures { result ≡ after_kept behind kind tokens.now }
{
    if !is_pair_dash(behind) && begins_read(is_days(behind), tokens) {
        Behind::PairTime
    } else {
        behind_kind(behind, kind_here(behind, kind, tokens))
    }
}

/// What stands behind a token that has this fate, where these tokens begin with it.
pub fn after(fate: Fate, behind: Behind, kind: LooseKind, tokens: &[LooseToken]) -> Behind
    ensures { result ≡ after fate behind kind tokens.now }
{
    match fate {
        Fate::Dropped => behind,
        _ => after_kept(behind, kind, tokens),
    }
}
