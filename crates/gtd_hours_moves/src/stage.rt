//! How far a rule of opening hours has come.

ghost use Rattle.std.specs.Prelude.{◌≡◌};
ghost use Rattle.gtd_hours_moves.specs.Grammar.{goes_on, order, precedes};
ghost use Rattle.gtd_hours_moves.specs.declared.stage.Stage.TheVariants as stage;

use gtd_hours_tokens::TokenKind;

/// The part of a rule that was read last.
#[derive(Clone, Copy)]
pub enum Stage {
    /// Nothing yet.
    Front,
    /// A list of years.
    Years,
    /// A list of months and dates.
    MonthDays,
    /// A list of weeks.
    Weeks,
    /// The colon before weekdays and times.
    Colon,
    /// A list of weekdays.
    Weekdays,
    /// A list of times.
    Times,
    /// `24/7`
    Always,
    /// `open`, `on`, `closed` or `off`
    Modifier,
}

impl Stage {
    // Parts of a rule come in this order.
    fn order(self) -> u8
        ensures { result ≡ order self }
    {
        match self {
            Stage::Front => 0,
            Stage::Years => 1,
            Stage::MonthDays => 2,
            Stage::Weeks => 3,
            Stage::Colon => 4,
            Stage::Weekdays => 5,
            Stage::Times => 6,
            Stage::Always => 6,
            Stage::Modifier => 7,
        }
    }

    /// Whether the other part can come behind this one.
    pub fn precedes(self, other: Stage) -> bool
        ensures { result ≡ precedes self other }
    {
        self.order() < other.order()
    }

    /// Whether a list goes on with this token behind a comma.
    pub fn goes_on(self, next: TokenKind) -> bool
        ensures { result ≡ goes_on self next }
    {
        match self {
            Stage::Years => is_year(next),
            Stage::MonthDays => is_month_or_year(next),
            Stage::Weeks => matches!(next, TokenKind::Number { .. }),
            Stage::Weekdays => matches!(next, TokenKind::Weekday(_)),
            Stage::Times => matches!(next, TokenKind::Time { .. }),
            _ => false,
        }
    }
}

fn is_year(next: TokenKind) -> bool
    ensures { result ≡ goes_on stage.Years next }
{
    match next {
        TokenKind::Number { digits, .. } => digits == 4,
        _ => false,
    }
}

fn is_month_or_year(next: TokenKind) -> bool
    ensures { result ≡ goes_on stage.MonthDays next }
{
    match next {
        TokenKind::Month(_) => true,
        TokenKind::Number { digits, .. } => digits == 4,
        _ => false,
    }
}
