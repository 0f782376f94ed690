//! What the pieces of a line say.

ghost use Rattle.std.specs.Prelude.{◌≡◌};
ghost use Rattle.gtd_phrases.specs.Pieces.{counted_figures, figures_of};

use gtd_languages::{Counted, Fixed, Role, Unit};

/// A language that has a table of words.
#[derive(Clone, Copy)]
pub enum Language {
    /// English.
    English,
    /// German.
    German,
    /// French.
    French,
}

/// What one piece of a line says.
#[derive(Clone, Copy)]
pub enum Phrase {
    /// A day of a month: whether the line is on it or from it, and the month. Its number is the day.
    DateOf(bool, u8),
    /// A day of each month.
    DateOfEach(bool),
    /// A weekday's place from the beginning of the month.
    PlaceOf(Role, u8, u8),
    /// A weekday's place back from the end of the month.
    BackOf(Role, u8, u8),
    /// Weekdays, as bits.
    DaysOf(Role, u8),
    /// The Monday of a week.
    MondayOf(bool),
    /// The beginning of a month.
    BeginningOf(u8),
    /// A month, after a day that is not of the month.
    OfMonth(u8),
    /// Words alone.
    Said(Fixed),
    /// Words with a number.
    Numbered(Counted),
    /// The first number of a duration.
    Lasting(Unit),
    /// Each other number of a duration.
    Also(Unit),
    /// A time that is an end, up to its hour, and whether a duration comes before it.
    UntilHour(bool),
    /// A weekday that is an end, or the day of one.
    UntilWeekday(bool, u8),
    /// A month and its day that are an end, or the day of one.
    UntilDate(bool, u8),
    /// The end of February as an end.
    UntilFebruary(bool),
}

/// How a number is written.
#[derive(Clone, Copy)]
pub enum Figures {
    /// There is none.
    Nothing,
    /// In as many digits as it has.
    Plain,
    /// In two digits.
    Two,
    /// In four digits.
    Four,
}

/// A piece of a line: a phrase, and its number, or 0.
#[derive(Clone, Copy)]
pub struct Piece {
    /// What it says.
    pub phrase: Phrase,
    /// Its number.
    pub number: u32,
}

fn counted_figures(counted: Counted) -> Figures
    ensures { result ≡ counted_figures counted }
{
    match counted {
        Counted::InWeek => Figures::Plain,
        Counted::YearAlone => Figures::Four,
        Counted::OfYear => Figures::Four,
        Counted::FromHour => Figures::Two,
        Counted::FromMinute => Figures::Plain,
        Counted::FromMinuteAnd => Figures::Plain,
        Counted::SecondOfEveryHour => Figures::Plain,
        Counted::FromSecond => Figures::Plain,
        Counted::FromSecondOf => Figures::Plain,
        Counted::OfHour => Figures::Plain,
        Counted::AtMinute => Figures::Two,
        Counted::AtSecond => Figures::Two,
        Counted::EndHour => Figures::Two,
        Counted::EndMinute => Figures::Two,
        Counted::EndSecond => Figures::Two,
        Counted::DaysLater => Figures::Plain,
    }
}

/// How the number of a phrase is written.
#[tactic(auto, unfolding(crate::specs::Pieces::figures_of))]
pub(crate) fn figures_of(phrase: Phrase) -> Figures
    ensures { result ≡ figures_of phrase }
{
    match phrase {
        Phrase::DateOf(_, _) => Figures::Plain,
        Phrase::DateOfEach(_) => Figures::Plain,
        Phrase::PlaceOf(_, _, _) => Figures::Nothing,
        Phrase::BackOf(_, _, _) => Figures::Nothing,
        Phrase::DaysOf(_, _) => Figures::Nothing,
        Phrase::MondayOf(_) => Figures::Nothing,
        Phrase::BeginningOf(_) => Figures::Nothing,
        Phrase::OfMonth(_) => Figures::Nothing,
        Phrase::Said(_) => Figures::Nothing,
        Phrase::Numbered(counted) => counted_figures(counted),
        Phrase::Lasting(_) => Figures::Plain,
        Phrase::Also(_) => Figures::Plain,
        Phrase::UntilHour(_) => Figures::Two,
        Phrase::UntilWeekday(_, _) => Figures::Nothing,
        Phrase::UntilDate(_, _) => Figures::Plain,
        Phrase::UntilFebruary(_) => Figures::Nothing,
    }
}
