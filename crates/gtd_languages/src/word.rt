//! What the words of a table stand for.

ghost use Rattle.std.specs.Prelude.{◌≡◌};
ghost use Rattle.gtd_languages.specs.Forms.{form_of};

/// What a day is named for.
#[derive(Clone, Copy)]
pub enum Role {
    /// The stretch begins on it, at a time or with the day.
    On,
    /// The stretch begins with it, and goes on.
    From,
    /// The stretch begins only if it is such a day.
    If,
}

/// A unit of time.
#[derive(Clone, Copy)]
pub enum Unit {
    /// Years.
    Years,
    /// Months.
    Months,
    /// Weeks.
    Weeks,
    /// Days.
    Days,
    /// Hours.
    Hours,
    /// Minutes.
    Minutes,
    /// Seconds.
    Seconds,
}

/// A number, as far as words after it differ.
#[derive(Clone, Copy)]
pub enum Form {
    /// 0.
    Zero,
    /// 1.
    One,
    /// 21, 31, 41, ..
    EndsInOne,
    /// 2, 22, 32, ..
    EndsInTwo,
    /// 3, 23, 33, ..
    EndsInThree,
    /// All others.
    Other,
}

/// Phrases without a number or a name.
#[derive(Clone, Copy)]
pub enum Fixed {
    /// `each day `
    EachDay,
    /// `from the beginning `
    FromBeginning,
    /// `of every month `
    OfEachMonth,
    /// `every year `
    EveryYear,
    /// What closes a time of hours and minutes.
    WholeMinute,
    /// The same, where a minute 0 is given.
    Sharp,
    /// `all day`
    AllDay,
    /// ` the next day`
    NextDay,
    /// ` (included)`
    Included,
}

/// Phrases with a number.
#[derive(Clone, Copy)]
pub enum Counted {
    /// `in week 7 `
    InWeek,
    /// `2024 `
    YearAlone,
    /// `of the year 2024 `
    OfYear,
    /// `from 10:`
    FromHour,
    /// `from minute 30 of every hour `
    FromMinute,
    /// `from minute 30 and second `
    FromMinuteAnd,
    /// `15 of every hour `
    SecondOfEveryHour,
    /// `from second 5 of every minute of every hour `
    FromSecond,
    /// `from second 5 of every minute of hour `
    FromSecondOf,
    /// `10 `
    OfHour,
    /// `30`, after an hour
    AtMinute,
    /// `:15 `, after an hour and a minute
    AtSecond,
    /// ` 06:`, after a weekday or a date
    EndHour,
    /// `00`, after the hour of an end
    EndMinute,
    /// `:15`, after the hour and the minute of an end
    EndSecond,
    /// `, 2 days later`
    DaysLater,
}

/// Words that stand in other phrases, or at the beginning of a line.
#[derive(Clone, Copy)]
pub enum Word {
    /// After a day of each month: `of every month`.
    OfEach,
    /// Before a duration.
    For,
    /// Between the numbers of a duration.
    And,
    /// Between a duration and its end.
    Comma,
    /// Before a time that is an end.
    UntilTime,
    /// Before a weekday that is an end.
    UntilDay,
    /// Before a date that is an end.
    UntilThe,
    /// The end of February as an end.
    UntilTheEnd,
    /// Where the seconds of what follows are added.
    Or,
    /// Where the seconds of what follows alone are kept.
    OnlyIn,
    /// Where the seconds of what follows are taken away.
    ExceptIn,
}

/// What a number is, as far as words after it differ.
#[tactic(auto, unfolding(crate::specs::Forms::form_of))]
pub fn form_of(n: u32) -> Form
    ensures { result ≡ form_of n }
{
    if n == 0 {
        return Form::Zero;
    }
    if n == 1 {
        return Form::One;
    }
    if n / 10 == 1 {
        return Form::Other;
    }
    match n % 10 {
        1 => Form::EndsInOne,
        2 => Form::EndsInTwo,
        3 => Form::EndsInThree,
        _ => Form::Other,
    }
}
