//! The words of English.

ghost use Rattle.std.specs.Prelude.{◌≡◌};
ghost use Rattle.gtd_languages.specs.English.{english_weekday, english_month, english_of_month, english_beginning};
ghost use Rattle.gtd_languages.specs.English.{english_day, english_list_lead, english_run_lead, english_list_last};
ghost use Rattle.gtd_languages.specs.English.{english_run_to, english_list_end, english_place_lead, english_place_end};
ghost use Rattle.gtd_languages.specs.English.{english_back_lead, english_back_end, english_date_lead, english_each_lead};
ghost use Rattle.gtd_languages.specs.English.{english_monday, english_ordinal, english_date_ending, english_fixed};
ghost use Rattle.gtd_languages.specs.English.{english_lead, english_end, english_word, english_unit};
ghost use Rattle.gtd_languages.specs.declared.word.Role.TheVariants.{On, From, If};

use crate::shared::{by_role, one_or, time_end, time_lead};
use crate::word::{Counted, Fixed, Form, Role, Unit, Word};

/// The name of a weekday.
#[tactic(auto, unfolding(crate::specs::English::english_weekday))]
pub fn weekday(n: u8) -> &'static str
    ensures { result.now ≡ english_weekday n }
{
    match n {
        1 => "Sunday",
        2 => "Monday",
        3 => "Tuesday",
        4 => "Wednesday",
        5 => "Thursday",
        6 => "Friday",
        _ => "Saturday",
    }
}

/// The name of a month.
#[tactic(auto, unfolding(crate::specs::English::english_month))]
pub fn month(n: u8) -> &'static str
    ensures { result.now ≡ english_month n }
{
    match n {
        1 => "January",
        2 => "February",
        3 => "March",
        4 => "April",
        5 => "May",
        6 => "June",
        7 => "July",
        8 => "August",
        9 => "September",
        10 => "October",
        11 => "November",
        _ => "December",
    }
}

/// A month, after a day that is not of the month.
#[tactic(auto, unfolding(crate::specs::English::english_of_month))]
pub fn of_month(n: u8) -> &'static str
    ensures { result.now ≡ english_of_month n }
{
    match n {
        1 => "of January ",
        2 => "of February ",
        3 => "of March ",
        4 => "of April ",
        5 => "of May ",
        6 => "of June ",
        7 => "of July ",
        8 => "of August ",
        9 => "of September ",
        10 => "of October ",
        11 => "of November ",
        _ => "of December ",
    }
}

/// The beginning of a month.
#[tactic(auto, unfolding(crate::specs::English::english_beginning))]
pub fn beginning(n: u8) -> &'static str
    ensures { result.now ≡ english_beginning n }
{
    match n {
        1 => "from the beginning of January ",
        2 => "from the beginning of February ",
        3 => "from the beginning of March ",
        4 => "from the beginning of April ",
        5 => "from the beginning of May ",
        6 => "from the beginning of June ",
        7 => "from the beginning of July ",
        8 => "from the beginning of August ",
        9 => "from the beginning of September ",
        10 => "from the beginning of October ",
        11 => "from the beginning of November ",
        _ => "from the beginning of December ",
    }
}

/// The name of a weekday in a list.
#[tactic(auto, unfolding(crate::specs::English::english_day))]
pub fn day(role: Role, n: u8) -> &'static str
    ensures { result.now ≡ english_day role n }
{
    by_role(role, weekday(n), weekday(n), weekday(n))
}

/// What comes before a list of weekdays.
#[tactic(auto, unfolding(crate::specs::English::english_list_lead))]
pub fn list_lead(role: Role) -> &'static str
    ensures { result.now ≡ english_list_lead role }
{
    by_role(role, "every ", "from every ", "if it falls on ")
}

/// What comes before neighbouring weekdays.
#[tactic(auto, unfolding(crate::specs::English::english_run_lead))]
pub fn run_lead(role: Role) -> &'static str
    ensures { result.now ≡ english_run_lead role }
{
    by_role(role, "every ", "from every ", "if it falls on ")
}

/// What comes before the last weekday of a list.
#[tactic(auto, unfolding(crate::specs::English::english_list_last))]
pub fn list_last(role: Role) -> &'static str
    ensures { result.now ≡ english_list_last role }
{
    by_role(role, " and ", " and ", " or ")
}

/// What comes before the last of neighbouring weekdays.
#[tactic(auto, unfolding(crate::specs::English::english_run_to))]
pub fn run_to(role: Role) -> &'static str
    ensures { result.now ≡ english_run_to role }
{
    by_role(role, " to ", " to ", " to ")
}

/// What comes after weekdays.
#[tactic(auto, unfolding(crate::specs::English::english_list_end))]
pub fn list_end(role: Role) -> &'static str
    ensures { result.now ≡ english_list_end role }
{
    by_role(role, " ", " ", " ")
}

#[tactic(auto, unfolding(crate::specs::English::english_place_lead))]
fn place_lead_on(n: u8) -> &'static str
    ensures { result.now ≡ english_place_lead On n }
{
    match n {
        1 => "on the first ",
        2 => "on the second ",
        3 => "on the third ",
        4 => "on the fourth ",
        _ => "on the fifth ",
    }
}

#[tactic(auto, unfolding(crate::specs::English::english_place_lead))]
fn place_lead_from(n: u8) -> &'static str
    ensures { result.now ≡ english_place_lead From n }
{
    match n {
        1 => "from the first ",
        2 => "from the second ",
        3 => "from the third ",
        4 => "from the fourth ",
        _ => "from the fifth ",
    }
}

#[tactic(auto, unfolding(crate::specs::English::english_place_lead))]
fn place_lead_if(n: u8) -> &'static str
    ensures { result.now ≡ english_place_lead If n }
{
    match n {
        1 => "if it is the first ",
        2 => "if it is the second ",
        3 => "if it is the third ",
        4 => "if it is the fourth ",
        _ => "if it is the fifth ",
    }
}

/// A place of a weekday from the beginning of the month.
#[tactic(auto, unfolding(crate::specs::English::english_place_lead))]
pub fn place_lead(role: Role, n: u8) -> &'static str
    ensures { result.now ≡ english_place_lead role n }
{
    by_role(role, place_lead_on(n), place_lead_from(n), place_lead_if(n))
}

/// What comes after that weekday.
#[tactic(auto, unfolding(crate::specs::English::english_place_end))]
pub fn place_end(role: Role) -> &'static str
    ensures { result.now ≡ english_place_end role }
{
    by_role(role, " ", " ", " of the month ")
}

/// A place of a weekday from the end of the month.
#[tactic(auto, unfolding(crate::specs::English::english_back_lead))]
pub fn back_lead(role: Role, n: u8) -> &'static str
    ensures { result.now ≡ english_back_lead role n }
{
    by_role(
        role,
        "on the last ",
        "from the last ",
        "if it is also the last ",
    )
}

#[tactic(auto, unfolding(crate::specs::English::english_back_end))]
fn back_end_on(n: u8) -> &'static str
    ensures { result.now ≡ english_back_end On n }
{
    match n {
        1 => " ",
        2 => " but one ",
        3 => " but two ",
        4 => " but three ",
        _ => " but four ",
    }
}

#[tactic(auto, unfolding(crate::specs::English::english_back_end))]
fn back_end_if(n: u8) -> &'static str
    ensures { result.now ≡ english_back_end If n }
{
    match n {
        1 => " of the month ",
        2 => " but one of the month ",
        3 => " but two of the month ",
        4 => " but three of the month ",
        _ => " but four of the month ",
    }
}

/// What comes after that weekday.
#[tactic(auto, unfolding(crate::specs::English::english_back_end))]
pub fn back_end(role: Role, n: u8) -> &'static str
    ensures { result.now ≡ english_back_end role n }
{
    by_role(role, back_end_on(n), back_end_on(n), back_end_if(n))
}

/// What comes before a day of a month.
#[tactic(auto, unfolding(crate::specs::English::english_date_lead))]
pub fn date_lead(named: bool) -> &'static str
    ensures { result.now ≡ english_date_lead named }
{
    match named {
        true => "on ",
        false => "from ",
    }
}

/// What comes before a day of each month.
#[tactic(auto, unfolding(crate::specs::English::english_each_lead))]
pub fn each_lead(named: bool) -> &'static str
    ensures { result.now ≡ english_each_lead named }
{
    match named {
        true => "on the ",
        false => "from the ",
    }
}

/// The Monday of a week.
#[tactic(auto, unfolding(crate::specs::English::english_monday))]
pub fn monday(named: bool) -> &'static str
    ensures { result.now ≡ english_monday named }
{
    match named {
        true => "on the Monday ",
        false => "from the Monday ",
    }
}

/// What makes the number of a day of each month an ordinal number.
#[tactic(auto, unfolding(crate::specs::English::english_ordinal))]
pub fn ordinal(form: Form) -> &'static str
    ensures { result.now ≡ english_ordinal form }
{
    match form {
        Form::Zero => "th",
        Form::One => "st",
        Form::EndsInOne => "st",
        Form::EndsInTwo => "nd",
        Form::EndsInThree => "rd",
        Form::Other => "th",
    }
}

/// The same for a day of a month.
#[tactic(auto, unfolding(crate::specs::English::english_date_ending))]
pub fn date_ending(form: Form) -> &'static str
    ensures { result.now ≡ english_date_ending form }
{
    ""
}

/// Words without a number or a name.
#[tactic(auto, unfolding(crate::specs::English::english_fixed))]
pub fn fixed(fixed: Fixed) -> &'static str
    ensures { result.now ≡ english_fixed fixed }
{
    match fixed {
        Fixed::EachDay => "each day ",
        Fixed::FromBeginning => "from the beginning ",
        Fixed::OfEachMonth => "of every month ",
        Fixed::EveryYear => "every year ",
        Fixed::WholeMinute => " ",
        Fixed::Sharp => " sharp ",
        Fixed::AllDay => "all day",
        Fixed::NextDay => " the next day",
        Fixed::Included => " (included)",
    }
}

/// What comes before a number.
#[tactic(auto, unfolding(crate::specs::English::english_lead))]
pub fn lead(counted: Counted) -> &'static str
    ensures { result.now ≡ english_lead counted }
{
    match counted {
        Counted::InWeek => "in week ",
        Counted::YearAlone => "",
        Counted::OfYear => "of the year ",
        Counted::FromHour => "from ",
        Counted::FromMinute => "from minute ",
        Counted::FromMinuteAnd => "from minute ",
        Counted::SecondOfEveryHour => "",
        Counted::FromSecond => "from second ",
        Counted::FromSecondOf => "from second ",
        Counted::DaysLater => ", ",
        _ => time_lead(counted),
    }
}

/// What comes after a number.
#[tactic(auto, unfolding(crate::specs::English::english_end))]
pub fn end(counted: Counted) -> &'static str
    ensures { result.now ≡ english_end counted }
{
    match counted {
        Counted::InWeek => " ",
        Counted::YearAlone => " ",
        Counted::OfYear => " ",
        Counted::FromMinute => " of every hour ",
        Counted::FromMinuteAnd => " and second ",
        Counted::SecondOfEveryHour => " of every hour ",
        Counted::FromSecond => " of every minute of every hour ",
        Counted::FromSecondOf => " of every minute of hour ",
        Counted::DaysLater => " days later",
        _ => time_end(counted),
    }
}

/// Other words.
#[tactic(auto, unfolding(crate::specs::English::english_word))]
pub fn word(word: Word) -> &'static str
    ensures { result.now ≡ english_word word }
{
    match word {
        Word::OfEach => " of every month ",
        Word::For => "for ",
        Word::And => " and ",
        Word::Comma => ", ",
        Word::UntilTime => "until ",
        Word::UntilDay => "until ",
        Word::UntilThe => "until ",
        Word::UntilTheEnd => "until the end of February",
        Word::Or => "or:",
        Word::OnlyIn => "and all this only in:",
        Word::ExceptIn => "and all this except in:",
    }
}

/// A unit of time after a number.
#[tactic(auto, unfolding(crate::specs::English::english_unit))]
pub fn unit(unit: Unit, form: Form) -> &'static str
    ensures { result.now ≡ english_unit unit form }
{
    match unit {
        Unit::Years => one_or(form, "year", "years"),
        Unit::Months => one_or(form, "month", "months"),
        Unit::Weeks => one_or(form, "week", "weeks"),
        Unit::Days => one_or(form, "day", "days"),
        Unit::Hours => one_or(form, "hour", "hours"),
        Unit::Minutes => one_or(form, "minute", "minutes"),
        Unit::Seconds => one_or(form, "second", "seconds"),
    }
}
