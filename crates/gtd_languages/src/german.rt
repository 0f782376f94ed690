//! The words of German.

ghost use Rattle.std.specs.Prelude.{◌≡◌};
ghost use Rattle.gtd_languages.specs.German.{german_weekday, german_month, german_of_month, german_beginning, german_day};
ghost use Rattle.gtd_languages.specs.German.{german_list_lead, german_run_lead, german_list_last, german_run_to};
ghost use Rattle.gtd_languages.specs.German.{german_list_end, german_place_lead, german_place_end, german_back_lead};
ghost use Rattle.gtd_languages.specs.German.{german_back_end, german_date_lead, german_each_lead, german_monday};
ghost use Rattle.gtd_languages.specs.German.{german_ordinal, german_date_ending, german_fixed, german_lead, german_end};
ghost use Rattle.gtd_languages.specs.German.{german_word, german_unit};
ghost use Rattle.gtd_languages.specs.declared.word.Role.TheVariants.{On, From, If};

use crate::shared::{by_role, one_or, time_end, time_lead};
use crate::word::{Counted, Fixed, Form, Role, Unit, Word};

/// The name of a weekday.
#[tactic(auto, unfolding(crate::specs::German::german_weekday))]
pub fn weekday(n: u8) -> &'static str
    ensures { result.now ≡ german_weekday n }
{
    match n {
        1 => "Sonntag",
        2 => "Montag",
        3 => "Dienstag",
        4 => "Mittwoch",
        5 => "Donnerstag",
        6 => "Freitag",
        _ => "Samstag",
    }
}

/// The name of a month.
#[tactic(auto, unfolding(crate::specs::German::german_month))]
pub fn month(n: u8) -> &'static str
    ensures { result.now ≡ german_month n }
{
    match n {
        1 => "Januar",
        2 => "Februar",
        3 => "März",
        4 => "April",
        5 => "Mai",
        6 => "Juni",
        7 => "Juli",
        8 => "August",
        9 => "September",
        10 => "Oktober",
        11 => "November",
        _ => "Dezember",
    }
}

/// A month, after a day that is not of the month.
#[tactic(auto, unfolding(crate::specs::German::german_of_month))]
pub fn of_month(n: u8) -> &'static str
    ensures { result.now ≡ german_of_month n }
{
    match n {
        1 => "im Januar ",
        2 => "im Februar ",
        3 => "im März ",
        4 => "im April ",
        5 => "im Mai ",
        6 => "im Juni ",
        7 => "im Juli ",
        8 => "im August ",
        9 => "im September ",
        10 => "im Oktober ",
        11 => "im November ",
        _ => "im Dezember ",
    }
}

/// The beginning of a month.
#[tactic(auto, unfolding(crate::specs::German::german_beginning))]
pub fn beginning(n: u8) -> &'static str
    ensures { result.now ≡ german_beginning n }
{
    match n {
        1 => "von Anfang Januar ",
        2 => "von Anfang Februar ",
        3 => "von Anfang März ",
        4 => "von Anfang April ",
        5 => "von Anfang Mai ",
        6 => "von Anfang Juni ",
        7 => "von Anfang Juli ",
        8 => "von Anfang August ",
        9 => "von Anfang September ",
        10 => "von Anfang Oktober ",
        11 => "von Anfang November ",
        _ => "von Anfang Dezember ",
    }
}

#[tactic(auto, unfolding(crate::specs::German::german_day))]
fn day_on(n: u8) -> &'static str
    ensures { result.now ≡ german_day On n }
{
    match n {
        1 => "sonntags",
        2 => "montags",
        3 => "dienstags",
        4 => "mittwochs",
        5 => "donnerstags",
        6 => "freitags",
        _ => "samstags",
    }
}

/// The name of a weekday in a list.
#[tactic(auto, unfolding(crate::specs::German::german_day))]
pub fn day(role: Role, n: u8) -> &'static str
    ensures { result.now ≡ german_day role n }
{
    by_role(role, day_on(n), weekday(n), weekday(n))
}

/// What comes before a list of weekdays.
#[tactic(auto, unfolding(crate::specs::German::german_list_lead))]
pub fn list_lead(role: Role) -> &'static str
    ensures { result.now ≡ german_list_lead role }
{
    by_role(role, "", "von jedem ", "(wenn er auf ")
}

/// What comes before neighbouring weekdays.
#[tactic(auto, unfolding(crate::specs::German::german_run_lead))]
pub fn run_lead(role: Role) -> &'static str
    ensures { result.now ≡ german_run_lead role }
{
    by_role(role, "", "von jedem Tag von ", "(wenn er auf ")
}

/// What comes before the last weekday of a list.
#[tactic(auto, unfolding(crate::specs::German::german_list_last))]
pub fn list_last(role: Role) -> &'static str
    ensures { result.now ≡ german_list_last role }
{
    by_role(role, " und ", " und ", " oder ")
}

/// What comes before the last of neighbouring weekdays.
#[tactic(auto, unfolding(crate::specs::German::german_run_to))]
pub fn run_to(role: Role) -> &'static str
    ensures { result.now ≡ german_run_to role }
{
    by_role(role, " bis ", " bis ", " bis ")
}

/// What comes after weekdays.
#[tactic(auto, unfolding(crate::specs::German::german_list_end))]
pub fn list_end(role: Role) -> &'static str
    ensures { result.now ≡ german_list_end role }
{
    by_role(role, " ", " ", " fällt) ")
}

#[tactic(auto, unfolding(crate::specs::German::german_place_lead))]
fn place_lead_on(n: u8) -> &'static str
    ensures { result.now ≡ german_place_lead On n }
{
    match n {
        1 => "am ersten ",
        2 => "am zweiten ",
        3 => "am dritten ",
        4 => "am vierten ",
        _ => "am fünften ",
    }
}

#[tactic(auto, unfolding(crate::specs::German::german_place_lead))]
fn place_lead_from(n: u8) -> &'static str
    ensures { result.now ≡ german_place_lead From n }
{
    match n {
        1 => "vom ersten ",
        2 => "vom zweiten ",
        3 => "vom dritten ",
        4 => "vom vierten ",
        _ => "vom fünften ",
    }
}

#[tactic(auto, unfolding(crate::specs::German::german_place_lead))]
fn place_lead_if(n: u8) -> &'static str
    ensures { result.now ≡ german_place_lead If n }
{
    match n {
        1 => "(wenn es der erste ",
        2 => "(wenn es der zweite ",
        3 => "(wenn es der dritte ",
        4 => "(wenn es der vierte ",
        _ => "(wenn es der fünfte ",
    }
}

/// A place of a weekday from the beginning of the month.
#[tactic(auto, unfolding(crate::specs::German::german_place_lead))]
pub fn place_lead(role: Role, n: u8) -> &'static str
    ensures { result.now ≡ german_place_lead role n }
{
    by_role(role, place_lead_on(n), place_lead_from(n), place_lead_if(n))
}

/// What comes after that weekday.
#[tactic(auto, unfolding(crate::specs::German::german_place_end))]
pub fn place_end(role: Role) -> &'static str
    ensures { result.now ≡ german_place_end role }
{
    by_role(role, " ", " ", " im Monat ist) ")
}

#[tactic(auto, unfolding(crate::specs::German::german_back_lead))]
fn back_lead_on(n: u8) -> &'static str
    ensures { result.now ≡ german_back_lead On n }
{
    match n {
        1 => "am letzten ",
        2 => "am vorletzten ",
        3 => "am drittletzten ",
        4 => "am viertletzten ",
        _ => "am fünftletzten ",
    }
}

#[tactic(auto, unfolding(crate::specs::German::german_back_lead))]
fn back_lead_from(n: u8) -> &'static str
    ensures { result.now ≡ german_back_lead From n }
{
    match n {
        1 => "vom letzten ",
        2 => "vom vorletzten ",
        3 => "vom drittletzten ",
        4 => "vom viertletzten ",
        _ => "vom fünftletzten ",
    }
}

#[tactic(auto, unfolding(crate::specs::German::german_back_lead))]
fn back_lead_if(n: u8) -> &'static str
    ensures { result.now ≡ german_back_lead If n }
{
    match n {
        1 => "(wenn es auch der letzte ",
        2 => "(wenn es auch der vorletzte ",
        3 => "(wenn es auch der drittletzte ",
        4 => "(wenn es auch der viertletzte ",
        _ => "(wenn es auch der fünftletzte ",
    }
}

/// A place of a weekday from the end of the month.
#[tactic(auto, unfolding(crate::specs::German::german_back_lead))]
pub fn back_lead(role: Role, n: u8) -> &'static str
    ensures { result.now ≡ german_back_lead role n }
{
    by_role(role, back_lead_on(n), back_lead_from(n), back_lead_if(n))
}

/// What comes after that weekday.
#[tactic(auto, unfolding(crate::specs::German::german_back_end))]
pub fn back_end(role: Role, n: u8) -> &'static str
    ensures { result.now ≡ german_back_end role n }
{
    by_role(role, " ", " ", " im Monat ist) ")
}

/// What comes before a day of a month.
#[tactic(auto, unfolding(crate::specs::German::german_date_lead))]
pub fn date_lead(named: bool) -> &'static str
    ensures { result.now ≡ german_date_lead named }
{
    match named {
        true => "am ",
        false => "vom ",
    }
}

/// What comes before a day of each month.
#[tactic(auto, unfolding(crate::specs::German::german_each_lead))]
pub fn each_lead(named: bool) -> &'static str
    ensures { result.now ≡ german_each_lead named }
{
    date_lead(named)
}

/// The Monday of a week.
#[tactic(auto, unfolding(crate::specs::German::german_monday))]
pub fn monday(named: bool) -> &'static str
    ensures { result.now ≡ german_monday named }
{
    match named {
        true => "am Montag ",
        false => "vom Montag ",
    }
}

/// What makes the number of a day of each month an ordinal number.
#[tactic(auto, unfolding(crate::specs::German::german_ordinal))]
pub fn ordinal(form: Form) -> &'static str
    ensures { result.now ≡ german_ordinal form }
{
    "."
}

/// The same for a day of a month.
#[tactic(auto, unfolding(crate::specs::German::german_date_ending))]
pub fn date_ending(form: Form) -> &'static str
    ensures { result.now ≡ german_date_ending form }
{
    "."
}

/// Words without a number or a name.
#[tactic(auto, unfolding(crate::specs::German::german_fixed))]
pub fn fixed(fixed: Fixed) -> &'static str
    ensures { result.now ≡ german_fixed fixed }
{
    match fixed {
        Fixed::EachDay => "täglich ",
        Fixed::FromBeginning => "von Jahresbeginn ",
        Fixed::OfEachMonth => "jedes Monats ",
        Fixed::EveryYear => "jedes Jahres ",
        Fixed::WholeMinute => " ",
        Fixed::Sharp => " genau ",
        Fixed::AllDay => "ganztägig",
        Fixed::NextDay => " des Folgetags",
        Fixed::Included => " (einschließlich)",
    }
}

/// What comes before a number.
#[tactic(auto, unfolding(crate::specs::German::german_lead))]
pub fn lead(counted: Counted) -> &'static str
    ensures { result.now ≡ german_lead counted }
{
    match counted {
        Counted::InWeek => "in Woche ",
        Counted::YearAlone => "",
        Counted::OfYear => "im Jahr ",
        Counted::FromHour => "von ",
        Counted::FromMinute => "von Minute ",
        Counted::FromMinuteAnd => "von Minute ",
        Counted::SecondOfEveryHour => "",
        Counted::FromSecond => "von Sekunde ",
        Counted::FromSecondOf => "von Sekunde ",
        Counted::DaysLater => ", ",
        _ => time_lead(counted),
    }
}

/// What comes after a number.
#[tactic(auto, unfolding(crate::specs::German::german_end))]
pub fn end(counted: Counted) -> &'static str
    ensures { result.now ≡ german_end counted }
{
    match counted {
        Counted::InWeek => " ",
        Counted::YearAlone => " ",
        Counted::OfYear => " ",
        Counted::FromMinute => " jeder Stunde ",
        Counted::FromMinuteAnd => " und Sekunde ",
        Counted::SecondOfEveryHour => " jeder Stunde ",
        Counted::FromSecond => " jeder Minute jeder Stunde ",
        Counted::FromSecondOf => " jeder Minute der Stunde ",
        Counted::DaysLater => " Tage später",
        _ => time_end(counted),
    }
}

/// Other words.
#[tactic(auto, unfolding(crate::specs::German::german_word))]
pub fn word(word: Word) -> &'static str
    ensures { result.now ≡ german_word word }
{
    match word {
        Word::OfEach => " jedes Monats ",
        Word::For => "an für ",
        Word::And => " und ",
        Word::Comma => ", ",
        Word::UntilTime => "bis ",
        Word::UntilDay => "bis ",
        Word::UntilThe => "bis zum ",
        Word::UntilTheEnd => "bis Ende Februar",
        Word::Or => "oder:",
        Word::OnlyIn => "und all dies nur:",
        Word::ExceptIn => "und all dies außer:",
    }
}

/// A unit of time after a number.
#[tactic(auto, unfolding(crate::specs::German::german_unit))]
pub fn unit(unit: Unit, form: Form) -> &'static str
    ensures { result.now ≡ german_unit unit form }
{
    match unit {
        Unit::Years => one_or(form, "Jahr", "Jahre"),
        Unit::Months => one_or(form, "Monat", "Monate"),
        Unit::Weeks => one_or(form, "Woche", "Wochen"),
        Unit::Days => one_or(form, "Tag", "Tage"),
        Unit::Hours => one_or(form, "Stunde", "Stunden"),
        Unit::Minutes => one_or(form, "Minute", "Minuten"),
        Unit::Seconds => one_or(form, "Sekunde", "Sekunden"),
    }
}
