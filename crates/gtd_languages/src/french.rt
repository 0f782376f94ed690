//! The words of French.

ghost use Rattle.std.specs.Prelude.{◌≡◌};
ghost use Rattle.gtd_languages.specs.French.{french_weekday, french_month, french_of_month, french_beginning, french_day};
ghost use Rattle.gtd_languages.specs.French.{french_list_lead, french_run_lead, french_list_last, french_run_to};
ghost use Rattle.gtd_languages.specs.French.{french_list_end, french_place_lead, french_place_end, french_back_lead};
ghost use Rattle.gtd_languages.specs.French.{french_back_end, french_date_lead, french_each_lead, french_monday};
ghost use Rattle.gtd_languages.specs.French.{french_ordinal, french_date_ending, french_fixed, french_lead, french_end};
ghost use Rattle.gtd_languages.specs.French.{french_word, french_unit, up_to_one};
ghost use Rattle.gtd_languages.specs.declared.word.Role.TheVariants.{On, From, If};

use crate::shared::{by_role, one_or, time_end, time_lead};
use crate::word::{Counted, Fixed, Form, Role, Unit, Word};

/// The name of a weekday.
#[tactic(auto, unfolding(crate::specs::French::french_weekday))]
pub fn weekday(n: u8) -> &'static str
    ensures { result.now ≡ french_weekday n }
{
    match n {
        1 => "dimanche",
        2 => "lundi",
        3 => "mardi",
        4 => "mercredi",
        5 => "jeudi",
        6 => "vendredi",
        _ => "samedi",
    }
}

/// The name of a month.
#[tactic(auto, unfolding(crate::specs::French::french_month))]
pub fn month(n: u8) -> &'static str
    ensures { result.now ≡ french_month n }
{
    match n {
        1 => "janvier",
        2 => "février",
        3 => "mars",
        4 => "avril",
        5 => "mai",
        6 => "juin",
        7 => "juillet",
        8 => "août",
        9 => "septembre",
        10 => "octobre",
        11 => "novembre",
        _ => "décembre",
    }
}

/// A month, after a day that is not of the month.
#[tactic(auto, unfolding(crate::specs::French::french_of_month))]
pub fn of_month(n: u8) -> &'static str
    ensures { result.now ≡ french_of_month n }
{
    match n {
        1 => "de janvier ",
        2 => "de février ",
        3 => "de mars ",
        4 => "d'avril ",
        5 => "de mai ",
        6 => "de juin ",
        7 => "de juillet ",
        8 => "d'août ",
        9 => "de septembre ",
        10 => "d'octobre ",
        11 => "de novembre ",
        _ => "de décembre ",
    }
}

/// The beginning of a month.
#[tactic(auto, unfolding(crate::specs::French::french_beginning))]
pub fn beginning(n: u8) -> &'static str
    ensures { result.now ≡ french_beginning n }
{
    match n {
        1 => "du début de janvier ",
        2 => "du début de février ",
        3 => "du début de mars ",
        4 => "du début d'avril ",
        5 => "du début de mai ",
        6 => "du début de juin ",
        7 => "du début de juillet ",
        8 => "du début d'août ",
        9 => "du début de septembre ",
        10 => "du début d'octobre ",
        11 => "du début de novembre ",
        _ => "du début de décembre ",
    }
}

/// The name of a weekday in a list.
#[tactic(auto, unfolding(crate::specs::French::french_day))]
pub fn day(role: Role, n: u8) -> &'static str
    ensures { result.now ≡ french_day role n }
{
    by_role(role, weekday(n), weekday(n), weekday(n))
}

/// What comes before a list of weekdays.
#[tactic(auto, unfolding(crate::specs::French::french_list_lead))]
pub fn list_lead(role: Role) -> &'static str
    ensures { result.now ≡ french_list_lead role }
{
    by_role(role, "chaque ", "de chaque ", "(s'il tombe un ")
}

/// What comes before neighbouring weekdays.
#[tactic(auto, unfolding(crate::specs::French::french_run_lead))]
pub fn run_lead(role: Role) -> &'static str
    ensures { result.now ≡ french_run_lead role }
{
    by_role(role, "du ", "de chaque jour du ", "(s'il tombe du ")
}

/// What comes before the last weekday of a list.
#[tactic(auto, unfolding(crate::specs::French::french_list_last))]
pub fn list_last(role: Role) -> &'static str
    ensures { result.now ≡ french_list_last role }
{
    by_role(role, " et ", " et ", " ou ")
}

/// What comes before the last of neighbouring weekdays.
#[tactic(auto, unfolding(crate::specs::French::french_run_to))]
pub fn run_to(role: Role) -> &'static str
    ensures { result.now ≡ french_run_to role }
{
    by_role(role, " au ", " au ", " au ")
}

/// What comes after weekdays.
#[tactic(auto, unfolding(crate::specs::French::french_list_end))]
pub fn list_end(role: Role) -> &'static str
    ensures { result.now ≡ french_list_end role }
{
    by_role(role, " ", " ", ") ")
}

#[tactic(auto, unfolding(crate::specs::French::french_place_lead))]
fn place_lead_on(n: u8) -> &'static str
    ensures { result.now ≡ french_place_lead On n }
{
    match n {
        1 => "le premier ",
        2 => "le deuxième ",
        3 => "le troisième ",
        4 => "le quatrième ",
        _ => "le cinquième ",
    }
}

#[tactic(auto, unfolding(crate::specs::French::french_place_lead))]
fn place_lead_from(n: u8) -> &'static str
    ensures { result.now ≡ french_place_lead From n }
{
    match n {
        1 => "du premier ",
        2 => "du deuxième ",
        3 => "du troisième ",
        4 => "du quatrième ",
        _ => "du cinquième ",
    }
}

#[tactic(auto, unfolding(crate::specs::French::french_place_lead))]
fn place_lead_if(n: u8) -> &'static str
    ensures { result.now ≡ french_place_lead If n }
{
    match n {
        1 => "(si c'est le premier ",
        2 => "(si c'est le deuxième ",
        3 => "(si c'est le troisième ",
        4 => "(si c'est le quatrième ",
        _ => "(si c'est le cinquième ",
    }
}

/// A place of a weekday from the beginning of the month.
#[tactic(auto, unfolding(crate::specs::French::french_place_lead))]
pub fn place_lead(role: Role, n: u8) -> &'static str
    ensures { result.now ≡ french_place_lead role n }
{
    by_role(role, place_lead_on(n), place_lead_from(n), place_lead_if(n))
}

/// What comes after that weekday.
#[tactic(auto, unfolding(crate::specs::French::french_place_end))]
pub fn place_end(role: Role) -> &'static str
    ensures { result.now ≡ french_place_end role }
{
    by_role(role, " ", " ", " du mois) ")
}

#[tactic(auto, unfolding(crate::specs::French::french_back_lead))]
fn back_lead_on(n: u8) -> &'static str
    ensures { result.now ≡ french_back_lead On n }
{
    match n {
        1 => "le dernier ",
        2 => "l'avant-dernier ",
        3 => "l'antépénultième ",
        4 => "le quatrième ",
        _ => "le cinquième ",
    }
}

#[tactic(auto, unfolding(crate::specs::French::french_back_lead))]
fn back_lead_from(n: u8) -> &'static str
    ensures { result.now ≡ french_back_lead From n }
{
    match n {
        1 => "du dernier ",
        2 => "de l'avant-dernier ",
        3 => "de l'antépénultième ",
        4 => "du quatrième ",
        _ => "du cinquième ",
    }
}

#[tactic(auto, unfolding(crate::specs::French::french_back_lead))]
fn back_lead_if(n: u8) -> &'static str
    ensures { result.now ≡ french_back_lead If n }
{
    match n {
        1 => "(si c'est aussi le dernier ",
        2 => "(si c'est aussi l'avant-dernier ",
        3 => "(si c'est aussi l'antépénultième ",
        4 => "(si c'est aussi le quatrième ",
        _ => "(si c'est aussi le cinquième ",
    }
}

/// A place of a weekday from the end of the month.
#[tactic(auto, unfolding(crate::specs::French::french_back_lead))]
pub fn back_lead(role: Role, n: u8) -> &'static str
    ensures { result.now ≡ french_back_lead role n }
{
    by_role(role, back_lead_on(n), back_lead_from(n), back_lead_if(n))
}

#[tactic(auto, unfolding(crate::specs::French::french_back_end))]
fn back_end_on(n: u8) -> &'static str
    ensures { result.now ≡ french_back_end On n }
{
    match n {
        1 => " ",
        2 => " ",
        3 => " ",
        4 => " en partant de la fin ",
        _ => " en partant de la fin ",
    }
}

#[tactic(auto, unfolding(crate::specs::French::french_back_end))]
fn back_end_if(n: u8) -> &'static str
    ensures { result.now ≡ french_back_end If n }
{
    match n {
        1 => " du mois) ",
        2 => " du mois) ",
        3 => " du mois) ",
        4 => " en partant de la fin du mois) ",
        _ => " en partant de la fin du mois) ",
    }
}

/// What comes after that weekday.
#[tactic(auto, unfolding(crate::specs::French::french_back_end))]
pub fn back_end(role: Role, n: u8) -> &'static str
    ensures { result.now ≡ french_back_end role n }
{
    by_role(role, back_end_on(n), back_end_on(n), back_end_if(n))
}

/// What comes before a day of a month.
#[tactic(auto, unfolding(crate::specs::French::french_date_lead))]
pub fn date_lead(named: bool) -> &'static str
    ensures { result.now ≡ french_date_lead named }
{
    match named {
        true => "le ",
        false => "du ",
    }
}

/// What comes before a day of each month.
#[tactic(auto, unfolding(crate::specs::French::french_each_lead))]
pub fn each_lead(named: bool) -> &'static str
    ensures { result.now ≡ french_each_lead named }
{
    date_lead(named)
}

/// The Monday of a week.
#[tactic(auto, unfolding(crate::specs::French::french_monday))]
pub fn monday(named: bool) -> &'static str
    ensures { result.now ≡ french_monday named }
{
    match named {
        true => "le lundi ",
        false => "à partir du lundi ",
    }
}

/// What makes the number of a day of each month an ordinal number.
#[tactic(auto, unfolding(crate::specs::French::french_ordinal))]
pub fn ordinal(form: Form) -> &'static str
    ensures { result.now ≡ french_ordinal form }
{
    one_or(form, "er", "")
}

/// The same for a day of a month.
#[tactic(auto, unfolding(crate::specs::French::french_date_ending))]
pub fn date_ending(form: Form) -> &'static str
    ensures { result.now ≡ french_date_ending form }
{
    one_or(form, "er", "")
}

/// Words without a number or a name.
#[tactic(auto, unfolding(crate::specs::French::french_fixed))]
pub fn fixed(fixed: Fixed) -> &'static str
    ensures { result.now ≡ french_fixed fixed }
{
    match fixed {
        Fixed::EachDay => "chaque jour ",
        Fixed::FromBeginning => "du début ",
        Fixed::OfEachMonth => "de chaque mois ",
        Fixed::EveryYear => "de chaque année ",
        Fixed::WholeMinute => " ",
        Fixed::Sharp => " précises ",
        Fixed::AllDay => "toute la journée",
        Fixed::NextDay => " le lendemain",
        Fixed::Included => " (inclus)",
    }
}

/// What comes before a number.
#[tactic(auto, unfolding(crate::specs::French::french_lead))]
pub fn lead(counted: Counted) -> &'static str
    ensures { result.now ≡ french_lead counted }
{
    match counted {
        Counted::InWeek => "de la semaine ",
        Counted::YearAlone => "",
        Counted::OfYear => "de l'année ",
        Counted::FromHour => "de ",
        Counted::FromMinute => "de la minute ",
        Counted::FromMinuteAnd => "de la minute ",
        Counted::SecondOfEveryHour => "",
        Counted::FromSecond => "de la seconde ",
        Counted::FromSecondOf => "de la seconde ",
        Counted::DaysLater => ", ",
        _ => time_lead(counted),
    }
}

/// What comes after a number.
#[tactic(auto, unfolding(crate::specs::French::french_end))]
pub fn end(counted: Counted) -> &'static str
    ensures { result.now ≡ french_end counted }
{
    match counted {
        Counted::InWeek => " ",
        Counted::YearAlone => " ",
        Counted::OfYear => " ",
        Counted::FromMinute => " de chaque heure ",
        Counted::FromMinuteAnd => " et de la seconde ",
        Counted::SecondOfEveryHour => " de chaque heure ",
        Counted::FromSecond => " de chaque minute de chaque heure ",
        Counted::FromSecondOf => " de chaque minute de l'heure ",
        Counted::DaysLater => " jours plus tard",
        _ => time_end(counted),
    }
}

/// Other words.
#[tactic(auto, unfolding(crate::specs::French::french_word))]
pub fn word(word: Word) -> &'static str
    ensures { result.now ≡ french_word word }
{
    match word {
        Word::OfEach => " de chaque mois ",
        Word::For => "pour une durée de ",
        Word::And => " et ",
        Word::Comma => ", ",
        Word::UntilTime => "jusqu'à ",
        Word::UntilDay => "jusqu'au ",
        Word::UntilThe => "jusqu'au ",
        Word::UntilTheEnd => "jusqu'à la fin de février",
        Word::Or => "ou :",
        Word::OnlyIn => "et tout cela seulement :",
        Word::ExceptIn => "et tout cela sauf :",
    }
}

// The first text for 0 and 1, the other for all other numbers.
fn up_to_one(form: Form, one: &'static str, other: &'static str) -> &'static str
    ensures { result.now ≡ up_to_one form one.now other.now }
{
    match form {
        Form::Zero => one,
        Form::One => one,
        Form::EndsInOne => other,
        Form::EndsInTwo => other,
        Form::EndsInThree => other,
        Form::Other => other,
    }
}

/// A unit of time after a number.
#[tactic(auto, unfolding(crate::specs::French::french_unit))]
pub fn unit(unit: Unit, form: Form) -> &'static str
    ensures { result.now ≡ french_unit unit form }
{
    match unit {
        Unit::Years => up_to_one(form, "an", "ans"),
        Unit::Months => up_to_one(form, "mois", "mois"),
        Unit::Weeks => up_to_one(form, "semaine", "semaines"),
        Unit::Days => up_to_one(form, "jour", "jours"),
        Unit::Hours => up_to_one(form, "heure", "heures"),
        Unit::Minutes => up_to_one(form, "minute", "minutes"),
        Unit::Seconds => up_to_one(form, "seconde", "secondes"),
    }
}
