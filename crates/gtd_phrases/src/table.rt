//! The words of each language, from its table.

ghost use Rattle.std.specs.Prelude.{◌≡◌};
ghost use Rattle.gtd_phrases.specs.Tables.{weekday_in, month_in, of_month_in, beginning_in, day_in, list_lead_in};
ghost use Rattle.gtd_phrases.specs.Tables.{run_lead_in, list_last_in, run_to_in, list_end_in, place_lead_in};
ghost use Rattle.gtd_phrases.specs.Tables.{place_end_in, back_lead_in, back_end_in, date_lead_in, each_lead_in};
ghost use Rattle.gtd_phrases.specs.Tables.{monday_in, ordinal_in, date_ending_in, fixed_in, lead_in, end_in, word_in};
ghost use Rattle.gtd_phrases.specs.Tables.{unit_in};

use crate::phrase::Language;
use gtd_languages::{Counted, Fixed, Form, Role, Unit, Word, english, french, german};

/// The name of a weekday.
pub(crate) fn weekday_in(language: Language, n: u8) -> &'static str
    ensures { result.now ≡ weekday_in language n }
{
    match language {
        Language::English => english::weekday(n),
        Language::German => german::weekday(n),
        Language::French => french::weekday(n),
    }
}

/// The name of a month.
pub(crate) fn month_in(language: Language, n: u8) -> &'static str
    ensures { result.now ≡ month_in language n }
{
    match language {
        Language::English => english::month(n),
        Language::German => german::month(n),
        Language::French => french::month(n),
    }
}

/// A month, after a day that is not of the month.
pub(crate) fn of_month_in(language: Language, n: u8) -> &'static str
    ensures { result.now ≡ of_month_in language n }
{
    match language {
        Language::English => english::of_month(n),
        Language::German => german::of_month(n),
        Language::French => french::of_month(n),
    }
}

/// The beginning of a month.
pub(crate) fn beginning_in(language: Language, n: u8) -> &'static str
    ensures { result.now ≡ beginning_in language n }
{
    match language {
        Language::English => english::beginning(n),
        Language::German => german::beginning(n),
        Language::French => french::beginning(n),
    }
}

/// The name of a weekday in a list.
pub(crate) fn day_in(language: Language, role: Role, n: u8) -> &'static str
    ensures { result.now ≡ day_in language role n }
{
    match language {
        Language::English => english::day(role, n),
        Language::German => german::day(role, n),
        Language::French => french::day(role, n),
    }
}

/// What comes before a list of weekdays.
pub(crate) fn list_lead_in(language: Language, role: Role) -> &'static str
    ensures { result.now ≡ list_lead_in language role }
{
    match language {
        Language::English => english::list_lead(role),
        Language::German => german::list_lead(role),
        Language::French => french::list_lead(role),
    }
}

/// What comes before neighbouring weekdays.
pub(crate) fn run_lead_in(language: Language, role: Role) -> &'static str
    ensures { result.now ≡ run_lead_in language role }
{
    match language {
        Language::English => english::run_lead(role),
        Language::German => german::run_lead(role),
        Language::French => french::run_lead(role),
    }
}

/// What comes before the last weekday of a list.
pub(crate) fn list_last_in(language: Language, role: Role) -> &'static str
    ensures { result.now ≡ list_last_in language role }
{
    match language {
        Language::English => english::list_last(role),
        Language::German => german::list_last(role),
        Language::French => french::list_last(role),
    }
}

/// What comes before the last of neighbouring weekdays.
pub(crate) fn run_to_in(language: Language, role: Role) -> &'static str
    ensures { result.now ≡ run_to_in language role }
{
    match language {
        Language::English => english::run_to(role),
        Language::German => german::run_to(role),
        Language::French => french::run_to(role),
    }
}

/// What comes after weekdays.
pub(crate) fn list_end_in(language: Language, role: Role) -> &'static str
    ensures { result.now ≡ list_end_in language role }
{
    match language {
        Language::English => english::list_end(role),
        Language::German => german::list_end(role),
        Language::French => french::list_end(role),
    }
}

/// A place of a weekday from the beginning of the month.
pub(crate) fn place_lead_in(language: Language, role: Role, n: u8) -> &'static str
    ensures { result.now ≡ place_lead_in language role n }
{
    match language {
        Language::English => english::place_lead(role, n),
        Language::German => german::place_lead(role, n),
        Language::French => french::place_lead(role, n),
    }
}

/// What comes after that weekday.
pub(crate) fn place_end_in(language: Language, role: Role) -> &'static str
    ensures { result.now ≡ place_end_in language role }
{
    match language {
        Language::English => english::place_end(role),
        Language::German => german::place_end(role),
        Language::French => french::place_end(role),
    }
}

/// A place of a weekday from the end of the month.
pub(crate) fn back_lead_in(language: Language, role: Role, n: u8) -> &'static str
    ensures { result.now ≡ back_lead_in language role n }
{
    match language {
        Language::English => english::back_lead(role, n),
        Language::German => german::back_lead(role, n),
        Language::French => french::back_lead(role, n),
    }
}

/// What comes after that weekday.
pub(crate) fn back_end_in(language: Language, role: Role, n: u8) -> &'static str
    ensures { result.now ≡ back_end_in language role n }
{
    match language {
        Language::English => english::back_end(role, n),
        Language::German => german::back_end(role, n),
        Language::French => french::back_end(role, n),
    }
}

/// What comes before a day of a month.
pub(crate) fn date_lead_in(language: Language, named: bool) -> &'static str
    ensures { result.now ≡ date_lead_in language named }
{
    match language {
        Language::English => english::date_lead(named),
        Language::German => german::date_lead(named),
        Language::French => french::date_lead(named),
    }
}

/// What comes before a day of each month.
pub(crate) fn each_lead_in(language: Language, named: bool) -> &'static str
    ensures { result.now ≡ each_lead_in language named }
{
    match language {
        Language::English => english::each_lead(named),
        Language::German => german::each_lead(named),
        Language::French => french::each_lead(named),
    }
}

/// The Monday of a week.
pub(crate) fn monday_in(language: Language, named: bool) -> &'static str
    ensures { result.now ≡ monday_in language named }
{
    match language {
        Language::English => english::monday(named),
        Language::German => german::monday(named),
        Language::French => french::monday(named),
    }
}

/// What makes the number of a day of each month an ordinal number.
pub(crate) fn ordinal_in(language: Language, form: Form) -> &'static str
    ensures { result.now ≡ ordinal_in language form }
{
    match language {
        Language::English => english::ordinal(form),
        Language::German => german::ordinal(form),
        Language::French => french::ordinal(form),
    }
}

/// The same for a day of a month.
pub(crate) fn date_ending_in(language: Language, form: Form) -> &'static str
    ensures { result.now ≡ date_ending_in language form }
{
    match language {
        Language::English => english::date_ending(form),
        Language::German => german::date_ending(form),
        Language::French => french::date_ending(form),
    }
}

/// Words without a number or a name.
pub(crate) fn fixed_in(language: Language, fixed: Fixed) -> &'static str
    ensures { result.now ≡ fixed_in language fixed }
{
    match language {
        Language::English => english::fixed(fixed),
        Language::German => german::fixed(fixed),
        Language::French => french::fixed(fixed),
    }
}

/// What comes before a number.
pub(crate) fn lead_in(language: Language, counted: Counted) -> &'static str
    ensures { result.now ≡ lead_in language counted }
{
    match language {
        Language::English => english::lead(counted),
        Language::German => german::lead(counted),
        Language::French => french::lead(counted),
    }
}

/// What comes after a number.
pub(crate) fn end_in(language: Language, counted: Counted) -> &'static str
    ensures { result.now ≡ end_in language counted }
{
    match language {
        Language::English => english::end(counted),
        Language::German => german::end(counted),
        Language::French => french::end(counted),
    }
}

/// Other words.
pub(crate) fn word_in(language: Language, word: Word) -> &'static str
    ensures { result.now ≡ word_in language word }
{
    match language {
        Language::English => english::word(word),
        Language::German => german::word(word),
        Language::French => french::word(word),
    }
}

/// A unit of time after a number.
pub(crate) fn unit_in(language: Language, unit: Unit, form: Form) -> &'static str
    ensures { result.now ≡ unit_in language unit form }
{
    match language {
        Language::English => english::unit(unit, form),
        Language::German => german::unit(unit, form),
        Language::French => french::unit(unit, form),
    }
}
