//! What the tables of all languages have in common.

ghost use Rattle.std.specs.Prelude.{◌≡◌};
ghost use Rattle.gtd_languages.specs.Shared.{by_role, one_or, time_end, time_lead};

use crate::word::{Counted, Form, Role};

/// One text of three, for each role.
pub fn by_role(
    role: Role,
    on: &'static str,
    from: &'static str,
    other: &'static str,
) -> &'static str
    ensures { result.now ≡ by_role role on.now from.now other.now }
{
    match role {
        Role::On => on,
        Role::From => from,
        Role::If => other,
    }
}

/// The first text for 1, the other for all other numbers.
pub fn one_or(form: Form, one: &'static str, other: &'static str) -> &'static str
    ensures { result.now ≡ one_or form one.now other.now }
{
    match form {
        Form::One => one,
        Form::Zero => other,
        Form::EndsInOne => other,
        Form::EndsInTwo => other,
        Form::EndsInThree => other,
        Form::Other => other,
    }
}

/// What comes before a number of a time of day, which is written alike in all languages.
pub fn time_lead(counted: Counted) -> &'static str
    ensures { result.now ≡ time_lead counted }
{
    match counted {
        Counted::AtSecond => ":",
        Counted::EndHour => " ",
        Counted::EndSecond => ":",
        _ => "",
    }
}

/// What comes after it.
pub fn time_end(counted: Counted) -> &'static str
    ensures { result.now ≡ time_end counted }
{
    match counted {
        Counted::FromHour => ":",
        Counted::OfHour => " ",
        Counted::AtSecond => " ",
        Counted::EndHour => ":",
        _ => "",
    }
}
