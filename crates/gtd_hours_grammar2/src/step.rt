//! What a token does in a state.

ghost use Rattle.std.specs.Prelude.{◌≡◌, ◌==◌, Option, Some, None, Result, Ok, Err};
ghost use Rattle.gtd_hours_grammar2.specs.Steps as steps;

use crate::class::Class;
use crate::state::State;

/// What is complete before a token.
#[derive(Clone, Copy, Debug, PartialEq, Eq)]
pub enum Cut {
    Years, // Years.
    MonthDays, // Months or dates.
    Before, // A month, and a year if there is one, before a weekday that stays.
    Week, // Weeks.
    Day, // A weekday or a holiday.
    Leads, // The holidays before restrict the weekdays that follow.
    Time, // A time.
    Always, // `24/7`
    Instead, // A rule begins, after `;`.
    Also, // A rule begins, after a comma.
    Fallback, // A rule begins, after `||`.
}

/// What becomes of a token.
#[derive(Clone, Copy, Debug, PartialEq, Eq)]
pub enum Way {
    Push, // It belongs to the part that is being read.
    Skip, // It is a sign between parts.
    Mark, // It is a part by itself: a word such as `off`, or a comment.
    Dropped, // Loosely, it is left out.
    Missing, // Loosely, a comma is missing before it.
}

/// What a token does.
#[derive(Clone, Copy, Debug, PartialEq, Eq)]
pub struct Step {
    /// What is complete before it.
    pub first: Option<Cut>,
    /// What is complete after that.
    pub second: Option<Cut>,
    /// What becomes of the token.
    pub way: Way,
    /// Where it leads.
    pub to: State,
}

/// Why a token cannot come.
#[derive(Clone, Copy, Debug, PartialEq, Eq)]
pub enum Wrong {
    Unexpected, // It fits nowhere here.
    Ambiguous, // People read it in two ways.
    Unsupported, // OpenStreetMap has it here, and this profile has not.
}

pub(crate) fn go(way: Way, to: State) -> Result<Step, Wrong>
    ensures { result ≡ steps.go way to }
{
    Ok(Step {
        first: None,
        second: None,
        way,
        to,
    })
}

pub(crate) fn push(to: State) -> Result<Step, Wrong>
    ensures { result ≡ steps.push to }
{
    go(Way::Push, to)
}

// Only times have commas that may be missing.
pub(crate) fn missing(to: State) -> Result<Step, Wrong>
    ensures { result ≡ steps.missing to }
{
    Ok(Step {
        first: Some(Cut::Time),
        second: None,
        way: Way::Missing,
        to,
    })
}

pub(crate) fn with_cut(cut: Cut, next: Result<Step, Wrong>) -> Result<Step, Wrong>
    ensures { result ≡ steps.with_cut cut next }
{
    match next {
        Ok(step) => Ok(Step {
            first: Some(cut),
            second: step.first,
            way: step.way,
            to: step.to,
        }),
        Err(wrong) => Err(wrong),
    }
}

pub(crate) fn is(wanted: Class, class: Class) -> bool
    ensures { result ≡ (steps.code wanted == steps.code class) }
{
    wanted as u8 == class as u8
}

// Only this class leads on.
pub(crate) fn only(wanted: Class, to: State, class: Class) -> Result<Step, Wrong>
    ensures { result ≡ steps.only wanted to class }
{
    if is(wanted, class) {
        push(to)
    } else {
        Err(Wrong::Unexpected)
    }
}

pub(crate) fn is_number(class: Class) -> bool
    ensures { result ≡ steps.is_number class }
{
    matches!(class, Class::Year | Class::Twenty | Class::Number)
}

pub(crate) fn number(to: State, class: Class) -> Result<Step, Wrong>
    ensures { result ≡ steps.number to class }
{
    if is_number(class) {
        push(to)
    } else {
        Err(Wrong::Unexpected)
    }
}

// After `[`: a number, or one from the end of the month.
pub(crate) fn number_or_dash(to: State, back: State, class: Class) -> Result<Step, Wrong>
    ensures { result ≡ steps.number_or_dash to back class }
{
    match class {
        Class::Dash => push(back),
        _ => number(to, class),
    }
}

// The sign of an offset.
pub(crate) fn sign(to: State, class: Class) -> Result<Step, Wrong>
    ensures { result ≡ steps.sign to class }
{
    match class {
        Class::Plus => push(to),
        Class::Dash => push(to),
        _ => Err(Wrong::Unexpected),
    }
}

// After the sign of an offset in days: the next weekday is not read.
pub(crate) fn offset(to: State, class: Class) -> Result<Step, Wrong>
    ensures { result ≡ steps.offset to class }
{
    match class {
        Class::Weekday => Err(Wrong::Unsupported),
        _ => number(to, class),
    }
}
