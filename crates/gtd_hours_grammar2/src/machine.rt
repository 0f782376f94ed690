//! The machine: what a token does in a state.

ghost use Rattle.std.specs.Prelude.{◌≡◌, ◌++◌, IfOk, OnOk};
ghost use Rattle.gtd_hours_grammar2.specs.Machine as machine;

use crate::class::Class;
use crate::parts::{after, bars, comma, days_colon, front, semicolon};
use crate::state::State;
use crate::step::{Step, Wrong};
use crate::table::{
    at_always, at_date, at_easter, at_holiday, at_last, at_month, at_place, at_time, at_week,
    at_weekday, at_year,
};
use std::alloc::{AllocError, Global};

const CLASSES: [Class; 26] = [
    Class::Year,
    Class::Twenty,
    Class::Number,
    Class::Time,
    Class::Month,
    Class::Weekday,
    Class::PublicHoliday,
    Class::SchoolHoliday,
    Class::Easter,
    Class::Week,
    Class::Event,
    Class::Word,
    Class::Day,
    Class::Comment,
    Class::Comma,
    Class::Semicolon,
    Class::Bars,
    Class::Dash,
    Class::Slash,
    Class::Colon,
    Class::Open,
    Class::Close,
    Class::Plus,
    Class::Paren,
    Class::Unparen,
    Class::End,
];

/// What a token of a class does in a state: it leads on, or it cannot come. Loose forms lead on, too.
///
/// Where the end of a text cannot come, more tokens are needed, whatever is answered as wrong.
///
/// ```text
/// next(State::Front, Class::Weekday) == Ok(Step { to: State::Weekday(WeekdayState::Weekday, false), .. })
/// next(State::Week(WeekState::Front), Class::Dash) == Err(Wrong::Unexpected)
/// ```
pub fn next(state: State, class: Class) -> Result<Step, Wrong>
    ensures { result ≡ machine.next state class }
{
    match state {
        State::Front => front(class),
        State::Semicolon => semicolon(class),
        State::Bars => bars(class),
        State::After(stage) => after(stage, class),
        State::Comma(stage) => comma(stage, class),
        State::DaysColon => days_colon(class),
        State::Done => Err(Wrong::Unexpected),
        State::Always(at) => at_always(at, class),
        State::Year(at) => at_year(at, class),
        State::Month(at) => at_month(at, class),
        State::Date(at) => at_date(at, class),
        State::Easter(at) => at_easter(at, class),
        State::Place(at, apart) => at_place(at, apart, class),
        State::Last(at) => at_last(at, class),
        State::Week(at) => at_week(at, class),
        State::Holiday(at, mixed) => at_holiday(at, mixed, class),
        State::Weekday(at, led) => at_weekday(at, led, class),
        State::Time(at) => at_time(at, class),
    }
}

fn leads_on(state: State, class: Class) -> bool
    ensures { result ≡ machine.leads_on state class }
{
    next(state, class).is_ok()
}

fn push_if(holds: bool, class: Class, classes: &mut Vec<Class>) -> Result<(), AllocError>
    ensures { OnOk result (classes.new.items ≡ classes.old.items ++ machine.only_if holds class) }
{
    if holds {
        classes.push(class)?;
    }
    Ok(())
}

/// The classes that lead on from a state, in the order of [`Class`]: what is accepted there. Fails only if memory is refused.
///
/// ```text
/// accepted(alloc, State::Year(YearState::Dash)) == [Class::Year, Class::Twenty, Class::Number]
/// ```
pub fn accepted(alloc: Global, state: State) -> Result<Vec<Class>, AllocError>
    ensures { IfOk result (λ classes. classes.items ≡ machine.accepted state) }
{
    let mut classes = Vec::new(alloc);
    for class in CLASSES {
        let holds = leads_on(state, class);
        push_if(holds, class, &mut classes)?;
    }
    Ok(classes)
}
