//! From part to part: which parts of a rule may come next, and where a rule begins.

ghost use Rattle.std.specs.Prelude.{◌≡◌};
ghost use Rattle.gtd_hours_grammar2.specs.Machine as machine;

use crate::class::Class;
use crate::state::{
    AlwaysState, DateState, EasterState, HolidayState, MonthState, Stage, State, TimeState,
    WeekState, WeekdayState, YearState,
};
use crate::step::{Cut, Step, Way, Wrong, go, is, is_number, push, with_cut};

fn order(stage: Stage) -> u8
    ensures { result ≡ machine.order stage }
{
    match stage {
        Stage::Front => 0,
        Stage::Years => 1,
        Stage::Months => 2,
        Stage::Dates => 2,
        Stage::Weeks => 3,
        Stage::Colon => 4,
        Stage::Holidays => 5,
        Stage::Days => 5,
        Stage::Led => 5,
        Stage::Mixed => 5,
        Stage::Times => 6,
        Stage::Always => 6,
        Stage::Word => 7,
        Stage::Comment => 8,
    }
}

// The token leads on if the rule has not come so far.
fn until(stage: Stage, number: u8, next: Result<Step, Wrong>) -> Result<Step, Wrong>
    ensures { result ≡ machine.until stage number next }
{
    if order(stage) < number {
        next
    } else {
        Err(Wrong::Unexpected)
    }
}

fn next_holiday(stage: Stage, to: State) -> Result<Step, Wrong>
    ensures { result ≡ machine.next_holiday stage to }
{
    match stage {
        Stage::Days => Err(Wrong::Ambiguous),
        Stage::Led => Err(Wrong::Ambiguous),
        Stage::Mixed => Err(Wrong::Ambiguous),
        _ => until(stage, 5, push(to)),
    }
}

fn next_weekday(stage: Stage) -> Result<Step, Wrong>
    ensures { result ≡ machine.next_weekday stage }
{
    match stage {
        Stage::Holidays => with_cut(
            Cut::Leads,
            push(State::Weekday(WeekdayState::Weekday, true)),
        ),
        Stage::Mixed => Err(Wrong::Ambiguous),
        _ => until(stage, 5, push(State::Weekday(WeekdayState::Weekday, false))),
    }
}

fn dated(stage: Stage) -> Result<Step, Wrong>
    ensures { result ≡ machine.dated stage }
{
    match stage {
        Stage::Years => push(State::Date(DateState::Year)),
        _ => Err(Wrong::Unexpected),
    }
}

// A later part of a rule begins.
fn later(stage: Stage, class: Class) -> Result<Step, Wrong>
    ensures { result ≡ machine.later stage class }
{
    match class {
        Class::Year => dated(stage),
        Class::Month => until(stage, 2, push(State::Month(MonthState::Month))),
        Class::Easter => until(stage, 2, push(State::Easter(EasterState::Easter))),
        Class::Week => until(stage, 3, go(Way::Skip, State::Week(WeekState::Front))),
        Class::PublicHoliday => next_holiday(stage, State::Holiday(HolidayState::Holiday, false)),
        Class::SchoolHoliday => next_holiday(stage, State::Holiday(HolidayState::End, false)),
        Class::Weekday => next_weekday(stage),
        Class::Time => until(stage, 6, push(State::Time(TimeState::First))),
        Class::Event => until(stage, 6, push(State::Time(TimeState::First))),
        Class::Paren => until(stage, 6, push(State::Time(TimeState::Paren))),
        Class::Word => until(stage, 7, go(Way::Mark, State::After(Stage::Word))),
        Class::Comment => until(stage, 8, go(Way::Mark, State::After(Stage::Comment))),
        _ => Err(Wrong::Unexpected),
    }
}

pub(crate) fn front(class: Class) -> Result<Step, Wrong>
    ensures { result ≡ machine.front class }
{
    match class {
        Class::Year => push(State::Year(YearState::First)),
        Class::Twenty => push(State::Always(AlwaysState::Twenty)),
        _ => later(Stage::Front, class),
    }
}

fn colon(stage: Stage) -> Result<Step, Wrong>
    ensures { result ≡ machine.colon stage }
{
    match stage {
        Stage::Holidays => go(Way::Dropped, State::DaysColon),
        Stage::Days => go(Way::Dropped, State::DaysColon),
        Stage::Led => go(Way::Dropped, State::DaysColon),
        Stage::Mixed => go(Way::Dropped, State::DaysColon),
        Stage::Front => Err(Wrong::Unexpected),
        _ => until(stage, 4, go(Way::Skip, State::After(Stage::Colon))),
    }
}

pub(crate) fn after(stage: Stage, class: Class) -> Result<Step, Wrong>
    ensures { result ≡ machine.after stage class }
{
    match class {
        Class::Semicolon => go(Way::Skip, State::Semicolon),
        Class::Bars => go(Way::Skip, State::Bars),
        Class::Comma => go(Way::Skip, State::Comma(stage)),
        Class::End => go(Way::Skip, State::Done),
        Class::Colon => colon(stage),
        _ => later(stage, class),
    }
}

pub(crate) fn done(cut: Cut, stage: Stage, class: Class) -> Result<Step, Wrong>
    ensures { result ≡ machine.done cut stage class }
{
    with_cut(cut, after(stage, class))
}

pub(crate) fn semicolon(class: Class) -> Result<Step, Wrong>
    ensures { result ≡ machine.semicolon class }
{
    match class {
        Class::Semicolon => go(Way::Dropped, State::Semicolon),
        Class::End => go(Way::Dropped, State::Done),
        _ => with_cut(Cut::Instead, front(class)),
    }
}

pub(crate) fn bars(class: Class) -> Result<Step, Wrong>
    ensures { result ≡ machine.bars class }
{
    with_cut(Cut::Fallback, front(class))
}

fn more_month_days(class: Class) -> Option<State>
    ensures { result ≡ machine.more_month_days class }
{
    match class {
        Class::Year => Some(State::Date(DateState::Year)),
        Class::Month => Some(State::Month(MonthState::Month)),
        Class::Easter => Some(State::Easter(EasterState::Easter)),
        _ => None,
    }
}

fn more_dates(class: Class) -> Option<State>
    ensures { result ≡ machine.more_dates class }
{
    match class {
        Class::Number => Some(State::Date(DateState::ListedDay)),
        Class::Twenty => Some(State::Date(DateState::ListedTwenty)),
        _ => more_month_days(class),
    }
}

fn more_days(mixed: bool, class: Class) -> Option<State>
    ensures { result ≡ machine.more_days mixed class }
{
    match class {
        Class::PublicHoliday => Some(State::Holiday(HolidayState::Holiday, mixed)),
        Class::SchoolHoliday => Some(State::Holiday(HolidayState::End, mixed)),
        Class::Weekday => Some(State::Weekday(WeekdayState::Weekday, false)),
        _ => None,
    }
}

fn more_times(class: Class) -> Option<State>
    ensures { result ≡ machine.more_times class }
{
    match class {
        Class::Time => Some(State::Time(TimeState::First)),
        Class::Event => Some(State::Time(TimeState::First)),
        Class::Paren => Some(State::Time(TimeState::Paren)),
        _ => None,
    }
}

fn more_if(holds: bool, to: State) -> Option<State>
    ensures { result ≡ machine.more_if holds to }
{
    if holds { Some(to) } else { None }
}

// The state in which a list goes on after a comma, if it can.
fn goes_on(stage: Stage, class: Class) -> Option<State>
    ensures { result ≡ machine.goes_on stage class }
{
    match stage {
        Stage::Years => more_if(is(Class::Year, class), State::Year(YearState::Listed)),
        Stage::Months => more_month_days(class),
        Stage::Dates => more_dates(class),
        Stage::Weeks => more_if(is_number(class), State::Week(WeekState::Week)),
        Stage::Holidays => more_days(false, class),
        Stage::Days => more_days(true, class),
        Stage::Led => more_if(
            is(Class::Weekday, class),
            State::Weekday(WeekdayState::Weekday, true),
        ),
        Stage::Mixed => more_days(true, class),
        Stage::Times => more_times(class),
        _ => None,
    }
}

// An additional rule begins after a comma.
fn begins(stage: Stage, class: Class) -> Result<Step, Wrong>
    ensures { result ≡ machine.begins stage class }
{
    match stage {
        Stage::Led => match class {
            Class::PublicHoliday => Err(Wrong::Ambiguous),
            Class::SchoolHoliday => Err(Wrong::Ambiguous),
            _ => with_cut(Cut::Also, front(class)),
        },
        _ => with_cut(Cut::Also, front(class)),
    }
}

pub(crate) fn comma(stage: Stage, class: Class) -> Result<Step, Wrong>
    ensures { result ≡ machine.comma stage class }
{
    match class {
        Class::Comma => go(Way::Dropped, State::Comma(stage)),
        Class::End => go(Way::Dropped, State::Done),
        _ => match goes_on(stage, class) {
            Some(state) => push(state),
            None => begins(stage, class),
        },
    }
}

pub(crate) fn days_colon(class: Class) -> Result<Step, Wrong>
    ensures { result ≡ machine.days_colon class }
{
    match class {
        Class::Time => later(Stage::Days, class),
        Class::Event => later(Stage::Days, class),
        Class::Paren => later(Stage::Days, class),
        Class::Word => later(Stage::Days, class),
        Class::Comment => later(Stage::Days, class),
        _ => Err(Wrong::Unexpected),
    }
}
