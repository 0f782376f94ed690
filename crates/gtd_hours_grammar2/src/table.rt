//! Inside of the parts of a rule.

ghost use Rattle.std.specs.Prelude.{◌≡◌};
ghost use Rattle.gtd_hours_grammar2.specs.Machine as machine;

use crate::class::Class;
use crate::parts::done;
use crate::state::{
    AlwaysState, DateState, EasterState, HolidayState, LastState, MonthState, PlaceState, Stage,
    State, TimeState, WeekState, WeekdayState, YearState,
};
use crate::step::{
    Cut, Step, Wrong, is_number, missing, number, number_or_dash, offset, only, push, sign,
    with_cut,
};

pub(crate) fn at_always(state: AlwaysState, class: Class) -> Result<Step, Wrong>
    ensures { result ≡ machine.at_always state class }
{
    match state {
        AlwaysState::Twenty => only(Class::Slash, State::Always(AlwaysState::Slash), class),
        AlwaysState::Slash => number(State::Always(AlwaysState::End), class),
        AlwaysState::End => done(Cut::Always, Stage::Always, class),
    }
}

// The sign of an offset, or the part is complete.
fn sign_or_done(to: State, cut: Cut, stage: Stage, class: Class) -> Result<Step, Wrong>
    ensures { result ≡ machine.sign_or_done to cut stage class }
{
    match class {
        Class::Plus => push(to),
        Class::Dash => push(to),
        _ => done(cut, stage, class),
    }
}

fn next_year(class: Class) -> Result<Step, Wrong>
    ensures { result ≡ machine.next_year class }
{
    match class {
        Class::Dash => push(State::Year(YearState::Dash)),
        Class::Slash => push(State::Year(YearState::Slash)),
        Class::Plus => push(State::Year(YearState::End)),
        _ => done(Cut::Years, Stage::Years, class),
    }
}

pub(crate) fn at_year(state: YearState, class: Class) -> Result<Step, Wrong>
    ensures { result ≡ machine.at_year state class }
{
    match state {
        YearState::First => match class {
            Class::Month => push(State::Month(MonthState::OfYear)),
            Class::Easter => push(State::Easter(EasterState::Easter)),
            _ => next_year(class),
        },
        YearState::Listed => next_year(class),
        YearState::Dash => number(State::Year(YearState::Range), class),
        YearState::Range => match class {
            Class::Slash => push(State::Year(YearState::Slash)),
            _ => done(Cut::Years, Stage::Years, class),
        },
        YearState::Slash => number(State::Year(YearState::End), class),
        YearState::End => done(Cut::Years, Stage::Years, class),
    }
}

fn day_or_done(class: Class) -> Result<Step, Wrong>
    ensures { result ≡ machine.day_or_done class }
{
    if is_number(class) {
        push(State::Date(DateState::Day))
    } else {
        done(Cut::MonthDays, Stage::Months, class)
    }
}

fn next_month(dash: State, class: Class) -> Result<Step, Wrong>
    ensures { result ≡ machine.next_month dash class }
{
    match class {
        Class::Dash => push(dash),
        Class::Weekday => push(State::Place(PlaceState::Weekday, true)),
        _ => day_or_done(class),
    }
}

pub(crate) fn at_month(state: MonthState, class: Class) -> Result<Step, Wrong>
    ensures { result ≡ machine.at_month state class }
{
    match state {
        MonthState::OfYear => next_month(State::Month(MonthState::OfYearDash), class),
        MonthState::OfYearDash => match class {
            Class::Month => push(State::Month(MonthState::End)),
            _ => number(State::Month(MonthState::LastYear), class),
        },
        MonthState::LastYear => only(Class::Month, State::Month(MonthState::End), class),
        MonthState::Month => next_month(State::Month(MonthState::Dash), class),
        MonthState::Dash => only(Class::Month, State::Month(MonthState::End), class),
        MonthState::End => done(Cut::MonthDays, Stage::Months, class),
    }
}

fn next_day(class: Class) -> Result<Step, Wrong>
    ensures { result ≡ machine.next_day class }
{
    match class {
        Class::Dash => push(State::Last(LastState::DateDash)),
        _ => done(Cut::MonthDays, Stage::Dates, class),
    }
}

pub(crate) fn at_date(state: DateState, class: Class) -> Result<Step, Wrong>
    ensures { result ≡ machine.at_date state class }
{
    match state {
        DateState::Year => match class {
            Class::Month => push(State::Date(DateState::Month)),
            _ => only(Class::Easter, State::Easter(EasterState::Easter), class),
        },
        DateState::Month => match class {
            Class::Dash => push(State::Date(DateState::MonthDash)),
            Class::Weekday => push(State::Place(PlaceState::Weekday, false)),
            _ => number(State::Date(DateState::Day), class),
        },
        DateState::MonthDash => number(State::Month(MonthState::LastYear), class),
        DateState::Day => match class {
            Class::Plus => Err(Wrong::Unsupported),
            _ => next_day(class),
        },
        DateState::ListedDay => next_day(class),
        DateState::ListedTwenty => match class {
            Class::Slash => with_cut(Cut::Also, push(State::Always(AlwaysState::Slash))),
            _ => next_day(class),
        },
    }
}

fn last_end(class: Class) -> Result<Step, Wrong>
    ensures { result ≡ machine.last_end class }
{
    match class {
        Class::Year => push(State::Last(LastState::Year)),
        Class::Month => push(State::Last(LastState::Month)),
        Class::Easter => push(State::Last(LastState::End)),
        _ => Err(Wrong::Unexpected),
    }
}

fn small_or_end(to: State, class: Class) -> Result<Step, Wrong>
    ensures { result ≡ machine.small_or_end to class }
{
    match class {
        Class::Twenty => push(to),
        Class::Number => push(to),
        _ => last_end(class),
    }
}

fn offset_or_end(to: State, class: Class) -> Result<Step, Wrong>
    ensures { result ≡ machine.offset_or_end to class }
{
    match class {
        Class::Weekday => Err(Wrong::Unsupported),
        _ => small_or_end(to, class),
    }
}

pub(crate) fn at_easter(state: EasterState, class: Class) -> Result<Step, Wrong>
    ensures { result ≡ machine.at_easter state class }
{
    match state {
        EasterState::Easter => match class {
            Class::Plus => push(State::Easter(EasterState::Plus)),
            Class::Dash => push(State::Easter(EasterState::Dash)),
            _ => done(Cut::MonthDays, Stage::Months, class),
        },
        EasterState::Plus => offset(State::Easter(EasterState::Number), class),
        EasterState::Dash => offset_or_end(State::Easter(EasterState::Number), class),
        EasterState::Number => only(Class::Day, State::Easter(EasterState::Offset), class),
        EasterState::Offset => match class {
            Class::Dash => push(State::Last(LastState::OffsetDash)),
            _ => done(Cut::MonthDays, Stage::Months, class),
        },
    }
}

pub(crate) fn at_last(state: LastState, class: Class) -> Result<Step, Wrong>
    ensures { result ≡ machine.at_last state class }
{
    match state {
        LastState::DateDash => small_or_end(State::Last(LastState::Day), class),
        LastState::OffsetDash => last_end(class),
        LastState::Year => match class {
            Class::Month => push(State::Last(LastState::Month)),
            _ => only(Class::Easter, State::Last(LastState::End), class),
        },
        LastState::Month => match class {
            Class::Weekday => push(State::Last(LastState::Weekday)),
            _ => number(State::Last(LastState::Day), class),
        },
        LastState::Day => match class {
            Class::Day => Err(Wrong::Unsupported),
            _ => done(Cut::MonthDays, Stage::Dates, class),
        },
        LastState::Weekday => only(Class::Open, State::Last(LastState::Open), class),
        LastState::Open => {
            number_or_dash(
                State::Last(LastState::Number),
                State::Last(LastState::Back),
                class,
            )
        }
        LastState::Back => number(State::Last(LastState::Number), class),
        LastState::Number => only(Class::Close, State::Last(LastState::End), class),
        LastState::End => sign_or_done(
            State::Last(LastState::Sign),
            Cut::MonthDays,
            Stage::Months,
            class,
        ),
        LastState::Sign => offset(State::Last(LastState::Days), class),
        LastState::Days => only(Class::Day, State::Month(MonthState::End), class),
    }
}

pub(crate) fn at_week(state: WeekState, class: Class) -> Result<Step, Wrong>
    ensures { result ≡ machine.at_week state class }
{
    match state {
        WeekState::Front => number(State::Week(WeekState::Week), class),
        WeekState::Week => match class {
            Class::Dash => push(State::Week(WeekState::Dash)),
            _ => done(Cut::Week, Stage::Weeks, class),
        },
        WeekState::Dash => number(State::Week(WeekState::Range), class),
        WeekState::Range => match class {
            Class::Slash => push(State::Week(WeekState::Slash)),
            _ => done(Cut::Week, Stage::Weeks, class),
        },
        WeekState::Slash => number(State::Week(WeekState::End), class),
        WeekState::End => done(Cut::Week, Stage::Weeks, class),
    }
}

fn holidays(mixed: bool) -> Stage
    ensures { result ≡ machine.holidays mixed }
{
    if mixed { Stage::Mixed } else { Stage::Holidays }
}

pub(crate) fn at_holiday(state: HolidayState, mixed: bool, class: Class) -> Result<Step, Wrong>
    ensures { result ≡ machine.at_holiday state mixed class }
{
    match state {
        HolidayState::Holiday => sign_or_done(
            State::Holiday(HolidayState::Sign, mixed),
            Cut::Day,
            holidays(mixed),
            class,
        ),
        HolidayState::Sign => offset(State::Holiday(HolidayState::Days, mixed), class),
        HolidayState::Days => only(Class::Day, State::Holiday(HolidayState::End, mixed), class),
        HolidayState::End => done(Cut::Day, holidays(mixed), class),
    }
}

fn days(led: bool) -> Stage
    ensures { result ≡ machine.days led }
{
    if led { Stage::Led } else { Stage::Days }
}

fn in_brackets(led: bool, class: Class) -> Result<Step, Wrong>
    ensures { result ≡ machine.in_brackets led class }
{
    match class {
        Class::Comma => push(State::Weekday(WeekdayState::Open, led)),
        _ => only(
            Class::Close,
            State::Weekday(WeekdayState::Close, led),
            class,
        ),
    }
}

pub(crate) fn at_weekday(state: WeekdayState, led: bool, class: Class) -> Result<Step, Wrong>
    ensures { result ≡ machine.at_weekday state led class }
{
    match state {
        WeekdayState::Weekday => match class {
            Class::Dash => push(State::Weekday(WeekdayState::Dash, led)),
            Class::Open => push(State::Weekday(WeekdayState::Open, led)),
            _ => done(Cut::Day, days(led), class),
        },
        WeekdayState::Dash => {
            only(
                Class::Weekday,
                State::Weekday(WeekdayState::Range, led),
                class,
            )
        }
        WeekdayState::Range => done(Cut::Day, days(led), class),
        WeekdayState::Open => number_or_dash(
            State::Weekday(WeekdayState::Number, led),
            State::Weekday(WeekdayState::NumberDash, led),
            class,
        ),
        WeekdayState::NumberDash => number(State::Weekday(WeekdayState::NumberEnd, led), class),
        WeekdayState::Number => match class {
            Class::Dash => push(State::Weekday(WeekdayState::NumberDash, led)),
            _ => in_brackets(led, class),
        },
        WeekdayState::NumberEnd => in_brackets(led, class),
        WeekdayState::Close => sign_or_done(
            State::Weekday(WeekdayState::Sign, led),
            Cut::Day,
            days(led),
            class,
        ),
        WeekdayState::Sign => offset(State::Weekday(WeekdayState::Days, led), class),
        WeekdayState::Days => only(Class::Day, State::Weekday(WeekdayState::Offset, led), class),
        WeekdayState::Offset => done(Cut::Day, days(led), class),
    }
}

// A month before a weekday that is no end of a range is a part by itself.
fn falls_apart(apart: bool, state: WeekdayState, class: Class) -> Result<Step, Wrong>
    ensures { result ≡ machine.falls_apart apart state class }
{
    if apart {
        with_cut(Cut::Before, at_weekday(state, false, class))
    } else {
        Err(Wrong::Unexpected)
    }
}

fn close_or_apart(apart: bool, state: WeekdayState, class: Class) -> Result<Step, Wrong>
    ensures { result ≡ machine.close_or_apart apart state class }
{
    match class {
        Class::Close => push(State::Place(PlaceState::Close, apart)),
        _ => falls_apart(apart, state, class),
    }
}

pub(crate) fn at_place(state: PlaceState, apart: bool, class: Class) -> Result<Step, Wrong>
    ensures { result ≡ machine.at_place state apart class }
{
    match state {
        PlaceState::Weekday => match class {
            Class::Open => push(State::Place(PlaceState::Open, apart)),
            _ => falls_apart(apart, WeekdayState::Weekday, class),
        },
        PlaceState::Open => number_or_dash(
            State::Place(PlaceState::Number, apart),
            State::Place(PlaceState::Back, apart),
            class,
        ),
        PlaceState::Back => number(State::Place(PlaceState::NumberBack, apart), class),
        PlaceState::Number => close_or_apart(apart, WeekdayState::Number, class),
        PlaceState::NumberBack => close_or_apart(apart, WeekdayState::NumberEnd, class),
        PlaceState::Close => match class {
            Class::Dash => push(State::Place(PlaceState::Dash, apart)),
            Class::Plus => push(State::Place(PlaceState::Plus, apart)),
            _ => falls_apart(apart, WeekdayState::Close, class),
        },
        PlaceState::Plus => offset(State::Place(PlaceState::Days, apart), class),
        PlaceState::Dash => offset_or_end(State::Place(PlaceState::Days, apart), class),
        PlaceState::Days => only(Class::Day, State::Place(PlaceState::Offset, apart), class),
        PlaceState::Offset => match class {
            Class::Dash => push(State::Last(LastState::OffsetDash)),
            _ => falls_apart(apart, WeekdayState::Offset, class),
        },
    }
}

pub(crate) fn at_time(state: TimeState, class: Class) -> Result<Step, Wrong>
    ensures { result ≡ machine.at_time state class }
{
    match state {
        TimeState::First => match class {
            Class::Dash => push(State::Time(TimeState::Dash)),
            Class::Plus => push(State::Time(TimeState::End)),
            _ => done(Cut::Time, Stage::Times, class),
        },
        TimeState::Paren => only(Class::Event, State::Time(TimeState::Event), class),
        TimeState::Event => sign(State::Time(TimeState::Sign), class),
        TimeState::Sign => only(Class::Time, State::Time(TimeState::Offset), class),
        TimeState::Offset => only(Class::Unparen, State::Time(TimeState::First), class),
        TimeState::Dash => match class {
            Class::Time => push(State::Time(TimeState::Range)),
            Class::Event => push(State::Time(TimeState::Range)),
            _ => only(Class::Paren, State::Time(TimeState::LastParen), class),
        },
        TimeState::LastParen => only(Class::Event, State::Time(TimeState::LastEvent), class),
        TimeState::LastEvent => sign(State::Time(TimeState::LastSign), class),
        TimeState::LastSign => only(Class::Time, State::Time(TimeState::LastOffset), class),
        TimeState::LastOffset => only(Class::Unparen, State::Time(TimeState::Range), class),
        TimeState::Range => match class {
            Class::Plus => push(State::Time(TimeState::End)),
            Class::Slash => push(State::Time(TimeState::Slash)),
            Class::Time => missing(State::Time(TimeState::First)),
            Class::Event => missing(State::Time(TimeState::First)),
            Class::Paren => missing(State::Time(TimeState::Paren)),
            _ => done(Cut::Time, Stage::Times, class),
        },
        TimeState::Slash => match class {
            Class::Time => push(State::Time(TimeState::End)),
            _ => number(State::Time(TimeState::End), class),
        },
        TimeState::End => done(Cut::Time, Stage::Times, class),
    }
}
