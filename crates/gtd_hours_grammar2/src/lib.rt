//! The grammar of opening hours of OpenStreetMap, as one machine over classes of tokens.
//!
//! `next` says what a token of a class does in a state, and does exactly what the table of `specs/Machine.antt` says. Each
//! beginning that has no fault can go on, so a first fault is where the longest beginning of any text ends.
#![tactic(auto)]

mod class;
mod laws;
mod machine;
mod parts;
mod state;
mod step;
mod table;

pub use class::Class;
pub use laws::each_beginning_goes_on;
pub use machine::{accepted, next};
pub use state::{
    AlwaysState, DateState, EasterState, HolidayState, LastState, MonthState, PlaceState, Stage,
    State, TimeState, WeekState, WeekdayState, YearState,
};
pub use step::{Cut, Step, Way, Wrong};
