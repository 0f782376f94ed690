//! Basic domains of days: from what clock each day is reckoned, and which of them a start and a duration give.
//!
//! An expression of these is united, met or reduced by others with `join`, whose basic domains are those of both.
#![tactic(auto)]

pub use clock::Clock;
pub use leaves::{
    NO_DURATION, NO_PARTS, clock_at, copied, each_clock, each_day, each_days, join, leaf, nothing,
    or_nothing, unite,
};
pub use numbers::{MOST_YEARS, unite_years, week_days, year_days, year_run};

mod clock;
mod leaves;
mod level;
mod numbers;
