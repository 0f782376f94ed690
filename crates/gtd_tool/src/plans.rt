//! What a command line asks for.

ghost use Rattle.gtd_core.specs.Seconds.{Within, IsMomentSecond};
ghost use Rattle.gtd_core.specs.Whole.{whole};

use gtd_core::{Domain, Horizon, Sec};
use gtd_roads::Direction;

/// A moment: a second from 1901-01-01T00:00:00 to 2199-12-31T23:59:59.
#[derive(Clone, Copy, Debug, PartialEq, Eq)]
pub struct Moment {
    /// Its second.
    pub second: Sec,
    pub ghost in_range: { IsMomentSecond second.0 },
}

/// A moment, and a horizon that contains it.
#[derive(Clone, Copy, Debug, PartialEq, Eq)]
pub struct MomentInHorizon {
    /// Its second.
    pub second: Sec,
    /// The days that are asked for.
    pub horizon: Horizon,
    pub ghost inside: { Within (whole horizon) second.0 },
}

/// What a command line asks for, with each of its words read.
#[derive(Debug, Drop)]
pub enum Plan {
    /// To say that a text is a domain.
    Check(Domain),
    /// To print a domain's canonical text.
    Canon(Domain),
    /// To say whether a domain contains a moment.
    At {
        /// The domain.
        domain: Domain,
        /// The moment.
        moment: Moment,
    },
    /// To print the first change of a domain after a moment, in a horizon that begins on the moment's day.
    Next {
        /// The domain.
        domain: Domain,
        /// The moment and the horizon.
        moment: MomentInHorizon,
    },
    /// To print the first change of a domain after a moment, however late.
    Ever {
        /// The domain.
        domain: Domain,
        /// The moment.
        moment: Moment,
    },
    /// To print the schedule of a record file.
    Schedule {
        /// The file's path.
        file: String,
        /// The days of the schedule.
        horizon: Horizon,
        /// The vehicle type, or 255 if a greater number was given.
        vehicle: u8,
    },
    /// To print the table of a year for an element of a record file.
    Year {
        /// The file's path.
        file: String,
        /// The element's number.
        element: u64,
        /// The direction.
        direction: Direction,
        /// The vehicle type, or 255 if a greater number was given.
        vehicle: u8,
        /// The year, or 65,535 if a greater number was given.
        year: u16,
    },
    /// To print a record file as one of version 2.
    Migrate {
        /// The file's path.
        file: String,
    },
}

impl Plan {
    ghost use Rattle.std.specs.Prelude.{◌≡◌, option_map};
    ghost use Rattle.gtd_tool.specs.Commands.{file_of};
    ghost use Rattle.gtd_tool.specs.Plans.{asked_by};

    /// The path of the record file that is to be opened, if the plan reads one.
    pub fn file(&self) -> Option<&str>
        ensures value { option_map (λ path. path.now) result ≡ file_of (asked_by self.now) }
    {
        match self {
            Plan::Schedule { file, .. } => Some(file.as_str()),
            Plan::Year { file, .. } => Some(file.as_str()),
            Plan::Migrate { file } => Some(file.as_str()),
            _ => None,
        }
    }
}
