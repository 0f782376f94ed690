//! What rules leave open, as it is given.

ghost use Rattle.std.specs.Prelude.{◌≤◌};
ghost use Rattle.gtd_hours_plain2.specs.Numbers.{given_or};

/// What is given of days.
#[derive(Clone, Copy, Debug)]
pub struct GivenDays {
    /// Whether a table says for some day which public holidays there are.
    pub has_public: bool,
    /// Whether a table says for some day which school holidays there are.
    pub has_school: bool,
    /// Whether the years are given in which holidays and Easter are known.
    pub has_years: bool,
}

/// What is given for open ends, for points of time, and for events of the sun.
#[derive(Clone, Copy, Debug)]
pub struct GivenTimes {
    /// At which minute of the day an open end is, 2880 at most: from 1440 on that is on the next day.
    pub open_end: Option<u16>,
    /// How many minutes a point of time lasts, 1 to 1440.
    pub points: Option<u16>,
    /// The minute of the day of `sunrise`, 1440 at most.
    pub sunrise: Option<u16>,
    /// The minute of the day of `sunset`, 1440 at most.
    pub sunset: Option<u16>,
    /// The minute of the day of `dawn`, 1440 at most.
    pub dawn: Option<u16>,
    /// The minute of the day of `dusk`, 1440 at most.
    pub dusk: Option<u16>,
    pub ghost open_end_in: { given_or 0 open_end ≤ 2880 },
    pub ghost some_points: { 1 ≤ given_or 1 points },
    pub ghost points_in: { given_or 1 points ≤ 1440 },
    pub ghost sunrise_in: { given_or 0 sunrise ≤ 1440 },
    pub ghost sunset_in: { given_or 0 sunset ≤ 1440 },
    pub ghost dawn_in: { given_or 0 dawn ≤ 1440 },
    pub ghost dusk_in: { given_or 0 dusk ≤ 1440 },
}
