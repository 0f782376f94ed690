//! The limits of the profile, each under its one name. A day is given by its number; 1970-01-01 is day 0.

/// The seconds of a day.
pub const DAY_SECONDS: i64 = 86_400;

/// The last second of a day, of which the first is 0.
pub const LAST_SECOND_OF_DAY: u32 = 86_399;

/// The first day of horizons, of moments and of dates that are read: 1901-01-01.
pub const FIRST_HORIZON_DAY: i64 = -25_202;

/// The latest end of a horizon, and the last date that is read: 2700-01-01.
pub const HORIZONS_END: i64 = 266_627;

/// The most days of a horizon: one more than 400 years have.
pub const MOST_HORIZON_DAYS: i64 = 146_098;

/// The first moment: 1901-01-01T00:00:00.
pub const FIRST_MOMENT: i64 = -2_177_452_800;

/// The last moment: 2199-12-31T23:59:59.
pub const LAST_MOMENT: i64 = 7_258_118_399;

/// The greatest bound of a stretch, in seconds: 36,600 days.
pub const MOST_BOUND: u64 = 3_162_240_000;

/// The most basic domains of a domain, and of parentheses in a text.
pub const MOST_BASIC_DOMAINS: u8 = 128;

/// The greatest depth of brackets in a text.
pub const MOST_DEPTH: u8 = 128;

/// The most bytes of a record file.
pub const MOST_FILE_BYTES: usize = 16_777_216;

/// The most rows of a record file, not counting its header.
pub const MOST_ROWS: u32 = 65_536;
