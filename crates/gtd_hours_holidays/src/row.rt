//! What a row of a table says.

ghost use Rattle.gtd_calendar.specs.Calendar.{IsCalendarDay};
ghost use Rattle.std.proofs.Props.{props};

/// A kind of holidays.
#[derive(Clone, Copy, Debug, PartialEq, Eq)]
pub enum HolidayKind {
    /// Public holidays, `PH`.
    Public,
    /// School holidays, `SH`.
    School,
}

/// What a row of a table says of its days.
#[derive(Clone, Copy)]
pub struct HolidayRow {
    /// The first day, counted from 1970-01-01.
    pub first: i64,
    /// The last day, which is included.
    pub last: i64,
    /// The kind of holidays.
    pub kind: HolidayKind,
    /// `true`: all holidays of this kind on these days are in the table. `false`: these days are holidays of this kind.
    pub covers: bool,
    pub ghost first_in: { IsCalendarDay first } by { Prim.hlevel props },
    pub ghost last_in: { IsCalendarDay last } by { Prim.hlevel props },
}
