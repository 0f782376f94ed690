//! Whether a table of holidays says all that selectors need.

ghost use Rattle.std.specs.Prelude.{◌≡◌, Some, MatchOption};
ghost use Rattle.gtd_hours_holidays.specs.declared.row.HolidayKind.{HolidayKind};
ghost use Rattle.gtd_hours_days.specs.Listed.{CoversAll, CoversYears, IsFirstUncovered, IsUncovered, kind_of};

use crate::listed::Listed;
use crate::repeats::Latest;
use gtd_hours_holidays::{HolidayKind, Holidays, KnownYears};

/// A day that matters, and on which a table of holidays does not say all of them.
#[derive(Clone, Copy, Debug, PartialEq, Eq)]
pub struct Uncovered {
    /// The place of the selector for which it matters, from 0.
    pub place: usize,
    /// The first such day.
    pub day: i64,
}

// The kind of holidays that a selector is of.
fn kind_in(listed: Listed) -> Option<HolidayKind>
    ensures { result ≡ kind_of listed }
{
    match listed {
        Listed::Public { offset: _ } => Some(HolidayKind::Public),
        Listed::School => Some(HolidayKind::School),
        Listed::Easter(_) => None,
    }
}

// The first day of the years on which a table does not say all holidays of a kind.
fn first_of_kind(holidays: &Holidays, years: KnownYears, kind: HolidayKind) -> Option<i64>
    ensures { MatchOption result (CoversYears holidays.now.rows.items years (Some kind))
        (IsFirstUncovered holidays.now.rows.items years kind) }
{
    match holidays.first_uncovered(kind, years.first_day(), years.last_day()) {
        Some(day) => Some(day),
        None => None,
    }
}

// The first day of the years on which a table does not say all holidays that a selector needs.
fn first_for(holidays: &Holidays, years: KnownYears, listed: Listed) -> Option<i64>
    ensures { MatchOption result (CoversYears holidays.now.rows.items years (kind_of listed))
        (λ day. (kind : HolidayKind) × (kind_of listed ≡ Some kind)
        × IsFirstUncovered holidays.now.rows.items years kind day) }
{
    match kind_in(listed) {
        Some(kind) => first_of_kind(holidays, years, kind),
        None => None,
    }
}

/// The first selector for which a table does not say all holidays of the years, and the first day on which it does not; `None`
/// exactly if it says all for each. Takes no memory.
pub fn first_uncovered(
    holidays: &Holidays,
    years: KnownYears,
    listed: &[Listed],
) -> Option<Uncovered>
    ensures first { MatchOption result (CoversAll holidays.now.rows.items years listed.now)
        (λ found. IsUncovered holidays.now.rows.items years listed.now found.place found.day) }
{
    let mut latest = Latest::new();
    for place in 0..listed.len() {
        if latest.is_repeated(listed, place) {
            continue;
        }
        match first_for(holidays, years, listed[place]) {
            Some(day) => return Some(Uncovered { place, day }),
            None => {}
        }
    }
    None
}
