//! The lines of a schedule.

ghost use Rattle.std.specs.Prelude.{◌≡◌, ◌*◌, ◌%◌, ◌++◌, ◌≤◌, ℕ, List, codes, length, take, drop, OnOk, IfOk};
ghost use Rattle.gtd_calendar.specs.Calendar.{IsCalendarDay, month_length};
ghost use Rattle.gtd_calendar.specs.Clock.{second_of_day};
ghost use Rattle.gtd_calendar.specs.ComputedDates.{day_of_month, month_of, year_of};
ghost use Rattle.gtd_calendar.specs.Stamp.{stamp_text};
ghost use Rattle.gtd_core.specs.Seconds.{day_of_second};
ghost use Rattle.gtd_schedule.specs.Lines.{line_head, span_text};
ghost use Rattle.gtd_schedule.specs.Moments.{AreMoments, first_second};

use crate::moment::{Month, Shown, write_moment};
use crate::months::Months;
use gtd_core::{Sec, Span};
use gtd_rows::Direction;
use itoa::Buffer;
use std::alloc::AllocError;

// Writes what the lines of an element in a direction begin with, in place of what the buffer held.
pub(crate) fn write_head(
    line: &mut Vec<u8>,
    element: u64,
    direction: Direction,
    vehicle: u8,
) -> Result<(), AllocError>
    ensures head { OnOk result (line.new.items ≡ line_head element direction vehicle) }
{
    line.clear();
    line.extend_from_slice(Buffer::new().format(element).as_bytes())?;
    line.extend_from_slice(match direction {
        Direction::Positive => b",positive,".as_slice(),
        Direction::Negative => b",negative,".as_slice(),
    })?;
    line.extend_from_slice(Buffer::new().format(vehicle).as_bytes())?;
    line.extend_from_slice(b",")
}

/// What the two moments of a line show.
#[derive(Clone, Copy)]
pub(crate) struct ShownSpan {
    pub(crate) from: Shown,
    pub(crate) until: Shown,
}

/// The two moments over which the first line of an element in a direction is written. Both are of one second: mostly lines
/// begin in its month, of which the date is then not computed.
#[derive(Drop)]
pub(crate) struct FirstMoments {
    pub(crate) bytes: [u8; 40],
    pub(crate) shown: Shown,
    pub(crate) second: Sec,
    ghost day: { IsCalendarDay (day_of_second second.0) },
    ghost begins: { shown.month.begins ≡ first_second (day_of_second second.0) (day_of_month (day_of_second second.0)) },
    ghost reached: { shown.month.seconds
        ≤ 86400 * month_length (year_of (day_of_second second.0)) (month_of (day_of_second second.0)) },
    ghost clock: { shown.clock ≡ second_of_day second.0 },
    ghost past_hour: { shown.past_hour ≡ second_of_day second.0 % 3600 },
    ghost is: { bytes ≡ stamp_text second.0 ++ codes "," ++ stamp_text second.0 ++ codes "\n" },
}

impl FirstMoments {
    // Those of a second.
    pub(crate) fn of(second: Sec, months: &Months) -> FirstMoments
        requires day { IsCalendarDay (day_of_second second.0) }
    {
        let mut bytes = *b"1970-01-01T00:00:00,1970-01-01T00:00:00\n";
        let month = Month {
            begins: 0,
            seconds: 31 * 86_400,
        };
        let mut shown = Shown {
            month,
            clock: 0,
            past_hour: 0,
        };
        let mut same = shown;
        let (from, until) = bytes.split_at_mut(20);
        write_moment(from, &mut shown, months, second);
        write_moment(until, &mut same, months, second);
        FirstMoments {
            bytes,
            shown,
            second,
        }
    }
}

// Writes the first moments after the head of a line.
pub(crate) fn write_first_moments(
    line: &mut Vec<u8>,
    first: &FirstMoments,
) -> Result<ShownSpan, AllocError>
    ensures line { IfOk result (λ shown. (moments : List ℕ)
        × (line.new.items ≡ line.old.items ++ moments) × AreMoments shown moments) }
{
    line.extend_from_slice(&first.bytes)?;
    Ok(ShownSpan {
        from: first.shown,
        until: first.shown,
    })
}

// Writes a span over the two moments after the head of its line, which has so many bytes.
#[inline(always)]
pub(crate) fn write_span(
    line: &mut Vec<u8>,
    head: usize,
    shown: &mut ShownSpan,
    months: &Months,
    span: Span,
)
    requires head { head ≤ length line.old.items }
    requires shown { AreMoments shown.old (drop head line.old.items) }
    requires from { IsCalendarDay (day_of_second span.from) }
    requires until { IsCalendarDay (day_of_second span.until) }
    ensures line { line.new.items ≡ take head line.old.items ++ span_text span }
    ensures shown { AreMoments shown.new (span_text span) }
{
    let (_, moments) = line.as_mut_slice().split_at_mut(head);
    let (from, until) = moments.split_at_mut(20);
    write_moment(from, &mut shown.from, months, span.from());
    write_moment(until, &mut shown.until, months, span.until());
}
