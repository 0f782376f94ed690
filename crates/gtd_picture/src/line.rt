//! The line of a day.

ghost use Rattle.std.specs.Prelude.{◌≡◌, ◌++◌, ◌↔◌, ◌≤◌, ◌≤ℤ◌, ◌+ℤ◌, ◌-ℤ◌, ◌*ℤ◌, ℤ, pos, List, OnOk, codes};
ghost use Rattle.std.specs.Prelude.{flat_map, unsigned_abs};
ghost use Rattle.gtd_core.specs.Limits.{day_seconds};
ghost use Rattle.gtd_calendar.specs.Calendar.{IsCalendarDay, weekday_of};
ghost use Rattle.gtd_calendar.specs.Stamp.{date_text};
ghost use Rattle.gtd_picture.specs.Picture.{IsColumn, Rect, day_head, day_line, rect_text, whole_column};
ghost use Rattle.gtd_picture.specs.Picture as spec;
ghost use Rattle.gtd_picture.specs.Words as words;
ghost use Rattle.gtd_spans.specs.Normal.{Holds};

use crate::words::{weekday_name, write_number};
use gtd_calendar::{weekday, write_date};
use gtd_core::Sec;
use gtd_core::limits::DAY_SECONDS;
use gtd_spans::{ByDay, SpanSource};
use std::alloc::AllocError;

// How far a second is after another, of which it is not before and at most a day after.
fn distance(from: i64, to: i64) -> u32
    requires order { from ≤ℤ to }
    requires near { to ≤ℤ (from +ℤ pos day_seconds) }
    ensures value { result ≡ unsigned_abs (to -ℤ from) }
    ensures few { result ≤ day_seconds }
{
    (to - from) as u32
}

// Writes a rectangle after what the buffer has.
fn write_rect(line: &mut Vec<u8>, x: u32, y: u32, height: u32) -> Result<(), AllocError>
    ensures rect { OnOk result (line.new.items
        ≡ line.old.items ++ rect_text (record { x = x; y = y; height = height })) }
{
    line.extend_from_slice(b"M")?;
    write_number(line, x)?;
    line.extend_from_slice(b" ")?;
    write_number(line, y)?;
    line.extend_from_slice(b"h1v")?;
    write_number(line, height)?;
    line.extend_from_slice(b"h-1z")
}

// Whether the day is a Saturday or a Sunday.
fn is_weekend(day: i64) -> bool
    requires day { IsCalendarDay day }
    ensures value { result ≡ spec.is_weekend (weekday_of day) }
{
    let weekday = weekday(day);
    weekday == 1 || weekday == 7
}

// What a day begins with, by whether it is on a weekend.
fn group_text(weekend: bool) -> &'static [u8]
    ensures text { result.now ≡ spec.group_text weekend }
{
    if weekend {
        b"<g class='weekend'><title>"
    } else {
        b"<g><title>"
    }
}

// Writes the date and the weekday of a day, in place of what the buffer had.
fn write_name(line: &mut Vec<u8>, day: i64) -> Result<(), AllocError>
    requires day { IsCalendarDay day }
    ensures name { OnOk result (line.new.items ≡ spec.group_text (spec.is_weekend (weekday_of day))
        ++ date_text day ++ codes " " ++ words.weekday_name (weekday_of day)) }
{
    line.clear();
    line.extend_from_slice(group_text(is_weekend(day)))?;
    line.extend_from_slice(&write_date(day))?;
    line.extend_from_slice(b" ")?;
    line.extend_from_slice(weekday_name(day).as_bytes())?;
    Ok(())
}

// Writes the whole of a day's column after what the buffer has.
fn write_column(line: &mut Vec<u8>, place: u16) -> Result<(), AllocError>
    ensures column { OnOk result (line.new.items ≡ line.old.items ++ (codes "</title><path class='out' d='"
        ++ rect_text (whole_column place) ++ codes "'/><path class='in' d='")) }
{
    line.extend_from_slice(b"</title><path class='out' d='")?;
    write_rect(line, u32::from(place), 0, 86_400)?;
    line.extend_from_slice(b"'/><path class='in' d='")?;
    Ok(())
}

// Writes what the line of a day begins with, in place of what the buffer had.
fn write_day_head(line: &mut Vec<u8>, day: i64, place: u16) -> Result<(), AllocError>
    requires day { IsCalendarDay day }
    ensures head { OnOk result (line.new.items ≡ day_head day place) }
{
    write_name(line, day)?;
    write_column(line, place)?;
    Ok(())
}

// Writes the rectangles of the seconds to come that are on a day after what the buffer has.
fn write_rects<S: SpanSource>(
    line: &mut Vec<u8>,
    seconds: &mut ByDay<S>,
    day: i64,
    place: u16,
) -> Result<(), AllocError>
    requires day { IsCalendarDay day }
    ensures rects { OnOk result ((column : List Rect) × IsColumn (Holds seconds.old) day place column
        × (line.new.items ≡ line.old.items ++ flat_map rect_text column)) }
    ensures later { OnOk result ((t : ℤ) → ((day +ℤ pos 1) *ℤ pos day_seconds) ≤ℤ t
        → Holds seconds.old t ↔ Holds seconds.new t) }
{
    let midnight = day * DAY_SECONDS;
    while let Some(part) = seconds.next_on_day(Sec(midnight)) {
        let y = distance(midnight, part.from().0);
        let height = distance(part.from().0, part.until().0);
        write_rect(line, u32::from(place), y, height)?;
    }
    Ok(())
}

/// Writes the line of a day, in place of what the buffer had. Its seconds to come are then used up.
pub(crate) fn write_day<S: SpanSource>(
    line: &mut Vec<u8>,
    seconds: &mut ByDay<S>,
    day: i64,
    place: u16,
) -> Result<(), AllocError>
    requires day { IsCalendarDay day }
    ensures line { OnOk result ((column : List Rect) × IsColumn (Holds seconds.old) day place column
        × (line.new.items ≡ day_line day place column)) }
    ensures later { OnOk result ((t : ℤ) → ((day +ℤ pos 1) *ℤ pos day_seconds) ≤ℤ t
        → Holds seconds.old t ↔ Holds seconds.new t) }
{
    write_day_head(line, day, place)?;
    write_rects(line, seconds, day, place)?;
    line.extend_from_slice(b"'/></g>\n")?;
    Ok(())
}
