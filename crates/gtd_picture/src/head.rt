//! The lines before and after those of the days.

ghost use Rattle.std.specs.Prelude.{◌≡◌, ◌++◌, ◌≤◌, OnOk, pos};
ghost use Rattle.std.specs.Int.{IsInRange};
ghost use Rattle.gtd_picture.specs.Picture.{foot_text, head_text, hour_text, hours_text, key_text, month_text, plot_text};
ghost use Rattle.gtd_picture.specs.Picture.{tick_text, ticks_text, top_text};
ghost use Rattle.gtd_report.specs.Run.{IsTableYear};

use crate::words::{month_name, write_label, write_number, write_title, write_two_digits};
use gtd_calendar::days_before_month;
use std::alloc::AllocError;

/// What stands before the title.
const OPENING: &[u8] = b"<svg xmlns='http://www.w3.org/2000/svg' viewBox='0 0 1242 600' \
font-family='system-ui,sans-serif' font-size='14'><title>";

/// What stands between the title and the title that is shown: the colours on a light page and on a dark one.
const STYLE: &[u8] =
    b"</title><style>.page{fill:#fff}text{fill:#222}.out{fill:#d9d9d9}.in{fill:#0072b2}\
.weekend .out{fill:#c4c4c4}.weekend .in{fill:#004c77}.line{fill:#000;fill-opacity:.35}.tick{font-size:11px}\
@media(prefers-color-scheme:dark){.page{fill:#16181c}text{fill:#ddd}.out{fill:#3a3d44}.in{fill:#56b4e9}\
.weekend .out{fill:#26282e}.weekend .in{fill:#3f96c9}.line{fill:#fff;fill-opacity:.4}}\
</style><path class='page' d='M0 0h1242v600h-1242z'/><text x='72' y='44' font-size='18'>";

/// What follows the title that is shown.
const TITLE_END: &[u8] = b"</text><g text-anchor='end'>";

/// What the colour of seconds in the set means.
const INSIDE_KEY: &[u8] = b"</g><path class='in' d='M72 566h24v14h-24z'/><text x='104' y='578'>";

/// What the colour of other seconds means.
const OUTSIDE_KEY: &[u8] =
    b"</text><path class='out' d='M272 566h24v14h-24z'/><text x='304' y='578'>";

/// What the colours of a weekend mean.
const WEEKEND_KEY: &[u8] = b"</text><g class='weekend'><path class='in' d='M472 566h12v14h-12z'/>\
<path class='out' d='M484 566h12v14h-12z'/></g><text x='504' y='578'>Saturday, Sunday</text>";

/// The lines at 6, 12 and 18 hours, and the end of the plot.
const PLOT_END: &[u8] =
    b"<path class='line' d='M0 21500h366v200h-366zM0 43100h366v200h-366zM0 64700h366v200h-366z'/></svg>";

// Writes the title, whole and as it is shown, after what the buffer has.
fn write_top(line: &mut Vec<u8>, title: &[u8]) -> Result<(), AllocError>
    ensures top { OnOk result (line.new.items ≡ line.old.items ++ top_text title.now) }
{
    line.extend_from_slice(OPENING)?;
    write_label(line, title, STYLE)?;
    write_title(line, title, TITLE_END)?;
    Ok(())
}

// Writes the label of an hour after what the buffer has.
fn write_hour(line: &mut Vec<u8>, hour: u8) -> Result<(), AllocError>
    requires few { hour ≤ 24 }
    ensures hour { OnOk result (line.new.items ≡ line.old.items ++ hour_text hour) }
{
    line.extend_from_slice(b"<text x='64' y='")?;
    write_number(line, 101 + 18 * u32::from(hour))?;
    line.extend_from_slice(b"'>")?;
    write_two_digits(line, hour)?;
    line.extend_from_slice(b":00</text>")?;
    Ok(())
}

// Writes the labels of 0, 6, 12, 18 and 24 hours after what the buffer has.
fn write_hours(line: &mut Vec<u8>) -> Result<(), AllocError>
    ensures hours { OnOk result (line.new.items ≡ line.old.items ++ hours_text 5) }
{
    for count in 0u8..5 {
        write_hour(line, 6 * count)?;
    }
    Ok(())
}

// Writes what the colours mean after what the buffer has.
fn write_key(line: &mut Vec<u8>, inside: &[u8], outside: &[u8]) -> Result<(), AllocError>
    ensures key { OnOk result (line.new.items ≡ line.old.items ++ key_text inside.now outside.now) }
{
    line.extend_from_slice(INSIDE_KEY)?;
    write_label(line, inside, OUTSIDE_KEY)?;
    write_label(line, outside, WEEKEND_KEY)?;
    Ok(())
}

// Writes the frame of a plot of so many columns after what the buffer has.
fn write_plot(line: &mut Vec<u8>, days: u16) -> Result<(), AllocError>
    ensures plot { OnOk result (line.new.items ≡ line.old.items ++ plot_text days) }
{
    line.extend_from_slice(b"<svg x='72' y='96' width='")?;
    write_number(line, 3 * u32::from(days))?;
    line.extend_from_slice(b"' height='432' viewBox='0 0 ")?;
    write_number(line, u32::from(days))?;
    line.extend_from_slice(b" 86400' preserveAspectRatio='none' shape-rendering='crispEdges'>\n")?;
    Ok(())
}

/// Writes the line before the days, in place of what the buffer had.
pub(crate) fn write_head(
    line: &mut Vec<u8>,
    title: &[u8],
    inside: &[u8],
    outside: &[u8],
    days: u16,
) -> Result<(), AllocError>
    ensures head { OnOk result (line.new.items ≡ head_text title.now inside.now outside.now days) }
{
    line.clear();
    write_top(line, title)?;
    write_hours(line)?;
    write_key(line, inside, outside)?;
    write_plot(line, days)?;
    Ok(())
}

// Writes the label of a day of a month after what the buffer has.
fn write_tick(line: &mut Vec<u8>, day: u8) -> Result<(), AllocError>
    requires day { IsInRange 1 31 day }
    ensures tick { OnOk result (line.new.items ≡ line.old.items ++ tick_text day) }
{
    line.extend_from_slice(b"<text class='tick' x='")?;
    write_number(line, 3 * u32::from(day - 1))?;
    line.extend_from_slice(b"' y='542'>")?;
    write_number(line, u32::from(day))?;
    line.extend_from_slice(b"</text>")?;
    Ok(())
}

// Writes the labels of the days 1, 10 and 20 of a month after what the buffer has.
fn write_ticks(line: &mut Vec<u8>) -> Result<(), AllocError>
    ensures ticks { OnOk result (line.new.items ≡ line.old.items ++ ticks_text) }
{
    line.extend_from_slice(b"</text>")?;
    write_tick(line, 1)?;
    write_tick(line, 10)?;
    write_tick(line, 20)?;
    line.extend_from_slice(b"</g>")?;
    Ok(())
}

// Writes the line, the name and the days of a month after what the buffer has.
fn write_month(line: &mut Vec<u8>, month: u8, place: u16) -> Result<(), AllocError>
    ensures month { OnOk result (line.new.items ≡ line.old.items ++ month_text month place) }
{
    line.extend_from_slice(b"<g transform='translate(")?;
    write_number(line, 72 + 3 * u32::from(place))?;
    line.extend_from_slice(b" 0)'><path class='line' d='M0 72h1v456h-1z'/><text x='6' y='88'>")?;
    line.extend_from_slice(month_name(month).as_bytes())?;
    write_ticks(line)?;
    Ok(())
}

/// Writes the line after the days, in place of what the buffer had.
pub(crate) fn write_foot(line: &mut Vec<u8>, year: u16) -> Result<(), AllocError>
    requires year { IsTableYear year }
    ensures foot { OnOk result (line.new.items ≡ foot_text (pos year)) }
{
    line.clear();
    line.extend_from_slice(PLOT_END)?;
    for before in 0u8..12 {
        let place = days_before_month(year, before + 1);
        write_month(line, before + 1, place)?;
    }
    line.extend_from_slice(b"</svg>\n")
}
