//! The words of a picture. Each is written after what the buffer has.

ghost use Rattle.std.specs.Prelude.{◌≡◌, ◌++◌, ◌<◌, OnOk, codes, decimal};
ghost use Rattle.gtd_calendar.specs.Calendar.{IsCalendarDay, weekday_of};
ghost use Rattle.gtd_calendar.specs.Stamp as stamp;
ghost use Rattle.gtd_picture.specs.Words.{label_text, title_text};
ghost use Rattle.gtd_picture.specs.Words as words;

use gtd_calendar::weekday;
use itoa::Buffer;
use std::alloc::AllocError;

/// How many bytes of a title are shown.
const TITLE_ROOM: usize = 100;

/// Writes a number in decimal.
pub(crate) fn write_number(line: &mut Vec<u8>, value: u32) -> Result<(), AllocError>
    ensures number { OnOk result (line.new.items ≡ line.old.items ++ decimal value) }
{
    line.extend_from_slice(Buffer::new().format(value).as_bytes())
}

// Whether a byte is printable ASCII, and no backslash.
fn is_plain(byte: u8) -> bool
    ensures value { result ≡ words.is_plain byte }
{
    byte > 31 && byte < 127 && byte != b'\\'
}

// The digit of a number below 16.
fn hex_digit(value: u8) -> u8
    requires small { value < 16 }
    ensures digit { result ≡ words.hex_digit value }
{
    if value < 10 {
        b'0' + value
    } else {
        b'a' + (value - 10)
    }
}

// Writes a printable character.
fn write_plain(line: &mut Vec<u8>, byte: u8) -> Result<(), AllocError>
    ensures text { OnOk result (line.new.items ≡ line.old.items ++ words.xml_text byte) }
{
    match byte {
        b'&' => line.extend_from_slice(b"&amp;"),
        b'<' => line.extend_from_slice(b"&lt;"),
        b'>' => line.extend_from_slice(b"&gt;"),
        _ => line.extend_from_slice(&[byte]),
    }
}

// Writes a byte of the caller's words.
fn write_byte(line: &mut Vec<u8>, byte: u8) -> Result<(), AllocError>
    ensures text { OnOk result (line.new.items ≡ line.old.items ++ words.escape byte) }
{
    if is_plain(byte) {
        return write_plain(line, byte);
    }
    line.extend_from_slice(&[b'\\', b'x', hex_digit(byte / 16), hex_digit(byte % 16)])
}

/// Writes the caller's words, and what follows them.
pub(crate) fn write_label(line: &mut Vec<u8>, words: &[u8], after: &[u8]) -> Result<(), AllocError>
    ensures label { OnOk result (line.new.items ≡ line.old.items ++ label_text words.now after.now) }
{
    for byte in words {
        write_byte(line, *byte)?;
    }
    line.extend_from_slice(after)
}

// Writes the first part of a title that is too long, and what follows it.
fn write_cut(line: &mut Vec<u8>, part: &[u8], after: &[u8]) -> Result<(), AllocError>
    ensures label { OnOk result (line.new.items
        ≡ line.old.items ++ label_text part.now (codes "..." ++ after.now)) }
{
    write_label(line, part, b"...")?;
    line.extend_from_slice(after)?;
    Ok(())
}

/// Writes a title as it is shown, and what follows it.
pub(crate) fn write_title(line: &mut Vec<u8>, title: &[u8], after: &[u8]) -> Result<(), AllocError>
    ensures title { OnOk result (line.new.items ≡ line.old.items ++ title_text title.now after.now) }
{
    if title.len() > TITLE_ROOM {
        write_cut(line, &title[..TITLE_ROOM], after)
    } else {
        write_label(line, title, after)
    }
}

/// Writes a number below 100 with two digits.
pub(crate) fn write_two_digits(line: &mut Vec<u8>, value: u8) -> Result<(), AllocError>
    ensures digits { OnOk result (line.new.items ≡ line.old.items ++ stamp.two_digits value) }
{
    line.extend_from_slice(&[b'0' + value / 10 % 10, b'0' + value % 10])
}

/// The name of a day's weekday.
pub(crate) fn weekday_name(day: i64) -> &'static str
    requires day { IsCalendarDay day }
    ensures name { result.now ≡ words.weekday_name (weekday_of day) }
{
    match weekday(day) {
        1 => "Sunday",
        2 => "Monday",
        3 => "Tuesday",
        4 => "Wednesday",
        5 => "Thursday",
        6 => "Friday",
        _ => "Saturday",
    }
}

/// The name of a month.
pub(crate) fn month_name(month: u8) -> &'static str
    ensures name { result.now ≡ words.month_name month }
{
    match month {
        1 => "Jan",
        2 => "Feb",
        3 => "Mar",
        4 => "Apr",
        5 => "May",
        6 => "Jun",
        7 => "Jul",
        8 => "Aug",
        9 => "Sep",
        10 => "Oct",
        11 => "Nov",
        _ => "Dec",
    }
}
