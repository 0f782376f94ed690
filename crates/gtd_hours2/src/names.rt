//! Names and numbers, as they are written.

ghost use Rattle.std.specs.Prelude.{◌≡◌, ◌++◌, OnOk, codes, decimal};
ghost use Rattle.gtd_hours2.specs.Written.{clock_text, event_name, month_name, nth_text, offset_text, step_text, two_digits};
ghost use Rattle.gtd_hours2.specs.Written.{weekday_name};

use crate::values::{DayOffset, SunEvent};
use itoa::Buffer;
use std::alloc::AllocError;

pub(crate) fn month_name(month: u8) -> &'static [u8]
    ensures { result.now ≡ month_name month }
{
    match month {
        1 => b"Jan",
        2 => b"Feb",
        3 => b"Mar",
        4 => b"Apr",
        5 => b"May",
        6 => b"Jun",
        7 => b"Jul",
        8 => b"Aug",
        9 => b"Sep",
        10 => b"Oct",
        11 => b"Nov",
        _ => b"Dec",
    }
}

pub(crate) fn weekday_name(weekday: u8) -> &'static [u8]
    ensures { result.now ≡ weekday_name weekday }
{
    match weekday {
        1 => b"Su",
        2 => b"Mo",
        3 => b"Tu",
        4 => b"We",
        5 => b"Th",
        6 => b"Fr",
        _ => b"Sa",
    }
}

pub(crate) fn event_name(event: SunEvent) -> &'static [u8]
    ensures { result.now ≡ event_name event }
{
    match event {
        SunEvent::Sunrise => b"sunrise",
        SunEvent::Sunset => b"sunset",
        SunEvent::Dawn => b"dawn",
        SunEvent::Dusk => b"dusk",
    }
}

pub(crate) fn push_number(out: &mut Vec<u8>, number: u16) -> Result<(), AllocError>
    ensures { OnOk result (out.new.items ≡ out.old.items ++ decimal number) }
{
    out.extend_from_slice(Buffer::new().format(number).as_bytes())
}

// A number of two digits at least.
fn push_two_digits(out: &mut Vec<u8>, number: u16) -> Result<(), AllocError>
    ensures { OnOk result (out.new.items ≡ out.old.items ++ two_digits number) }
{
    if number < 10 {
        out.extend_from_slice(b"0")?;
    }
    push_number(out, number)
}

#[tactic(auto, unfolding(crate::specs::Written::clock_text))]
pub(crate) fn push_clock(out: &mut Vec<u8>, minutes: u16) -> Result<(), AllocError>
    ensures { OnOk result (out.new.items ≡ out.old.items ++ clock_text minutes) }
{
    push_two_digits(out, minutes / 60)?;
    out.extend_from_slice(b":")?;
    push_two_digits(out, minutes % 60)
}

pub(crate) fn push_step(out: &mut Vec<u8>, step: u16) -> Result<(), AllocError>
    ensures { OnOk result (out.new.items ≡ out.old.items ++ step_text step) }
{
    if step == 1 {
        return Ok(());
    }
    out.extend_from_slice(b"/")?;
    push_number(out, step)
}

pub(crate) fn push_offset(out: &mut Vec<u8>, offset: DayOffset) -> Result<(), AllocError>
    ensures { OnOk result (out.new.items ≡ out.old.items ++ offset_text offset) }
{
    if offset.days == 0 {
        return Ok(());
    }
    out.extend_from_slice(if offset.is_before { b" -" } else { b" +" })?;
    push_number(out, offset.days)?;
    out.extend_from_slice(if offset.days == 1 { b" day" } else { b" days" })
}

// Which of the weekdays of a month, from its beginning or back from its end.
pub(crate) fn push_nth(out: &mut Vec<u8>, is_back: bool, number: u8) -> Result<(), AllocError>
    ensures { OnOk result (out.new.items ≡ out.old.items ++ nth_text is_back number) }
{
    if is_back {
        out.extend_from_slice(b"-")?;
    }
    push_number(out, u16::from(number))
}
