//! Points of time, open ends and events of the sun, as they are written.

ghost use Rattle.std.specs.Prelude.{◌≡◌, ◌<◌, ◌++◌, IfOk, OnOk};
ghost use Rattle.gtd_hours.specs.Written.{two_digits};
ghost use Rattle.gtd_hours_moments.specs.Plain.{clock};
ghost use Rattle.gtd_hours_writing.specs.Times.{event_text, event_word, form_text, last_text, moment_text, open_text};
ghost use Rattle.gtd_hours_writing.specs.Times.{points_text, sign_text, with_forms};

use crate::joining::push_joined;
use gtd_hours_moments::{Event, Moment, TimeForm};
use itoa::Buffer;
use std::alloc::{AllocError, Global};

fn push_two_digits(out: &mut Vec<u8>, number: u32) -> Result<(), AllocError>
    requires { number < 100 }
    ensures { OnOk result (out.new.items ≡ out.old.items ++ two_digits number) }
{
    let number = number as u8;
    let digits = [b'0' + number / 10, b'0' + number % 10];
    out.extend_from_slice(&digits)
}

fn push_clock(out: &mut Vec<u8>, minute: u32) -> Result<(), AllocError>
    ensures { OnOk result (out.new.items ≡ out.old.items ++ clock minute) }
{
    push_two_digits(out, minute / 60 % 100)?;
    out.push(b':')?;
    push_two_digits(out, minute % 60)
}

fn push_word(out: &mut Vec<u8>, event: Event) -> Result<(), AllocError>
    ensures { OnOk result (out.new.items ≡ out.old.items ++ event_word event) }
{
    match event {
        Event::Sunrise => out.extend_from_slice(b"sunrise"),
        Event::Sunset => out.extend_from_slice(b"sunset"),
        Event::Dawn => out.extend_from_slice(b"dawn"),
        Event::Dusk => out.extend_from_slice(b"dusk"),
    }
}

fn push_sign(out: &mut Vec<u8>, negative: bool) -> Result<(), AllocError>
    ensures { OnOk result (out.new.items ≡ out.old.items ++ sign_text negative) }
{
    out.extend_from_slice(if negative { b"-" } else { b"+" })
}

fn push_event(out: &mut Vec<u8>, event: Event, minutes: i32) -> Result<(), AllocError>
    ensures { OnOk result (out.new.items ≡ out.old.items ++ event_text event minutes) }
{
    if minutes.unsigned_abs() == 0 {
        return push_word(out, event);
    }
    out.push(b'(')?;
    push_word(out, event)?;
    push_sign(out, minutes.is_negative())?;
    push_clock(out, minutes.unsigned_abs())?;
    out.extend_from_slice(b")")
}

fn push_moment(out: &mut Vec<u8>, moment: Moment) -> Result<(), AllocError>
    ensures { OnOk result (out.new.items ≡ out.old.items ++ moment_text moment) }
{
    match moment.event {
        None => push_clock(out, moment.minutes.unsigned_abs()),
        Some(event) => push_event(out, event, moment.minutes),
    }
}

fn push_last(out: &mut Vec<u8>, last: Option<Moment>) -> Result<(), AllocError>
    ensures { OnOk result (out.new.items ≡ out.old.items ++ last_text last) }
{
    match last {
        None => Ok(()),
        Some(moment) => {
            out.push(b'-')?;
            push_moment(out, moment)
        }
    }
}

fn push_open(out: &mut Vec<u8>, is_open: bool) -> Result<(), AllocError>
    ensures { OnOk result (out.new.items ≡ out.old.items ++ open_text is_open) }
{
    if is_open {
        return out.extend_from_slice(b"+");
    }
    Ok(())
}

fn push_points(out: &mut Vec<u8>, step: Option<u16>) -> Result<(), AllocError>
    ensures { OnOk result (out.new.items ≡ out.old.items ++ points_text step) }
{
    match step {
        None => Ok(()),
        Some(minutes) => {
            out.push(b'/')?;
            out.extend_from_slice(Buffer::new().format(minutes).as_bytes())
        }
    }
}

// A form of times by itself.
fn form_text(alloc: Global, form: TimeForm) -> Result<Vec<u8>, AllocError>
    ensures { IfOk result (λ text. text.items ≡ form_text form) }
{
    let mut text = Vec::new(alloc);
    push_moment(&mut text, form.begin)?;
    push_last(&mut text, form.last)?;
    push_open(&mut text, form.is_open)?;
    push_points(&mut text, form.step)?;
    Ok(text)
}

/// Puts forms of times behind a list.
pub(crate) fn push_forms(
    alloc: Global,
    out: &mut Vec<u8>,
    forms: &[TimeForm],
) -> Result<(), AllocError>
    ensures { OnOk result (out.new.items ≡ with_forms out.old.items forms.now) }
{
    let mut rest = forms;
    while let Some((form, more)) = rest.split_first() {
        let text = form_text(alloc, *form)?;
        push_joined(out, b',', text.as_slice())?;
        rest = more;
    }
    Ok(())
}
