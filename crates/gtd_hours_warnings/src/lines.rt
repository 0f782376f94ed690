//! Warnings in words.

ghost use Rattle.std.specs.Prelude.{◌≡◌, ◌++◌, OnOk};
ghost use Rattle.gtd_hours_warnings.specs.Lines.{form_label, kind_name, warning_lines, warning_text};

use crate::warnings::{Warning, WarningKind};
use itoa::Buffer;
use std::alloc::AllocError;

fn kind_name(kind: WarningKind) -> &'static [u8]
    ensures { result.now ≡ kind_name kind }
{
    match kind {
        WarningKind::Loose => b"Loose".as_slice(),
        WarningKind::Hides => b"Hides".as_slice(),
        WarningKind::KnownYears => b"KnownYears".as_slice(),
        WarningKind::Remark => b"Remark".as_slice(),
        WarningKind::NotKnown => b"NotKnown".as_slice(),
        WarningKind::WholeDay => b"WholeDay".as_slice(),
    }
}

// Appends what a warning says of a form.
fn push_label(out: &mut Vec<u8>, form: &[u8]) -> Result<(), AllocError>
    ensures { OnOk result (out.new.items ≡ out.old.items ++ form_label form.now) }
{
    match form {
        [] => Ok(()),
        [b' ', ..] => out.extend_from_slice(b": a space"),
        _ => {
            out.extend_from_slice(b": ")?;
            out.extend_from_slice(form)
        }
    }
}

/// Appends a warning in words: its kind, its place and its form, if it has one.
pub fn push_text(out: &mut Vec<u8>, warning: &Warning) -> Result<(), AllocError>
    ensures { OnOk result (out.new.items ≡ out.old.items ++ warning_text warning.now) }
{
    out.extend_from_slice(kind_name(warning.kind))?;
    out.extend_from_slice(b" at ")?;
    out.extend_from_slice(Buffer::new().format(warning.place).as_bytes())?;
    push_label(out, warning.form.as_slice())
}

/// Appends warnings, one in a line behind these bytes.
pub fn push_lines(out: &mut Vec<u8>, before: &[u8], warnings: &[Warning]) -> Result<(), AllocError>
    ensures { OnOk result (out.new.items ≡ out.old.items ++ warning_lines before.now warnings.now) }
{
    let mut rest = warnings;
    while let Some((warning, later)) = rest.split_first() {
        out.extend_from_slice(before)?;
        push_text(out, warning)?;
        out.extend_from_slice(b"\n")?;
        rest = later;
    }
    Ok(())
}
