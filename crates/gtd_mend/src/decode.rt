//! The text of a file.

ghost use Rattle.std.specs.Prelude.{◌≡◌, IfOk, Some, None, option_map, string_bytes};
ghost use Rattle.gtd_mend.specs.Decoding as spec;
ghost use Rattle.gtd_mend.specs.Decoding.{text_of_units};

use crate::change::FileChange;
use std::alloc::{AllocError, Global};

// A unit of UTF-16, of two bytes: the greater part stands first, or last.
fn unit_of(first: bool, a: u8, b: u8) -> u16
    ensures value { result ≡ spec.unit_of first a b }
{
    if first {
        a as u16 * 256 + b as u16
    } else {
        b as u16 * 256 + a as u16
    }
}

// The units that bytes are, two and two, if none is left over.
fn units_of(alloc: Global, first: bool, bytes: &[u8]) -> Result<Option<Vec<u16>>, AllocError>
    ensures value { IfOk result (λ found. option_map (λ units. units.items) found ≡ spec.units_of first bytes.now) }
{
    let mut units = Vec::new(alloc);
    let mut at = 0usize;
    while at < bytes.len() {
        if bytes.len() - at < 2 {
            return Ok(None);
        }
        units.push(unit_of(first, bytes[at], bytes[at + 1]))?;
        at += 2;
    }
    Ok(Some(units))
}

// The text of UTF-16 without its byte order mark, if it is well-formed.
pub(crate) fn from_utf16(
    alloc: Global,
    first: bool,
    bytes: &[u8],
) -> Result<Option<String>, AllocError>
    ensures value { IfOk result (λ found. option_map (λ text. string_bytes text) found
        ≡ text_of_units (spec.units_of first bytes.now)) }
{
    let Some(units) = units_of(alloc, first, bytes)? else {
        return Ok(None);
    };
    match String::from_utf16(alloc, units.as_slice())? {
        Ok(text) => Ok(Some(text)),
        Err(_) => Ok(None),
    }
}
