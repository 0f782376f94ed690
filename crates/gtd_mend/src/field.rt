//! A field, mended.

ghost use Rattle.std.specs.Prelude.{◌≡◌, ◌==◌, ◌≤◌, ◌++◌, length, IfOk, OnOk};
ghost use Rattle.std.specs.Char.{is_ascii_digit};
ghost use Rattle.std.specs.List.{list_all, prefix_len};
ghost use Rattle.gtd_mend.specs.Fields as spec;
ghost use Rattle.gtd_mend.specs.Fields.{changes_of, if_changed, mended_field};

use crate::change::FieldChange;
use crate::content::{Content, last_change};
use crate::quote::without_quotes;
use std::alloc::{AllocError, Global};

// A field without the spaces around it, unless nothing is left of it.
fn without_spaces(field: &[u8]) -> &[u8]
    ensures value { result.now ≡ spec.without_spaces field.now }
{
    let trimmed = field.trim_ascii();
    if trimmed.is_empty() {
        return field;
    }
    trimmed
}

// How many digits a field begins with.
fn digits(field: &[u8]) -> usize
    ensures few { result ≤ length field.now }
    ensures value { result ≡ prefix_len is_ascii_digit field.now }
{
    for (at, byte) in field.iter().enumerate() {
        if !byte.is_ascii_digit() {
            return at;
        }
    }
    field.len()
}

// Whether each byte is a zero.
fn are_all_zeros(text: &[u8]) -> bool
    ensures value { result ≡ list_all (λ zero. zero == 48) text.now }
{
    text.iter().all(|zero| *zero == b'0')
}

// Whether a text is a point, and one or more zeros.
fn are_zeros(text: &[u8]) -> bool
    ensures value { result ≡ spec.are_zeros text.now }
{
    let Some((point, zeros)) = text.split_first() else {
        return false;
    };
    *point == b'.' && zeros.len() > 0 && are_all_zeros(zeros)
}

// Digits without a point and zeros after them.
fn without_decimals(field: &[u8]) -> &[u8]
    ensures value { result.now ≡ spec.without_decimals field.now }
{
    let count = digits(field);
    if count > 0 && are_zeros(&field[count..]) {
        return &field[..count];
    }
    field
}

// A copy of bytes.
fn copied(alloc: Global, bytes: &[u8]) -> Result<Vec<u8>, AllocError>
    ensures value { IfOk result (λ copy. copy.items ≡ bytes.now) }
{
    let mut copy = Vec::new(alloc);
    copy.extend_from_slice(bytes)?;
    Ok(copy)
}

// A field in small letters.
fn in_small_letters(alloc: Global, field: &[u8]) -> Result<Vec<u8>, AllocError>
    ensures value { IfOk result (λ small. small.items ≡ spec.in_small_letters field.now) }
{
    let mut small = Vec::new(alloc);
    for byte in field {
        small.push(byte.to_ascii_lowercase())?;
    }
    Ok(small)
}

// Whether three bytes are a dash.
fn is_dash(a: u8, b: u8, c: u8) -> bool
    ensures value { result ≡ spec.is_dash a b c }
{
    a == 226 && (b == 128 && c >= 144 && c <= 149 || b == 136 && c == 146)
}

// A field with a hyphen for each dash.
fn with_hyphens(alloc: Global, field: &[u8]) -> Result<Vec<u8>, AllocError>
    ensures value { IfOk result (λ text. text.items ≡ spec.with_hyphens field.now) }
{
    let mut text = Vec::new(alloc);
    let mut at = 0usize;
    while at < field.len() {
        if field.len() - at > 2 && is_dash(field[at], field[at + 1], field[at + 2]) {
            text.push(b'-')?;
            at += 3;
        } else {
            text.push(field[at])?;
            at += 1;
        }
    }
    Ok(text)
}

// A field as a column with this content asks.
fn as_content(alloc: Global, content: Content, field: &[u8]) -> Result<Vec<u8>, AllocError>
    ensures value { IfOk result (λ text. text.items ≡ spec.as_content content field.now) }
{
    match content {
        Content::Word => in_small_letters(alloc, field),
        Content::Number => copied(alloc, without_decimals(field)),
        Content::Domain => with_hyphens(alloc, field),
        Content::Other => copied(alloc, field),
    }
}

// Adds a change, if the one text is not the other.
fn note(
    changes: &mut Vec<FieldChange>,
    kind: FieldChange,
    old: &[u8],
    new: &[u8],
) -> Result<(), AllocError>
    ensures noted { OnOk result (changes.new.items ≡ changes.old.items ++ if_changed kind old.now new.now) }
{
    if old == new {
        return Ok(());
    }
    changes.push(kind)?;
    Ok(())
}

// A field, mended, and its changes.
#[derive(Drop)]
pub(crate) struct MendedField {
    pub(crate) text: Vec<u8>,
    pub(crate) changes: Vec<FieldChange>,
}

// Mends a field of a column with this content.
pub(crate) fn mend_field(
    alloc: Global,
    content: Content,
    field: &[u8],
) -> Result<MendedField, AllocError>
    ensures text { IfOk result (λ mended. mended.text.items ≡ mended_field content field.now) }
    ensures changes { IfOk result (λ mended. mended.changes.items ≡ changes_of content field.now) }
{
    let mut changes = Vec::new(alloc);
    let trimmed = without_spaces(field);
    note(&mut changes, FieldChange::Spaces, field, trimmed)?;
    let inner = without_quotes(trimmed);
    note(&mut changes, FieldChange::Quotes, trimmed, inner)?;
    let text = as_content(alloc, content, inner)?;
    note(&mut changes, last_change(content), inner, text.as_slice())?;
    Ok(MendedField { text, changes })
}
