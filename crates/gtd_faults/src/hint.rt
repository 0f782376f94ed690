//! What is wrong with a first line that is nearly a header.

ghost use Rattle.std.specs.Prelude.{◌≡◌, ◌≤◌, Some, length};
ghost use Rattle.gtd_rows.specs.Columns.{is_word};
ghost use Rattle.gtd_faults.specs.Hints as spec;

use std::fmt;
use std::fmt::{Display, Formatter};

/// What is wrong with a first line that is nearly a header.
#[derive(Clone, Copy)]
pub enum Hint {
    /// The file is UTF-16.
    Utf16,
    /// Semicolons stand for commas.
    Semicolons,
    /// Tabs stand for commas.
    Tabs,
    /// It has spaces.
    Spaces,
    /// It has capital letters.
    Capitals,
    /// Quotes join fields.
    Quotes,
    /// It has four fields, but other names.
    Names,
}

// Whether a line begins with a byte order mark of UTF-16.
fn begins_as_utf16(line: &[u8]) -> bool
    ensures value { result ≡ spec.begins_as_utf16 line.now }
{
    line.starts_with(&[255, 254]) || line.starts_with(&[254, 255])
}

// A line without the byte order mark of UTF-8.
fn without_mark(line: &[u8]) -> &[u8]
    ensures value { result.now ≡ spec.without_mark line.now }
{
    if line.starts_with(&[239, 187, 191]) {
        &line[3..]
    } else {
        line
    }
}

// What a byte of a line stands for, or none if it is to be left out.
fn plain_byte(byte: u8) -> Option<u8>
    ensures value { result ≡ spec.plain_byte byte }
{
    match byte {
        59 | 9 => Some(44),
        0 | 32 | 34 => None,
        _ => Some(byte.to_ascii_lowercase()),
    }
}

// Whether the plain form of a line is this text.
fn is_plainly(line: &[u8], text: &[u8]) -> bool
    ensures value { result ≡ is_word (spec.plain line.now) text.now }
{
    let mut matched = 0;
    for byte in line {
        if let Some(plain) = plain_byte(*byte) {
            match text.get(matched) {
                Some(next) if *next == plain => matched += 1,
                _ => return false,
            }
        }
    }
    matched == text.len()
}

// Whether the plain form of a line is a header.
fn is_nearly_header(line: &[u8]) -> bool
    ensures value { result ≡ spec.is_nearly_header line.now }
{
    is_plainly(line, b"element,direction,vehicle,domain")
        || is_plainly(line, b"element,direction,vehicles,domain")
}

// Whether a byte is a comma in the plain form.
fn is_comma(byte: u8) -> bool
    ensures value { result ≡ spec.is_comma byte }
{
    byte == 44 || byte == 59 || byte == 9
}

// How many commas the plain form of a line has.
fn commas(line: &[u8]) -> usize
    ensures few { result ≤ length line.now }
    ensures count { result ≡ spec.commas line.now }
{
    let mut count = 0;
    for byte in line {
        if is_comma(*byte) {
            count += 1;
        }
    }
    count
}

// Whether a line has a capital letter.
fn has_capitals(line: &[u8]) -> bool
    ensures value { result ≡ spec.has_capitals line.now }
{
    line.iter().any(|byte| byte.is_ascii_uppercase())
}

// What is wrong with a line whose plain form is a header.
fn hint_of_header(line: &[u8]) -> Option<Hint>
    ensures value { result ≡ spec.hint_of_header line.now }
{
    if line.contains(&0) {
        Some(Hint::Utf16)
    } else if line.contains(&59) {
        Some(Hint::Semicolons)
    } else if line.contains(&9) {
        Some(Hint::Tabs)
    } else if line.contains(&32) {
        Some(Hint::Spaces)
    } else if has_capitals(line) {
        Some(Hint::Capitals)
    } else if line.contains(&34) {
        Some(Hint::Quotes)
    } else {
        None
    }
}

/// The hint for a first line that is not a header.
pub(crate) fn hint_of(line: &[u8]) -> Option<Hint>
    ensures value { result ≡ spec.hint_of line.now }
{
    if begins_as_utf16(line) {
        return Some(Hint::Utf16);
    }
    let line = without_mark(line);
    if is_nearly_header(line) {
        hint_of_header(line)
    } else if commas(line) == 3 {
        Some(Hint::Names)
    } else {
        None
    }
}

/// The line of a hint, or nothing.
#[derive(Clone, Copy)]
pub(crate) struct HintLine(pub(crate) Option<Hint>);

impl Display for HintLine {
    ghost output = { λ shown. Some (spec.hint_line shown.0) };

    fn fmt<W: fmt::Write>(&self, f: &mut Formatter<W>) -> fmt::Result {
        match self.0 {
            None => Ok(()),
            Some(hint) => {
                let words = HintText(hint);
                write!(f, "    hint:     {words}\n")
            }
        }
    }
}

// A hint in words.
#[derive(Clone, Copy)]
struct HintText(Hint);

impl Display for HintText {
    ghost output = { λ shown. Some (spec.hint_text shown.0) };

    fn fmt<W: fmt::Write>(&self, f: &mut Formatter<W>) -> fmt::Result {
        match self.0 {
            Hint::Utf16 => write!(f, "the file is UTF-16; save it as UTF-8"),
            Hint::Semicolons => write!(f, "the fields are separated by semicolons; use commas"),
            Hint::Tabs => write!(f, "the fields are separated by tabs; use commas"),
            Hint::Spaces => write!(f, "there are spaces in the header; remove them"),
            Hint::Capitals => write!(f, "there are capital letters in the header; use small ones"),
            Hint::Quotes => write!(f, "quotes make one field of several; remove them"),
            Hint::Names => {
                write!(
                    f,
                    "it has four fields, but other names; write the header in its place, or above it"
                )
            }
        }
    }
}
