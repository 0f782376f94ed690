//! The stretch of a text that is shown.

ghost use Rattle.std.specs.Prelude.{◌≡◌, ◌≤◌, ◌+◌, ℕ, Some, flat_map, length};
ghost use Rattle.gtd_faults.specs.Snippet as spec;
ghost use Rattle.gtd_faults.specs.Snippet.{IsAround, blanks, caret_text, fit, fit_back, stretch_text};
ghost use Rattle.gtd_faults.specs.Printable.{shown_byte};

use crate::printable::{Printable, is_printable};
use std::fmt;
use std::fmt::{Display, Formatter};

// A text that takes more columns than these is cut.
const MOST_COLUMNS: usize = 100;

// What is left of it before the place, and from it on.
const COLUMNS_BEFORE: usize = 40;

const COLUMNS_AFTER: usize = 50;

/// The stretch of a text around a place that is shown: of a text of more than 100 columns at most 40 columns before the
/// place and 50 from it on.
#[derive(Clone, Copy)]
pub struct Stretch<'a> {
    /// Its bytes before the place.
    pub before: &'a [u8],
    /// Its bytes from the place on.
    pub after: &'a [u8],
    /// Whether bytes are left out before it.
    pub cut_before: bool,
    /// Whether bytes are left out after it.
    pub cut_after: bool,
}

// How many columns a byte takes.
fn width(byte: u8) -> usize
    ensures { result ≡ spec.width byte }
{
    if is_printable(byte) { 1 } else { 4 }
}

// How many bytes, from the first on, fit into so many columns.
fn fit(bytes: &[u8], columns: usize) -> usize
    ensures count { result ≡ fit columns bytes.now }
    ensures within { result ≤ length bytes.now }
{
    let mut left = columns;
    for (count, byte) in bytes.iter().enumerate() {
        let width = width(*byte);
        if width > left {
            return count;
        }
        left -= width;
    }
    bytes.len()
}

// How many of the first bytes before a place, from the last back, fit into so many columns.
fn fit_back(bytes: &[u8], place: usize, columns: usize) -> usize
    requires within { place ≤ length bytes.now }
    ensures count { result ≡ fit_back columns bytes.now place }
    ensures within { result ≤ place }
{
    let mut left = columns;
    for count in 0..place {
        let width = width(bytes[place - 1 - count]);
        if width > left {
            return count;
        }
        left -= width;
    }
    place
}

// How many bytes before a place are shown.
fn count_before(bytes: &[u8], place: usize) -> usize
    requires within { place ≤ length bytes.now }
    ensures count { result ≡ spec.count_before bytes.now place }
    ensures within { result ≤ place }
{
    if fit(bytes, MOST_COLUMNS) == bytes.len() {
        return place;
    }
    fit_back(bytes, place, COLUMNS_BEFORE)
}

// How many bytes from a place on are shown.
fn count_after(bytes: &[u8], place: usize) -> usize
    requires within { place ≤ length bytes.now }
    ensures count { result ≡ spec.count_after bytes.now place }
    ensures within { place + result ≤ length bytes.now }
{
    if fit(bytes, MOST_COLUMNS) == bytes.len() {
        return bytes.len() - place;
    }
    fit(&bytes[place..], COLUMNS_AFTER)
}

impl<'a> Stretch<'a> {
    /// The stretch of the bytes around a place, which is at most their number.
    pub fn around(bytes: &'a [u8], place: usize) -> Stretch<'a>
        requires within { place ≤ length bytes.now }
        ensures around { IsAround bytes.now place result }
    {
        let before = count_before(bytes, place);
        let after = count_after(bytes, place);
        Stretch {
            before: &bytes[place - before..place],
            after: &bytes[place..place + after],
            cut_before: before < place,
            cut_after: place + after < bytes.len(),
        }
    }
}

impl Display for Stretch<'_> {
    ghost output = { λ shown. Some (stretch_text shown) };

    fn fmt<W: fmt::Write>(&self, f: &mut Formatter<W>) -> fmt::Result {
        let before = Printable(self.before);
        let after = Printable(self.after);
        let start = Dots(self.cut_before);
        let end = Dots(self.cut_after);
        write!(f, "{start}{before}{after}{end}")
    }
}

// Dots for what is left out.
#[derive(Clone, Copy)]
struct Dots(bool);

impl Display for Dots {
    ghost output = { λ shown. Some (spec.dots shown.0) };

    fn fmt<W: fmt::Write>(&self, f: &mut Formatter<W>) -> fmt::Result {
        if self.0 {
            return write!(f, "...");
        }
        Ok(())
    }
}

// As many spaces as a byte takes columns.
#[derive(Clone, Copy)]
struct BlankByte(u8);

impl Display for BlankByte {
    ghost output = { λ blank. Some (blanks (shown_byte blank.0)) };

    fn fmt<W: fmt::Write>(&self, f: &mut Formatter<W>) -> fmt::Result {
        if is_printable(self.0) {
            write!(f, " ")
        } else {
            write!(f, "    ")
        }
    }
}

// As many spaces as bytes take columns.
#[derive(Clone, Copy)]
struct Blanks<'a>(&'a [u8]);

impl Display for Blanks<'_> {
    ghost output = { λ blank. Some (flat_map (λ (byte : ℕ). blanks (shown_byte byte)) blank.0.now) };

    fn fmt<W: fmt::Write>(&self, f: &mut Formatter<W>) -> fmt::Result {
        for byte in self.0 {
            let blank = BlankByte(*byte);
            write!(f, "{blank}")?;
        }
        Ok(())
    }
}

// As many spaces as there are dots.
#[derive(Clone, Copy)]
struct BlankDots(bool);

impl Display for BlankDots {
    ghost output = { λ blank. Some (blanks (spec.dots blank.0)) };

    fn fmt<W: fmt::Write>(&self, f: &mut Formatter<W>) -> fmt::Result {
        if self.0 {
            return write!(f, "   ");
        }
        Ok(())
    }
}

/// A caret below the first byte of a stretch from its place on.
#[derive(Clone, Copy)]
pub(crate) struct Caret<'a>(pub(crate) Stretch<'a>);

impl Display for Caret<'_> {
    ghost output = { λ caret. Some (caret_text caret.0) };

    fn fmt<W: fmt::Write>(&self, f: &mut Formatter<W>) -> fmt::Result {
        let start = BlankDots(self.0.cut_before);
        let blanks = Blanks(self.0.before);
        write!(f, "{start}{blanks}^")
    }
}
