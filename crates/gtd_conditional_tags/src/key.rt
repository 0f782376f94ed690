//! Keys of tags.

ghost use Rattle.std.specs.Prelude.{◌≡◌, ◌≤◌};
ghost use Rattle.gtd_conditional_tags.specs.Keys as spec;

use gtd_conditional_means::Means;
use gtd_rows::Direction;

/// A key that says when a way may be used: for which mode, in which directions, and whether under conditions.
#[derive(Clone, Copy, Debug, PartialEq, Eq)]
pub struct Key {
    /// The number of rows of the table of means before that of the mode.
    pub mode: usize,
    /// The direction that it speaks of, or both.
    pub direction: Option<Direction>,
    /// Whether its value has conditions.
    pub conditional: bool,
}

// The number of a side, by which those of both directions come first.
fn side_of(direction: Option<Direction>) -> u8
    ensures side { result ≡ spec.side_of direction }
    ensures small { result ≤ 4 }
{
    match direction {
        None => 0,
        Some(direction) => match direction {
            Direction::Positive => 2,
            Direction::Negative => 4,
        },
    }
}

impl Key {
    /// A number that tells apart the keys of a mode: those of both directions come first, and of each direction the one without
    /// conditions.
    pub fn form(&self) -> u8
        ensures form { result ≡ spec.form_of self.now }
    {
        if self.conditional {
            side_of(self.direction) + 1
        } else {
            side_of(self.direction)
        }
    }
}

/// The parts of a key's text.
#[derive(Clone, Copy)]
pub(crate) struct KeyParts<'a> {
    pub(crate) name: &'a [u8],
    pub(crate) direction: Option<Direction>,
    pub(crate) conditional: bool,
}

// Whether a text ends so.
fn has_end(end: &[u8], text: &[u8]) -> bool
    ensures { result ≡ spec.has_end end.now text.now }
{
    text.ends_with(end)
}

// A text without this end, if it has it.
fn without<'a>(end: &[u8], text: &'a [u8]) -> &'a [u8]
    ensures { result.now ≡ spec.without end.now text.now }
{
    if text.ends_with(end) {
        &text[..text.len() - end.len()]
    } else {
        text
    }
}

fn direction_of(plain: &[u8]) -> Option<Direction>
    ensures { result ≡ spec.direction_of plain.now }
{
    if has_end(b":forward".as_slice(), plain) {
        Some(Direction::Positive)
    } else if has_end(b":backward".as_slice(), plain) {
        Some(Direction::Negative)
    } else {
        None
    }
}

fn name_of(plain: &[u8]) -> &[u8]
    ensures { result.now ≡ spec.name_of plain.now }
{
    if has_end(b":forward".as_slice(), plain) {
        without(b":forward".as_slice(), plain)
    } else {
        without(b":backward".as_slice(), plain)
    }
}

/// The parts of a key's text.
pub(crate) fn parts_of(text: &[u8]) -> KeyParts<'_>
    ensures name { result.name.now ≡ spec.name_of (spec.plain_of text.now) }
    ensures direction { result.direction ≡ spec.direction_of (spec.plain_of text.now) }
    ensures conditional { result.conditional ≡ spec.is_conditional text.now }
{
    let plain = without(b":conditional".as_slice(), text);
    KeyParts {
        name: name_of(plain),
        direction: direction_of(plain),
        conditional: has_end(b":conditional".as_slice(), text),
    }
}

// The number of rows before the first one of a mode.
fn mode_at(means: &Means, name: &[u8]) -> Option<usize>
    ensures { result ≡ spec.mode_at 0 name.now means.now.rows.items }
{
    means.mode_place(name)
}

// Whether there is a key of a mode with this name and direction: of `oneway` there is none with a direction.
fn is_said(name: &[u8], direction: Option<Direction>) -> bool
    ensures { result ≡ spec.is_said name.now direction }
{
    match direction {
        None => true,
        Some(_) => name != b"oneway".as_slice(),
    }
}

/// The key that its parts are, if the table has its mode.
pub(crate) fn key_of(means: &Means, parts: KeyParts<'_>) -> Option<Key>
    ensures { result ≡ spec.key_with means.now.rows.items parts.entry.name.now parts.entry.direction parts.entry.conditional }
{
    if !is_said(parts.name, parts.direction) {
        return None;
    }
    match mode_at(means, parts.name) {
        Some(mode) => Some(Key {
            mode,
            direction: parts.direction,
            conditional: parts.conditional,
        }),
        None => None,
    }
}

/// Whether a key that says nothing is at fault: it has conditions, and the table does not ignore its name.
pub(crate) fn is_at_fault(means: &Means, parts: KeyParts<'_>) -> bool
    ensures { result ≡ spec.is_unknown means.now.rows.items parts.entry.name.now parts.entry.conditional }
{
    parts.conditional && !means.ignores(parts.name)
}
