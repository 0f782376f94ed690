//! The checked text: plain hours of the same length.

ghost use Rattle.std.specs.Prelude.{◌≡◌, ◌-◌, IfOk, drop, option_map, set};
ghost use Rattle.gtd_hours_holiday_rules.specs.Checked.{byte_before, checked_from, checked_text, comment_form, dates_form};
ghost use Rattle.gtd_hours_holiday_rules.specs.Checked.{first_or_space, form_of, form_place, put_over, written_over};

use crate::parts::Part;
use gtd_hours_items::Item;
use gtd_hours_moving::stretch;
use gtd_hours_roles::Role;
use std::alloc::{AllocError, Global};

fn put_byte(bytes: &mut [u8], place: usize, byte: u8)
    ensures { bytes.new ≡ set bytes.old place byte }
{
    if place < bytes.len() {
        bytes[place] = byte;
    }
}

fn first_or_space(form: &[u8]) -> u8
    ensures { result ≡ first_or_space form.now }
{
    match form.first() {
        None => b' ',
        Some(byte) => *byte,
    }
}

// The bytes behind the first one.
fn behind_first(form: &[u8]) -> &[u8]
    ensures { result.now ≡ drop 1 form.now }
{
    match form.split_first() {
        None => form,
        Some((_, later)) => later,
    }
}

// Writes a form and spaces behind it over the bytes from one place up to another.
fn put_over(bytes: &mut [u8], from: usize, to: usize, form: &[u8])
    ensures { bytes.new ≡ put_over (to - from) bytes.old from form.now }
{
    let mut place = from;
    let mut rest = form;
    while place < to {
        put_byte(bytes, place, first_or_space(rest));
        rest = behind_first(rest);
        place += 1;
    }
}

// The byte before a place, or a space.
fn byte_before(text: &[u8], place: usize) -> u8
    ensures { result ≡ byte_before text.now place }
{
    if place > 0 {
        match text.get(place - 1) {
            None => b' ',
            Some(byte) => *byte,
        }
    } else {
        b' '
    }
}

// What a comment on a rule is written over by: a word, apart from one before it.
fn comment_form(text: &[u8], item: Item) -> &'static [u8]
    ensures { result.now ≡ comment_form text.now item }
{
    if stretch(text, item.from, item.to).len() > 2 {
        b" on".as_slice()
    } else if byte_before(text, item.from).is_ascii_alphabetic() {
        b"".as_slice()
    } else {
        b"on".as_slice()
    }
}

// What a range of days that moves is written over by: a month, or a bracket directly behind a letter, where it cannot stand.
fn dates_form(text: &[u8], item: Item) -> &'static [u8]
    ensures { result.now ≡ dates_form text.now item }
{
    if byte_before(text, item.from).is_ascii_alphabetic() {
        b"]".as_slice()
    } else {
        b"Jan".as_slice()
    }
}

// What an item of which this becomes is written over by, if it does not stay.
fn form_of(text: &[u8], item: Item, role: Role) -> Option<&'static [u8]>
    ensures { option_map (λ form. form.now) result ≡ form_of text.now item role }
{
    match role {
        Role::Leading(_) => Some(b"".as_slice()),
        Role::Gone => Some(b"".as_slice()),
        Role::Listed(_) => Some(b"Mo".as_slice()),
        Role::Dated(_) => Some(dates_form(text, item)),
        Role::Known { .. } => Some(dates_form(text, item)),
        Role::Undated => Some(dates_form(text, item)),
        Role::Every { .. } => Some(b"/9".as_slice()),
        Role::Doubtful => Some(b"PH".as_slice()),
        Role::Misfit => Some(b"]".as_slice()),
        Role::Fallback => Some(b";".as_slice()),
        Role::UnknownWord => Some(b"off".as_slice()),
        Role::Silent => Some(b"".as_slice()),
        Role::Remark => Some(comment_form(text, item)),
        Role::UnknownComment => Some(comment_form(text, item)),
        _ => None,
    }
}

// Where the form begins.
fn form_place(role: Role, item: Item) -> usize
    ensures { result ≡ form_place role item }
{
    match role {
        Role::Every { place } => place,
        _ => item.from,
    }
}

fn write_over(bytes: &mut [u8], text: &[u8], part: Part)
    ensures { bytes.new
        ≡ written_over bytes.old (form_place part.role part.item) part.item.to (form_of text.now part.item part.role) }
{
    if let Some(form) = form_of(text, part.item, part.role) {
        put_over(bytes, form_place(part.role, part.item), part.item.to, form);
    }
}

fn write_all(bytes: &mut [u8], text: &[u8], parts: &[Part])
    ensures { bytes.new ≡ checked_from text.now bytes.old parts.now }
{
    let mut rest = parts;
    while let Some((part, later)) = rest.split_first() {
        write_over(bytes, text, *part);
        rest = later;
    }
}

/// The checked text of a text with these parts.
pub fn checked_text(alloc: Global, text: &[u8], parts: &[Part]) -> Result<Vec<u8>, AllocError>
    ensures { IfOk result (λ checked. checked.items ≡ checked_text text.now parts.now) }
{
    let mut checked = text.to_vec(alloc)?;
    write_all(checked.as_mut_slice(), text, parts);
    Ok(checked)
}
