//! The semicolon before a rule, and a comma in place of it.

ghost use Rattle.std.specs.Prelude.{◌≡◌, ◌<◌, ◌≤◌, IfOk, false, length};
ghost use Rattle.std.specs.List.{prefix_len};
ghost use Rattle.gtd_hours_warnings.specs.Commas.{before_semicolon, count_instead, is_instead, is_open, is_semicolon, is_space};
ghost use Rattle.gtd_hours_warnings.specs.Commas.{quoted_behind, rule_place, semicolon_of, with_comma, word_before, word_of};

use gtd_hours::{Link, Modifier, Rule};
use gtd_hours_loose::stretch;
use std::alloc::{AllocError, Global};

fn is_instead(link: Link) -> bool
    ensures { result ≡ is_instead link }
{
    match link {
        Link::Instead => true,
        Link::Also | Link::Fallback => false,
    }
}

fn is_open(modifier: Modifier) -> bool
    ensures { result ≡ is_open modifier }
{
    match modifier {
        Modifier::Open => true,
        Modifier::Closed => false,
    }
}

// How many of these rules come after a semicolon.
fn count_instead(rules: &[Rule]) -> usize
    ensures { result ≡ count_instead rules.now }
{
    let mut count = 0;
    let mut rest = rules;
    while let Some((rule, later)) = rest.split_first() {
        if is_instead(rule.link) {
            count += 1;
        }
        rest = later;
    }
    count
}

fn is_semicolon(quoted: bool, byte: u8) -> bool
    ensures { result ≡ is_semicolon quoted byte }
{
    byte == b';' && !quoted
}

fn quoted_behind(quoted: bool, byte: u8) -> bool
    ensures { result ≡ quoted_behind quoted byte }
{
    if byte == b'"' { !quoted } else { quoted }
}

// How many bytes stand before the semicolon with this number.
fn before_semicolon(text: &[u8], number: usize) -> usize
    ensures place { result ≡ before_semicolon number false text.now }
    ensures within { result ≤ length text.now }
{
    let mut place = 0;
    let mut left = number;
    let mut quoted = false;
    let mut rest = text;
    while let Some((byte, later)) = rest.split_first() {
        if is_semicolon(quoted, *byte) {
            if left == 0 {
                return place;
            }
            left -= 1;
        }
        quoted = quoted_behind(quoted, *byte);
        place += 1;
        rest = later;
    }
    place
}

/// Where the semicolon before a rule stands.
pub(crate) fn semicolon_of(text: &[u8], rules: &[Rule], rule: usize) -> usize
    requires later { 0 < rule }
    requires some { rule < length rules.now }
    ensures place { result ≡ semicolon_of text.now rules.now rule }
    ensures within { result ≤ length text.now }
{
    before_semicolon(text, count_instead(&rules[1..rule]))
}

// How many spaces bytes begin with.
fn spaces(bytes: &[u8]) -> usize
    ensures count { result ≡ prefix_len is_space bytes.now }
    ensures within { result ≤ length bytes.now }
{
    let mut count = 0;
    let mut rest = bytes;
    while let Some((byte, later)) = rest.split_first() {
        if *byte != b' ' {
            return count;
        }
        count += 1;
        rest = later;
    }
    count
}

/// Where the rule behind a semicolon begins.
pub(crate) fn rule_place(text: &[u8], semicolon: usize) -> usize
    ensures { result ≡ rule_place text.now semicolon }
{
    if semicolon < text.len() {
        semicolon + 1 + spaces(&text[semicolon + 1..])
    } else {
        text.len()
    }
}

// The word that a rule needs before a comma that is not to go on with its selectors.
fn word_of(rule: &Rule) -> &'static [u8]
    ensures { result.now ≡ word_of rule.now }
{
    if is_open(rule.modifier) && rule.times.is_empty() {
        b" open".as_slice()
    } else {
        b"".as_slice()
    }
}

/// The same word of the rule before this one.
pub(crate) fn word_before(rules: &[Rule], rule: usize) -> &'static [u8]
    requires later { 0 < rule }
    ensures { result.now ≡ word_before rules.now rule }
{
    match rules.get(rule - 1) {
        Some(before) => word_of(before),
        None => b"".as_slice(),
    }
}

/// The text with a word and a comma in place of the byte at a place.
pub(crate) fn with_comma(
    alloc: Global,
    text: &[u8],
    place: usize,
    word: &[u8],
) -> Result<Vec<u8>, AllocError>
    requires { place ≤ length text.now }
    ensures { IfOk result (λ joined. joined.items ≡ with_comma text.now place word.now) }
{
    let mut joined = Vec::new(alloc);
    joined.extend_from_slice(stretch(text, 0, place))?;
    joined.extend_from_slice(word)?;
    joined.extend_from_slice(b",")?;
    joined.extend_from_slice(stretch(text, place + 1, text.len()))?;
    Ok(joined)
}
