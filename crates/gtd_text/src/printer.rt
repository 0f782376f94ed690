//! The canonical text of a domain.

ghost use Rattle.std.specs.Prelude.{◌≡◌, ◌≤◌, ◌<◌, ◌+◌, ◌++◌, [], ◌∷◌, string_bytes, codes, decimal, length};
ghost use Rattle.std.specs.Prelude.{IfOk, OnOk, IfSome, drop, take};
ghost use Rattle.gtd_core.specs.Trees.{tree_of};
ghost use Rattle.gtd_core.specs.Parts.{domain_tree, start_parts, duration_parts};
ghost use Rattle.gtd_text.specs.Canonical.{canonical, sign_text, start_text, duration_text};
ghost use Rattle.gtd_text.specs.Canonical.{field_text, fields_text, start_shown, duration_shown};
ghost use Rattle.gtd_core.specs.FieldTable.{number_digits, year_digits, place_digits, weekday_digits, weekdays_digits};
ghost use Rattle.gtd_core.specs.FieldTable.{nonzero_digits};

use gtd_core::{Basic, Domain, DurationParts, Expr, Op, Start, StartParts};
use itoa::Buffer;
use std::alloc::{AllocError, Global};

/// The canonical text of a domain, or an error if memory was refused.
///
/// There are no spaces, each basic domain and each combination has brackets of its own, and fields come in one order
/// without leading zeros. So two domains have the same text exactly if they are equal.
///
/// ```
/// let domain = read_domain(alloc, b"(m30h07){m30h1}")?;
/// let text = print_domain(alloc, &domain)?;
/// assert_eq!(rt; text.as_str(), "[(h7m30){h1m30}]");
/// ```
pub fn print_domain(alloc: Global, domain: &Domain) -> Result<String, AllocError>
    ensures exact { IfOk result (λ text. string_bytes text ≡ canonical (domain_tree domain.now)) }
{
    let mut out = String::new(alloc);
    push_expr(&mut out, domain.expr())?;
    Ok(out)
}

fn push_expr(out: &mut String, expr: &Expr) -> Result<(), AllocError>
    ensures { OnOk result (string_bytes out.new
        ≡ string_bytes out.old ++ canonical (tree_of expr.now)) }
{
    match expr {
        Expr::Leaf(basic) => push_basic(out, basic),
        Expr::Join(op, left, right) => {
            out.push_str("[")?;
            push_expr(out, left)?;
            push_op(out, *op)?;
            push_expr(out, right)?;
            out.push_str("]")
        }
    }
}

fn push_op(out: &mut String, op: Op) -> Result<(), AllocError>
    ensures { OnOk result (string_bytes out.new ≡ string_bytes out.old ++ sign_text op) }
{
    match op {
        Op::Union => out.push_str("+"),
        Op::Meet => out.push_str("*"),
        Op::Minus => out.push_str("-"),
    }
}

fn push_basic(out: &mut String, basic: &Basic) -> Result<(), AllocError>
    ensures { OnOk result (string_bytes out.new ≡ string_bytes out.old
        ++ (codes "[(" ++ start_text (start_parts basic.now.start) ++ codes "){"
        ++ duration_text (duration_parts basic.now.duration) ++ codes "}]")) }
{
    out.push_str("[(")?;
    push_start(out, &basic.start)?;
    out.push_str("){")?;
    push_duration(out, &basic.duration.parts())?;
    out.push_str("}]")
}

#[tactic(auto, unfolding(crate::specs::Canonical::start_text))]
fn push_start(out: &mut String, start: &Start) -> Result<(), AllocError>
    ensures { OnOk result (string_bytes out.new
        ≡ string_bytes out.old ++ start_text (start_parts start.now)) }
{
    let parts = start.parts();
    push_date_fields(out, &parts)?;
    push_day_fields(out, &parts)
}

fn push_date_fields(out: &mut String, parts: &StartParts) -> Result<(), AllocError>
    requires year { IfSome parts.now.year (λ n. n ≤ 9999) }
    requires nth { IfSome parts.now.nth (λ place. (place.0 < 10) × (place.1 < 10)) }
    requires nth_back { IfSome parts.now.nth_back (λ place. (place.0 < 10) × (place.1 < 10)) }
    ensures { OnOk result (string_bytes out.new
        ≡ string_bytes out.old ++ fields_text (take 5 (start_shown parts.now))) }
{
    push_year(out, parts.year)?;
    push_field(out, "M", parts.month)?;
    push_field(out, "w", parts.week)?;
    push_place(out, "f", parts.nth)?;
    push_place(out, "l", parts.nth_back)
}

fn push_day_fields(out: &mut String, parts: &StartParts) -> Result<(), AllocError>
    ensures { OnOk result (string_bytes out.new
        ≡ string_bytes out.old ++ fields_text (drop 5 (start_shown parts.now))) }
{
    push_field(out, "d", parts.day)?;
    push_weekdays(out, parts.weekdays)?;
    push_field(out, "h", parts.hour)?;
    push_field(out, "m", parts.minute)?;
    push_field(out, "s", parts.second)
}

#[tactic(auto, unfolding(crate::specs::Canonical::field_text))]
fn push_field(out: &mut String, letter: &str, field: Option<u8>) -> Result<(), AllocError>
    ensures { OnOk result (string_bytes out.new
        ≡ string_bytes out.old ++ field_text letter.now (number_digits field)) }
{
    match field {
        None => Ok(()),
        Some(n) => {
            out.push_str(letter)?;
            out.push_str(Buffer::new().format(n))
        }
    }
}

#[tactic(auto, unfolding(crate::specs::Canonical::field_text))]
fn push_number(out: &mut String, letter: &str, n: u32) -> Result<(), AllocError>
    ensures { OnOk result (string_bytes out.new
        ≡ string_bytes out.old ++ field_text letter.now (nonzero_digits n)) }
{
    if n == 0 {
        Ok(())
    } else {
        out.push_str(letter)?;
        out.push_str(Buffer::new().format(n))
    }
}

#[tactic(auto, unfolding(crate::specs::Canonical::field_text))]
fn push_year(out: &mut String, year: Option<u16>) -> Result<(), AllocError>
    requires { IfSome year (λ n. n ≤ 9999) }
    ensures { OnOk result (string_bytes out.new ≡ string_bytes out.old ++ field_text (codes "y") (year_digits year)) }
{
    match year {
        None => Ok(()),
        Some(year) => {
            out.push_str("y")?;
            push_digit(out, (year / 1000) as u8)?;
            push_digit(out, (year / 100 % 10) as u8)?;
            push_digit(out, (year / 10 % 10) as u8)?;
            push_digit(out, (year % 10) as u8)
        }
    }
}

#[tactic(auto, unfolding(crate::specs::Canonical::field_text))]
fn push_place(out: &mut String, letter: &str, place: Option<(u8, u8)>) -> Result<(), AllocError>
    requires { IfSome place (λ place. (place.0 < 10) × (place.1 < 10)) }
    ensures { OnOk result (string_bytes out.new
        ≡ string_bytes out.old ++ field_text letter.now (place_digits place)) }
{
    match place {
        None => Ok(()),
        Some((n, weekday)) => {
            out.push_str(letter)?;
            push_digit(out, n)?;
            push_digit(out, weekday)
        }
    }
}

#[tactic(auto, using(std::proofs::lemmas::Fmt::decimal_digit))]
fn push_digit(out: &mut String, digit: u8) -> Result<(), AllocError>
    requires { digit < 10 }
    ensures { OnOk result (string_bytes out.new ≡ string_bytes out.old ++ (48 + digit) ∷ []) }
{
    out.push_str(Buffer::new().format(digit))
}

#[tactic(auto, unfolding(crate::specs::Canonical::field_text))]
fn push_weekdays(out: &mut String, weekdays: u8) -> Result<(), AllocError>
    ensures { OnOk result (string_bytes out.new ≡ string_bytes out.old ++ field_text (codes "t") (weekdays_digits weekdays)) }
{
    push_weekday(out, weekdays, 1)?;
    push_weekday(out, weekdays, 2)?;
    push_weekday(out, weekdays, 3)?;
    push_weekday(out, weekdays, 4)?;
    push_weekday(out, weekdays, 5)?;
    push_weekday(out, weekdays, 6)?;
    push_weekday(out, weekdays, 7)
}

#[tactic(auto, unfolding(crate::specs::Canonical::field_text))]
fn push_weekday(out: &mut String, weekdays: u8, weekday: u8) -> Result<(), AllocError>
    requires low { 1 ≤ weekday }
    requires high { weekday ≤ 7 }
    ensures { OnOk result (string_bytes out.new
        ≡ string_bytes out.old ++ field_text (codes "t") (weekday_digits weekdays weekday)) }
{
    if (weekdays >> (weekday - 1)) % 2 == 1 {
        out.push_str("t")?;
        push_digit(out, weekday)
    } else {
        Ok(())
    }
}

#[tactic(auto, unfolding(crate::specs::Canonical::duration_text))]
fn push_duration(out: &mut String, duration: &DurationParts) -> Result<(), AllocError>
    ensures { OnOk result (string_bytes out.new
        ≡ string_bytes out.old ++ duration_text duration.now) }
{
    let from = out.len();
    push_numbers(out, duration)?;
    if out.len() == from {
        out.push_str("s0")
    } else {
        Ok(())
    }
}

fn push_numbers(out: &mut String, parts: &DurationParts) -> Result<(), AllocError>
    ensures { OnOk result (string_bytes out.new
        ≡ string_bytes out.old ++ fields_text (duration_shown parts.now)) }
{
    push_date_numbers(out, parts)?;
    push_clock_numbers(out, parts)
}

fn push_date_numbers(out: &mut String, parts: &DurationParts) -> Result<(), AllocError>
    ensures { OnOk result (string_bytes out.new
        ≡ string_bytes out.old ++ fields_text (take 4 (duration_shown parts.now))) }
{
    push_number(out, "y", parts.years)?;
    push_number(out, "M", parts.months)?;
    push_number(out, "w", parts.weeks)?;
    push_number(out, "d", parts.days)
}

fn push_clock_numbers(out: &mut String, parts: &DurationParts) -> Result<(), AllocError>
    ensures { OnOk result (string_bytes out.new
        ≡ string_bytes out.old ++ fields_text (drop 4 (duration_shown parts.now))) }
{
    push_number(out, "h", parts.hours)?;
    push_number(out, "m", parts.minutes)?;
    push_number(out, "s", parts.seconds)
}
