//! The words of a domain.

ghost use Rattle.std.specs.Prelude.{◌≡◌, ◌<◌, ◌+◌, ◌++◌, [], string_bytes, vec_items, codes, IfOk, OnOk, Some, None};
ghost use Rattle.gtd_core.specs.Parts.{domain_tree, start_parts, duration_parts};
ghost use Rattle.gtd_core.specs.Trees.{tree_of};
ghost use Rattle.gtd_words.specs.Joins.{join_count};
ghost use Rattle.gtd_words.specs.Words.{basic_pieces, basic_words, indent, lead_words, lines, op_word, op_words, words, words_in};

use crate::laws::words_are_lines;
use crate::start::push_start;
use crate::until::push_rest;
use gtd_core::{Basic, Domain, Expr, Op};
use gtd_ends::{has_clock, is_all_day};
use gtd_phrases::{Language, Piece, Word, push_pieces, push_word};
use std::alloc::{AllocError, Global};

/// The words of a domain, in lines of plain English that end with a line feed, or an error if memory was refused.
///
/// Each basic domain has a line. The parts that operators join stand below one another, and each line after the first says
/// what is done with all the lines above it. What stands in brackets is indented. Two domains have the same words exactly
/// if they are equal.
///
/// ```
/// let domain = read_domain(alloc, b"[(M4d1){M3}]*[(h10){h4}]")?;
/// let words = write_words(alloc, &domain)?;
/// assert_eq!(rt; words.as_str(), "from 1 April every year until 30 June (included)\n\
///     and all this only in: each day from 10:00 until 14:00\n");
/// ```
pub fn write_words(alloc: Global, domain: &Domain) -> Result<String, AllocError>
    ensures exact { IfOk result (λ text. string_bytes text ≡ words (domain_tree domain.now)) }
{
    write_words_in(alloc, Language::English, domain)
}

/// The words of a domain in a language.
///
/// ```
/// let words = write_words_in(alloc, Language::German, &domain)?;
/// assert_eq!(rt; words.as_str(), "vom 1. April jedes Jahres bis 30. Juni (einschließlich)\n\
///     und all dies nur: täglich von 10:00 bis 14:00\n");
/// ```
pub fn write_words_in(
    alloc: Global,
    language: Language,
    domain: &Domain,
) -> Result<String, AllocError>
    ensures exact { IfOk result (λ text. string_bytes text ≡ words_in language (domain_tree domain.now)) }
{
    let mut out = String::new(alloc);
    push_lines(&mut out, Manner { alloc, language }, 0, None, domain.expr())?;
    Ok(out)
}

// The language of the words, and where memory for them comes from.
#[derive(Clone, Copy)]
struct Manner {
    alloc: Global,
    language: Language,
}

// Appends the lines of an expression.
fn push_lines(
    out: &mut String,
    manner: Manner,
    depth: u8,
    lead: Option<Op>,
    expr: &Expr,
) -> Result<(), AllocError>
    requires { depth + join_count (tree_of expr.now) < 128 }
    ensures { OnOk result (string_bytes out.new ≡ string_bytes out.old ++ lines manner.language depth lead (tree_of expr.now)) }
{
    match expr {
        Expr::Leaf(basic) => push_line(out, manner, depth, lead, basic),
        Expr::Join(op, left, right) => match lead {
            None => {
                push_lines(out, manner, depth, None, left)?;
                push_lines(out, manner, depth, Some(*op), right)
            }
            Some(before) => {
                push_heading(out, manner.language, depth, before)?;
                push_lines(out, manner, depth + 1, None, left)?;
                push_lines(out, manner, depth + 1, Some(*op), right)
            }
        },
    }
}

fn push_indent(out: &mut String, depth: u8) -> Result<(), AllocError>
    ensures { OnOk result (string_bytes out.new ≡ string_bytes out.old ++ indent depth) }
{
    if depth == 0 {
        return Ok(());
    }
    out.push_str("    ")?;
    push_indent(out, depth - 1)
}

fn op_word(op: Op) -> Word
    ensures { result ≡ op_word op }
{
    match op {
        Op::Union => Word::Or,
        Op::Meet => Word::OnlyIn,
        Op::Minus => Word::ExceptIn,
    }
}

fn push_op(out: &mut String, language: Language, op: Op) -> Result<(), AllocError>
    ensures { OnOk result (string_bytes out.new ≡ string_bytes out.old ++ op_words language op) }
{
    push_word(out, language, op_word(op))
}

fn push_lead(out: &mut String, language: Language, lead: Option<Op>) -> Result<(), AllocError>
    ensures { OnOk result (string_bytes out.new ≡ string_bytes out.old ++ lead_words language lead) }
{
    match lead {
        Some(op) => {
            push_op(out, language, op)?;
            out.push_str(" ")
        }
        None => Ok(()),
    }
}

// Appends the line that says what is done with the lines above a part in brackets.
fn push_heading(
    out: &mut String,
    language: Language,
    depth: u8,
    before: Op,
) -> Result<(), AllocError>
    ensures { OnOk result (string_bytes out.new ≡ string_bytes out.old
        ++ (indent depth ++ op_words language before ++ codes "\n")) }
{
    push_indent(out, depth)?;
    push_op(out, language, before)?;
    out.push_str("\n")
}

fn push_line(
    out: &mut String,
    manner: Manner,
    depth: u8,
    lead: Option<Op>,
    basic: &Basic,
) -> Result<(), AllocError>
    ensures { OnOk result (string_bytes out.new ≡ string_bytes out.old
        ++ (indent depth ++ lead_words manner.language lead
        ++ basic_words manner.language (start_parts basic.now.start) (duration_parts basic.now.duration) ++ codes "\n")) }
{
    push_indent(out, depth)?;
    push_lead(out, manner.language, lead)?;
    push_basic(out, manner, basic)?;
    out.push_str("\n")
}

fn push_basic(out: &mut String, manner: Manner, basic: &Basic) -> Result<(), AllocError>
    ensures { OnOk result (string_bytes out.new ≡ string_bytes out.old
        ++ basic_words manner.language (start_parts basic.now.start) (duration_parts basic.now.duration)) }
{
    let mut pieces = Vec::new(manner.alloc);
    push_all(&mut pieces, basic)?;
    words_are_lines();
    push_pieces(out, manner.language, &pieces)
}

// Adds the pieces of a basic domain.
#[tactic(auto, unfolding(crate::specs::Words::basic_pieces))]
fn push_all(pieces: &mut Vec<Piece>, basic: &Basic) -> Result<(), AllocError>
    ensures { OnOk result (vec_items pieces.new ≡ vec_items pieces.old
        ++ basic_pieces (start_parts basic.now.start) (duration_parts basic.now.duration)) }
{
    let start = basic.start.parts();
    let named = has_clock(&start) || is_all_day(&start, &basic.duration.parts());
    push_start(pieces, named, &start)?;
    push_rest(pieces, &start, &basic.duration)
}
