//! From a text to a domain.

ghost use Rattle.std.specs.Prelude.{◌≡◌, ℕ, List, length, IfOk, IfErr, IfSome, MatchResult, ◌⊎◌};
ghost use Rattle.gtd_core.specs.Parts.{domain_tree};
ghost use Rattle.gtd_core.specs.Trees.{Tree};
ghost use Rattle.gtd_core.specs.declared.fault.TextFault.{TextFault};
ghost use Rattle.gtd_text.specs.Faults.{no_memory};
ghost use Rattle.gtd_text.specs.Reading.{StandsFor, IsFault, HasNoFault};
ghost use Rattle.gtd_text.specs.Found.{IsReadable};

use crate::builder::build_expr;
use crate::check::first_fault;
use crate::lexer::NO_MEMORY;
use gtd_core::laws::leaves_are_valid;
use gtd_core::{Domain, TextFault};
use std::alloc::{AllocError, Global};

/// The domain that a text stands for, or its first fault.
///
/// The faults, in their order: `BadToken` and `Fuzzy` at the first byte that is not a space and begins no token;
/// `TooDeep` at the first `[` that makes the depth 129, else `TooMany` at the 129th `(`; `Repeated`, `FieldRange`,
/// `Negative` or `Unexpected` at the first token that does not fit, or `Incomplete` at the text's length;
/// `TooLongDuration` at the `{` of the first duration of more than 36,600 days. `NoMemory`, at 0, is answered only if
/// memory was refused.
///
/// ```
/// let domain = read_domain(alloc, b"(m30h07){m30h1}")?;
/// let text = print_domain(alloc, &domain)?;
/// assert_eq!(rt; text.as_str(), "[(h7m30){h1m30}]");
/// ```
pub fn read_domain(alloc: Global, text: &[u8]) -> Result<Domain, TextFault>
    // The text stands for the domain,
    ensures found { IfOk result (λ domain. StandsFor text.now (domain_tree domain)) }
    // and has no fault.
    ensures faultless { IfOk result (λ domain. HasNoFault text.now) }
    // If it stands for an expression and has no fault, the domain is that expression, unless memory runs out.
    ensures only { (e : Tree) → StandsFor text.now e → HasNoFault text.now
        → MatchResult result (λ domain. domain_tree domain ≡ e) (λ fault. fault ≡ no_memory) }
    // A refused text has the fault, unless memory ran out.
    ensures fault { IfErr result (λ fault. (fault ≡ no_memory) ⊎ IsFault text.now fault) }
    // A text with a fault is refused with it, unless memory runs out.
    ensures first { (first : TextFault) → IsFault text.now first
        → MatchResult result (λ domain. ⊥) (λ fault. (fault ≡ no_memory) ⊎ (fault ≡ first)) }
{
    read(alloc, text)
}

fn read(alloc: Global, text: &[u8]) -> Result<Domain, TextFault>
    ensures found { IfOk result (λ domain. StandsFor text.now (domain_tree domain)) }
    ensures faultless { IfOk result (λ domain. HasNoFault text.now) }
    ensures fault { IfErr result (λ fault. (fault ≡ no_memory) ⊎ IsFault text.now fault) }
{
    match read_short(alloc, text) {
        Ok(Some(domain)) => Ok(domain),
        Ok(None) => read_checked(alloc, text),
        Err(_) => match first_fault(text) {
            Some(fault) => Err(fault),
            None => Err(NO_MEMORY),
        },
    }
}

// A text of at most this many bytes has no more brackets and no more parentheses than a text may have.
const MOST_SHORT: usize = 128;

// The domain of a text that is too short to pass a limit, or `None` if the text is longer or has a fault.
fn read_short(alloc: Global, text: &[u8]) -> Result<Option<Domain>, AllocError>
    ensures found { IfOk result (λ found. IfSome found (λ domain. StandsFor text.now (domain_tree domain))) }
    ensures faultless { IfOk result (λ found. IfSome found (λ domain. HasNoFault text.now)) }
{
    if MOST_SHORT < text.len() {
        return Ok(None);
    }
    leaves_are_valid();
    match build_expr(alloc, text)? {
        Some(expr) => match Domain::new(expr) {
            Ok(domain) => Ok(Some(domain)),
            Err(_) => Ok(None),
        },
        None => Ok(None),
    }
}

// The domain of a text, once it is checked, or its first fault.
fn read_checked(alloc: Global, text: &[u8]) -> Result<Domain, TextFault>
    ensures found { IfOk result (λ domain. StandsFor text.now (domain_tree domain)) }
    ensures faultless { IfOk result (λ domain. HasNoFault text.now) }
    ensures fault { IfErr result (λ fault. (fault ≡ no_memory) ⊎ IsFault text.now fault) }
{
    match first_fault(text) {
        Some(fault) => Err(fault),
        None => domain_of(alloc, text).map_err(|_| NO_MEMORY),
    }
}

// The domain that a text without a fault stands for.
fn domain_of(alloc: Global, text: &[u8]) -> Result<Domain, AllocError>
    requires { IsReadable text.now }
    ensures { IfOk result (λ domain. StandsFor text.now (domain_tree domain)) }
{
    match build_expr(alloc, text)? {
        Some(expr) => match Domain::new(expr) {
            Ok(domain) => Ok(domain),
            // There are as many basic domains as parentheses.
            Err(_) => unreachable!(),
        },
        None => unreachable!(),
    }
}
