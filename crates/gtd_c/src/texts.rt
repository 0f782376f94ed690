//! Texts.

ghost use Rattle.std.specs.Prelude.{◌≡◌, ◌⊎◌, IfOk, IfErr, None};
ghost use Rattle.gtd_core.specs.Parts.{domain_tree};
ghost use Rattle.gtd_text.specs.Canonical.{canonical};
ghost use Rattle.gtd_words.specs.Words.{words};
ghost use Rattle.gtd_handles.specs.Answers.{gtd_kind, gtd_memory, gtd_yes};
ghost use Rattle.gtd_handles.specs.Handles.{IsTextOf, OfDomain, OfText};
ghost use Rattle.gtd_handles.specs.Writing.{IsWritten};
ghost use Rattle.gtd_handles.specs.Holding.{thing_of};

use gtd_core::Domain;
use gtd_handles::{Handle, KIND, MEMORY, Thing, open_text, write};
use gtd_text::print_domain;
use gtd_words::write_words;
use std::alloc::Global;

/// The bytes of a text: yes, and their number. If there is too little room, their number alone.
#[unsafe(no_mangle)]
pub extern "C" fn gtd_text_bytes(
    alloc: Global,
    text: &mut Handle,
    out: &mut [u8],
    length: &mut usize,
) -> u32
    ensures kept { thing_of text.new ≡ thing_of text.old }
    ensures written { OfText (thing_of text.old) result (λ bytes. IsWritten bytes result out.old out.new length.new) }
    ensures untouched { (result ≡ gtd_kind) → (out.new ≡ out.old) × (length.new ≡ length.old) }
{
    let Some(thing) = text.take(alloc) else {
        return KIND;
    };
    let answer = match &*thing {
        Thing::Text(bytes) => write(bytes.as_slice(), out, length),
        _ => KIND,
    };
    *text = Handle::of(thing);
    answer
}

// The canonical text of the domain.
fn canon_of(alloc: Global, domain: &Domain) -> Result<Vec<u8>, u32>
    ensures canon { IfOk result (λ bytes. bytes.items ≡ canonical (domain_tree domain.now)) }
    ensures refused { IfErr result (λ why. why ≡ gtd_memory) }
{
    match print_domain(alloc, domain) {
        Ok(text) => Ok(text.into_bytes()),
        Err(_) => Err(MEMORY),
    }
}

/// Opens the canonical text of the domain.
#[unsafe(no_mangle)]
pub extern "C" fn gtd_domain_canon(alloc: Global, domain: &mut Handle, text: &mut Handle) -> u32
    ensures kept { thing_of domain.new ≡ thing_of domain.old }
    ensures canon { (result ≡ gtd_yes) → OfDomain (thing_of domain.old) result
        (λ found. IsTextOf (λ bytes. bytes ≡ canonical (domain_tree found)) (thing_of text.new)) }
    ensures answers { OfDomain (thing_of domain.old) result (λ found. (result ≡ gtd_yes) ⊎ (result ≡ gtd_memory)) }
    ensures emptied { (result ≡ gtd_memory) → thing_of text.new ≡ None }
    ensures untouched { (result ≡ gtd_kind) → thing_of text.new ≡ thing_of text.old }
{
    let Some(thing) = domain.take(alloc) else {
        return KIND;
    };
    let made = match &*thing {
        Thing::Domain(domain) => canon_of(alloc, domain),
        _ => Err(KIND),
    };
    *domain = Handle::of(thing);
    open_text(alloc, text, made)
}

// The words of the domain.
fn words_of(alloc: Global, domain: &Domain) -> Result<Vec<u8>, u32>
    ensures words { IfOk result (λ bytes. bytes.items ≡ words (domain_tree domain.now)) }
    ensures refused { IfErr result (λ why. why ≡ gtd_memory) }
{
    match write_words(alloc, domain) {
        Ok(text) => Ok(text.into_bytes()),
        Err(_) => Err(MEMORY),
    }
}

/// Opens the words of the domain, in plain English.
#[unsafe(no_mangle)]
pub extern "C" fn gtd_domain_words(alloc: Global, domain: &mut Handle, text: &mut Handle) -> u32
    ensures kept { thing_of domain.new ≡ thing_of domain.old }
    ensures words { (result ≡ gtd_yes) → OfDomain (thing_of domain.old) result
        (λ found. IsTextOf (λ bytes. bytes ≡ words (domain_tree found)) (thing_of text.new)) }
    ensures answers { OfDomain (thing_of domain.old) result (λ found. (result ≡ gtd_yes) ⊎ (result ≡ gtd_memory)) }
    ensures emptied { (result ≡ gtd_memory) → thing_of text.new ≡ None }
    ensures untouched { (result ≡ gtd_kind) → thing_of text.new ≡ thing_of text.old }
{
    let Some(thing) = domain.take(alloc) else {
        return KIND;
    };
    let made = match &*thing {
        Thing::Domain(domain) => words_of(alloc, domain),
        _ => Err(KIND),
    };
    *domain = Handle::of(thing);
    open_text(alloc, text, made)
}
