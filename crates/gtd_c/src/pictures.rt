//! Pictures.

ghost use Rattle.std.specs.Prelude.{◌≡◌, ◌≤◌, ◌⊎◌, IfErr, IfOk, None};
ghost use Rattle.gtd_report.specs.Run.{IsTableYear};
ghost use Rattle.gtd_handles.specs.Answers.{IsRange, gtd_memory, gtd_no, gtd_range, gtd_yes};
ghost use Rattle.gtd_handles.specs.Handles.{IsTextOf, OfDomain};
ghost use Rattle.gtd_c.specs.Pictures.{IsPictureText};
ghost use Rattle.gtd_handles.specs.Holding.{thing_of};

use gtd_core::Domain;
use gtd_handles::{Collected, Handle, KIND, MEMORY, RANGE, Thing, open_text};
use gtd_picture::put_domain_picture;
use gtd_text::print_domain;
use std::alloc::Global;

// The picture of a year of the domain.
fn picture_of(alloc: Global, domain: &Domain, year: u32) -> Result<Vec<u8>, u32>
    ensures picture { IfOk result (λ bytes. IsPictureText domain.now year bytes.items) }
    ensures refused { IfErr result (λ why. ((why ≡ gtd_range) × (IsTableYear year → ⊥)) ⊎ ((why ≡ gtd_memory)
        × IsTableYear year)) }
    ensures ranged { IfOk result (λ bytes. IsTableYear year) }
{
    if year < 1901 || year > 2199 {
        return Err(RANGE);
    }
    let title = match print_domain(alloc, domain) {
        Ok(title) => title,
        Err(_) => return Err(MEMORY),
    };
    let mut output = Collected::new(alloc);
    match put_domain_picture(alloc, &mut output, domain, title.as_str(), year as u16) {
        Ok(_) => Ok(output.into_bytes()),
        Err(_) => Err(MEMORY),
    }
}

/// Opens the picture of a year of the domain, in SVG. Its title is the canonical text of the domain. The year must be from
/// 1901 to 2199.
#[unsafe(no_mangle)]
pub extern "C" fn gtd_domain_picture(
    alloc: Global,
    domain: &mut Handle,
    year: u32,
    text: &mut Handle,
) -> u32
    ensures kept { thing_of domain.new ≡ thing_of domain.old }
    ensures picture { (result ≡ gtd_yes) → OfDomain (thing_of domain.old) result
        (λ found. IsTextOf (IsPictureText found year) (thing_of text.new)) }
    ensures range { OfDomain (thing_of domain.old) result (λ found. IsRange (IsTableYear year) result) }
    ensures emptied { (result ≡ gtd_memory) → thing_of text.new ≡ None }
    ensures untouched { ((result ≡ gtd_yes) → ⊥) → ((result ≡ gtd_memory) → ⊥) → thing_of text.new ≡ thing_of text.old }
    ensures answers { (result ≤ gtd_memory) × ((result ≡ gtd_no) → ⊥) }
{
    let Some(thing) = domain.take(alloc) else {
        return KIND;
    };
    let made = match &*thing {
        Thing::Domain(domain) => picture_of(alloc, domain, year),
        _ => Err(KIND),
    };
    *domain = Handle::of(thing);
    open_text(alloc, text, made)
}
