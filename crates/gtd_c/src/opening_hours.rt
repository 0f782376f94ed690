//! Domains of opening hours of OpenStreetMap.

ghost use Rattle.std.specs.Prelude.{◌≡◌, ◌≤◌, ◌⊎◌, ◌↔◌, ◌<◌, ℤ, IfErr, IfOk, IfSome, None};
ghost use Rattle.gtd_core.specs.Limits.{most_basic_domains};
ghost use Rattle.gtd_eval.specs.Membership.{InDomain};
ghost use Rattle.gtd_hours.specs.Cost.{hours_cost};
ghost use Rattle.gtd_hours.specs.Opening.{IsOpen};
ghost use Rattle.gtd_hours_text.specs.Standing.{StandsFor};
ghost use Rattle.gtd_handles.specs.Answers.{gtd_kind, gtd_memory, gtd_no, gtd_range, gtd_yes};
ghost use Rattle.gtd_c.specs.OpeningHours.{HasHoursOf, IsFirstHoursFault, IsHoursDomain, IsHoursFault, too_many_numbers};
ghost use Rattle.gtd_handles.specs.Holding.{thing_of};

use crate::hours_faults::{HoursFaultNumbers, TOO_MANY, numbers_of};
use gtd_core::Domain;
use gtd_handles::{Handle, MEMORY, NO, Thing, open};
use gtd_hours::Hours;
use gtd_hours_domain::{TranslationFault, domain_of};
use gtd_hours_text::{HoursTextFault, read_hours};
use std::alloc::Global;

// The hours that the text stands for, or its first fault; nothing, if memory was refused.
fn hours_in(alloc: Global, text: &[u8]) -> Result<Hours, Option<HoursFaultNumbers>>
    ensures stands { IfOk result (λ hours. StandsFor text.now hours) }
    ensures fault { IfErr result (λ why. IfSome why (IsFirstHoursFault text.now)) }
{
    match read_hours(alloc, text) {
        Ok(hours) => Ok(hours),
        Err(HoursTextFault::Fault(fault)) => Err(Some(numbers_of(fault))),
        Err(HoursTextFault::NoMemory) => Err(None),
    }
}

// The domain of the hours, or that it would have too many basic domains; nothing, if memory was refused.
fn domain_with(alloc: Global, hours: &Hours) -> Result<Domain, Option<HoursFaultNumbers>>
    ensures same { IfOk result (λ domain. (s : ℤ) → InDomain domain s ↔ IsOpen hours.now s) }
    ensures many { IfErr result (λ why. IfSome why
        (λ numbers. (numbers ≡ too_many_numbers) × (most_basic_domains < hours_cost hours.now))) }
{
    match domain_of(alloc, hours) {
        Ok(domain) => Ok(domain),
        Err(TranslationFault::TooMany) => Err(Some(HoursFaultNumbers {
            kind: TOO_MANY,
            place: 0,
        })),
        Err(TranslationFault::NoMemory) => Err(None),
    }
}

// The domain of the hours that the text stands for, or why it has none; nothing, if memory was refused.
fn domain_in(alloc: Global, text: &[u8]) -> Result<Domain, Option<HoursFaultNumbers>>
    ensures domain { IfOk result (λ domain. HasHoursOf text.now domain) }
    ensures fault { IfErr result (λ why. IfSome why (IsHoursFault text.now)) }
{
    match hours_in(alloc, text) {
        Ok(hours) => match domain_with(alloc, &hours) {
            Ok(domain) => Ok(domain),
            Err(Some(many)) => Err(Some(many)),
            Err(None) => Err(None),
        },
        Err(Some(fault)) => Err(Some(fault)),
        Err(None) => Err(None),
    }
}

/// Opens the domain with exactly the seconds at which opening hours are open: yes; or no, with the first fault of the text, or
/// that the domain would have more than 128 basic domains, and the handle is left as it was.
#[unsafe(no_mangle)]
pub extern "C" fn gtd_domain_from_hours(
    alloc: Global,
    domain: &mut Handle,
    text: &[u8],
    fault: &mut HoursFaultNumbers,
) -> u32
    ensures opened { (result ≡ gtd_yes) → IsHoursDomain text.now (thing_of domain.new) }
    ensures refused { (result ≡ gtd_no) → IsHoursFault text.now fault.new }
    ensures kept { (result ≡ gtd_no) → thing_of domain.new ≡ thing_of domain.old }
    ensures emptied { (result ≡ gtd_memory) → thing_of domain.new ≡ None }
    ensures untouched { ((result ≡ gtd_no) → ⊥) → fault.new ≡ fault.old }
    ensures answers { (result ≤ gtd_memory) × ((result ≡ gtd_range) → ⊥) × ((result ≡ gtd_kind) → ⊥) }
{
    match domain_in(alloc, text) {
        Ok(read) => open(alloc, domain, Thing::Domain(read)),
        Err(Some(why)) => {
            *fault = why;
            NO
        }
        Err(None) => {
            *domain = Handle::none(alloc);
            MEMORY
        }
    }
}
