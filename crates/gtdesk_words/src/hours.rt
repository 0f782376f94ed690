//! What a text of opening hours stands for.

ghost use Rattle.std.specs.Prelude.{◌≡◌, ◌⊎◌, ◌<◌, IfErr, IfOk, IfSome, None, Some};
ghost use Rattle.gtd_core.specs.Limits.{most_basic_domains};
ghost use Rattle.gtd_hours.specs.Cost.{hours_cost};
ghost use Rattle.gtd_hours_text.specs.Standing.{StandsFor};
ghost use Rattle.gtdesk_words.specs.HoursWords.{IsHoursDomain, IsNoDomainOf, IsTranslation, too_many};

use crate::refusal::NoDomain;
use gtd_core::Domain;
use gtd_hours::Hours;
use gtd_hours_domain::{TranslationFault, cost_of, domain_of};
use gtd_hours_known::KnownFault;
use gtd_hours_options::OptionsFault;
use gtd_hours_text::{HoursTextFault, read_hours};
use std::alloc::Global;

// The hours that the text stands for, or its first fault. No fault is answered if memory was refused.
fn hours_in(alloc: Global, text: &str) -> Result<Hours, Option<NoDomain>>
    ensures stands { IfOk result (StandsFor text.now) }
    ensures refused { IfErr result (λ why. IfSome why (IsNoDomainOf text.now)) }
{
    match read_hours(alloc, text.as_bytes()) {
        Ok(hours) => Ok(hours),
        Err(HoursTextFault::Fault(fault)) => {
            Err(Some(NoDomain::Fault(OptionsFault::Known(KnownFault::Hours(fault)))))
        }
        Err(HoursTextFault::NoMemory) => Err(None),
    }
}

// The domain with exactly the seconds at which the hours are open.
fn domain_with(alloc: Global, hours: &Hours) -> Result<Domain, Option<NoDomain>>
    ensures same { IfOk result (IsTranslation hours.now) }
    ensures cause { IfErr result (λ why. (why ≡ None)
        ⊎ ((why ≡ Some (too_many hours.now)) × (most_basic_domains < hours_cost hours.now))) }
{
    match domain_of(alloc, hours) {
        Ok(domain) => Ok(domain),
        Err(TranslationFault::TooMany) => Err(Some(NoDomain::TooMany {
            needed: cost_of(hours),
        })),
        Err(TranslationFault::NoMemory) => Err(None),
    }
}

/// The domain with exactly the seconds at which the hours of a text are open. Errors: the first fault of the text; or, where it
/// has none, that the domain would have too many basic domains. No fault is answered if memory was refused.
pub fn hours_domain(alloc: Global, text: &str) -> Result<Domain, Option<NoDomain>>
    ensures domain { IfOk result (IsHoursDomain text.now) }
    ensures refused { IfErr result (λ why. IfSome why (IsNoDomainOf text.now)) }
{
    let hours = match hours_in(alloc, text) {
        Ok(hours) => hours,
        Err(why) => return Err(why),
    };
    domain_with(alloc, &hours)
}
