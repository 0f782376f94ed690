//! How many basic domains the hours of parts have, counted before memory is taken.

ghost use Rattle.std.specs.Prelude.{◌≡◌, ◌↔◌, ◌<◌, IsTrue};
ghost use Rattle.gtd_core.specs.Limits.{most_basic_domains};
ghost use Rattle.gtd_hours.specs.Cost.{counted};
ghost use Rattle.gtd_conditional_steps.specs.Hours.{NeedTooMany, PartsNeedTooMany, term_cost, terms_cost};

use crate::tag::Tag;
use gtd_conditional_parts::{Part, Value};
use gtd_conditional_values::Term;
use gtd_core::limits::MOST_BASIC_DOMAINS;
use gtd_hours_domain::cost_of;

// The basic domains of a term, or `u32::MAX` if there are more.
fn cost_in(term: &Term) -> u32
    ensures { result ≡ counted (term_cost term.now) }
{
    match term {
        Term::Named(_) => 0,
        Term::Hours(given) => cost_of(&given.hours),
    }
}

// The most basic domains of a domain.
fn most() -> u32
    ensures { result ≡ most_basic_domains }
{
    u32::from(MOST_BASIC_DOMAINS)
}

// Whether the hours of terms have more basic domains than a domain may have.
fn is_too_much(terms: &[Term]) -> bool
    ensures { IsTrue result ↔ (most_basic_domains < terms_cost terms.now) }
{
    let mut total = 0;
    let mut rest = terms;
    while let Some((term, more)) = rest.split_first() {
        let cost = cost_in(term);
        if cost > most() - total {
            return true;
        }
        total += cost;
        rest = more;
    }
    false
}

fn parts_need_too_many(parts: &[Part]) -> bool
    ensures { IsTrue result ↔ PartsNeedTooMany parts.now }
{
    let mut rest = parts;
    while let Some((part, more)) = rest.split_first() {
        if is_too_much(part.terms.as_slice()) {
            return true;
        }
        rest = more;
    }
    false
}

/// Whether the hours of some part of a value need more than 128 basic domains. Takes no memory.
pub fn needs_too_many(value: &Value) -> bool
    ensures many { IsTrue result ↔ PartsNeedTooMany value.now.parts.items }
{
    parts_need_too_many(value.parts.as_slice())
}

/// Whether those of some tag do.
pub(crate) fn need_too_many(tags: &[Tag]) -> bool
    ensures { IsTrue result ↔ NeedTooMany tags.now }
{
    let mut rest = tags;
    while let Some((tag, more)) = rest.split_first() {
        if needs_too_many(&tag.value) {
            return true;
        }
        rest = more;
    }
    false
}
