//! Many questions at once.

ghost use Rattle.std.specs.Prelude.{◌≡◌, pos};
ghost use Rattle.gtd_core.specs.Seconds.{IsHorizonSecond};
ghost use Rattle.gtd_eval.specs.Membership.{InDomain};
ghost use Rattle.gtd_handles.specs.Answers.{gtd_kind};
ghost use Rattle.gtd_c.specs.Batches.{AreAnswered};
ghost use Rattle.gtd_handles.specs.Handles.{OfDomain};
ghost use Rattle.gtd_handles.specs.Holding.{thing_of};

use crate::horizons::is_second;
use gtd_core::{Domain, Sec};
use gtd_eval::holds;
use gtd_handles::{Handle, KIND, RANGE, SHORT, Thing, YES};
use std::alloc::Global;

// Whether the domain contains each second, up to the first that is out of range.
fn hold_all(domain: &Domain, seconds: &[i64], answers: &mut [u8], done: &mut usize) -> u32
    ensures answered { AreAnswered IsHorizonSecond (InDomain domain.now) seconds.now (pos 0)
        result answers.old answers.new done.old done.new }
{
    if answers.len() < seconds.len() {
        return SHORT;
    }
    for at in 0..seconds.len() {
        let second = seconds[at];
        if !is_second(second) {
            *done = at;
            return RANGE;
        }
        answers[at] = holds(domain, Sec(second)) as u8;
    }
    *done = seconds.len();
    YES
}

/// Whether the domain contains each of many seconds: 1 or 0 for each, in their order, up to the first that is out of range,
/// and how many were answered. If there are fewer answers than seconds, nothing is answered.
#[unsafe(no_mangle)]
pub extern "C" fn gtd_domain_holds_many(
    alloc: Global,
    domain: &mut Handle,
    seconds: &[i64],
    answers: &mut [u8],
    done: &mut usize,
) -> u32
    ensures kept { thing_of domain.new ≡ thing_of domain.old }
    ensures answered { OfDomain (thing_of domain.old) result (λ found.
        AreAnswered IsHorizonSecond (InDomain found) seconds.now (pos 0) result answers.old answers.new done.old done.new) }
    ensures untouched { (result ≡ gtd_kind) → (answers.new ≡ answers.old) × (done.new ≡ done.old) }
{
    let Some(thing) = domain.take(alloc) else {
        return KIND;
    };
    let answer = match &*thing {
        Thing::Domain(domain) => hold_all(domain, seconds, answers, done),
        _ => KIND,
    };
    *domain = Handle::of(thing);
    answer
}
