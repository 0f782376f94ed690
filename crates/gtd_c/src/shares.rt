//! Another handle of the same records.

ghost use Rattle.std.specs.Prelude.{◌≡◌, ◌⊎◌, None};
ghost use Rattle.gtd_handles.specs.Answers.{gtd_kind, gtd_memory, gtd_yes};
ghost use Rattle.gtd_handles.specs.Handles.{OfRecords, StandsForRecords};
ghost use Rattle.gtd_handles.specs.Holding.{thing_of};

use gtd_handles::{Handle, KIND, MEMORY, Thing, open};
use std::alloc::Global;

// Does nothing. A call of it is proved only if the type is `Send`: if its values may go to another thread.
fn assert_send<T: Send>(_: &T) {}

/// Opens another handle of the same records, which another thread may use.
#[unsafe(no_mangle)]
pub extern "C" fn gtd_share(alloc: Global, records: &mut Handle, other: &mut Handle) -> u32
    ensures kept { thing_of records.new ≡ thing_of records.old }
    ensures shared { (result ≡ gtd_yes) → OfRecords (thing_of records.old) result
        (λ found. StandsForRecords found (thing_of other.new)) }
    ensures kind { OfRecords (thing_of records.old) result (λ found. (result ≡ gtd_yes) ⊎ (result ≡ gtd_memory)) }
    ensures emptied { (result ≡ gtd_memory) → thing_of other.new ≡ None }
    ensures untouched { (result ≡ gtd_kind) → thing_of other.new ≡ thing_of other.old }
{
    let Some(thing) = records.take(alloc) else {
        return KIND;
    };
    let shared = match &*thing {
        Thing::Records(shared) => match shared.another() {
            Ok(another) => Ok(another),
            Err(_) => Err(MEMORY),
        },
        _ => Err(KIND),
    };
    *records = Handle::of(thing);
    assert_send(records);
    match shared {
        Ok(another) => open(alloc, other, Thing::Records(another)),
        Err(why) => {
            if why == MEMORY {
                *other = Handle::none(alloc);
            }
            why
        }
    }
}
