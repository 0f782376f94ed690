//! Opening handles.

ghost use Rattle.std.specs.Prelude.{◌≡◌, ◌⊎◌, IfErr, IfOk, None, Some};
ghost use Rattle.gtd_handles.specs.Answers.{gtd_memory, gtd_yes};
ghost use Rattle.gtd_handles.specs.Holding.{thing_of};

use crate::answers::{MEMORY, YES};
use crate::handle::{Handle, Thing};
use gtd_eval::KeptCursor;
use std::alloc::Global;

/// Has the handle stand for this, in the place of what it stood for, which ends. If memory was refused, the handle is then
/// empty.
pub fn open(alloc: Global, handle: &mut Handle, thing: Thing) -> u32
    ensures opened { ((result ≡ gtd_yes) × (thing_of handle.new ≡ Some thing))
        ⊎ ((result ≡ gtd_memory) × (thing_of handle.new ≡ None)) }
{
    match Box::new(alloc, thing) {
        Ok(thing) => {
            *handle = Handle::of(thing);
            YES
        }
        Err(_) => {
            *handle = Handle::none(alloc);
            MEMORY
        }
    }
}

/// Opens these spans, or answers why there are none.
pub fn open_spans(alloc: Global, spans: &mut Handle, opened: Result<KeptCursor, u32>) -> u32
    ensures opened { IfOk opened (λ c. ((result ≡ gtd_yes) × (thing_of spans.new ≡ Some (Thing.Spans c)))
        ⊎ ((result ≡ gtd_memory) × (thing_of spans.new ≡ None))) }
    ensures refused { IfErr opened (λ why. result ≡ why) }
    ensures emptied { (result ≡ gtd_memory) → thing_of spans.new ≡ None }
    ensures untouched { IfErr opened (λ why. ((why ≡ gtd_memory) → ⊥) → thing_of spans.new ≡ thing_of spans.old) }
{
    match opened {
        Ok(cursor) => open(alloc, spans, Thing::Spans(cursor)),
        Err(why) => {
            if why == MEMORY {
                *spans = Handle::none(alloc);
            }
            why
        }
    }
}

/// Opens a text of these bytes, or answers why there is none.
pub fn open_text(alloc: Global, text: &mut Handle, made: Result<Vec<u8>, u32>) -> u32
    ensures opened { IfOk made (λ bytes. ((result ≡ gtd_yes) × (thing_of text.new ≡ Some (Thing.Text bytes)))
        ⊎ ((result ≡ gtd_memory) × (thing_of text.new ≡ None))) }
    ensures refused { IfErr made (λ why. result ≡ why) }
    ensures emptied { (result ≡ gtd_memory) → thing_of text.new ≡ None }
    ensures untouched { IfErr made (λ why. ((why ≡ gtd_memory) → ⊥) → thing_of text.new ≡ thing_of text.old) }
{
    match made {
        Ok(bytes) => open(alloc, text, Thing::Text(bytes)),
        Err(why) => {
            if why == MEMORY {
                *text = Handle::none(alloc);
            }
            why
        }
    }
}
