//! Spans, one by one.

ghost use Rattle.std.specs.Prelude.{◌≡◌, ◌≤◌, ◌∷◌, []};
ghost use Rattle.gtd_eval.specs.Cursors.{cursor_list};
ghost use Rattle.gtd_handles.specs.Answers.{gtd_kind, gtd_no, gtd_yes};
ghost use Rattle.gtd_handles.specs.Handles.{IsSpanTaken};
ghost use Rattle.gtd_handles.specs.Holding.{thing_of};

use gtd_eval::KeptCursor;
use gtd_handles::{Handle, KIND, NO, Thing, YES};
use gtd_spans::SpanSource;
use std::alloc::Global;

// Takes the first span that is still to come.
fn next_of(spans: &mut KeptCursor, from: &mut i64, until: &mut i64) -> u32
    ensures taken { (result ≡ gtd_yes)
        → cursor_list spans.old ≡ record { from = from.new; until = until.new } ∷ cursor_list spans.new }
    ensures none { (result ≡ gtd_no) → (cursor_list spans.old ≡ []) × (cursor_list spans.new ≡ []) }
    ensures answers { result ≤ gtd_yes }
    ensures untouched { ((result ≡ gtd_yes) → ⊥) → (from.new ≡ from.old) × (until.new ≡ until.old) }
{
    match spans.next() {
        Some(span) => {
            *from = span.from().0;
            *until = span.until().0;
            YES
        }
        None => NO,
    }
}

/// Takes the first span that is still to come: yes, with its first second and the first second after it; or no, if there is
/// none. Takes no memory.
#[unsafe(no_mangle)]
pub extern "C" fn gtd_spans_next(
    alloc: Global,
    spans: &mut Handle,
    from: &mut i64,
    until: &mut i64,
) -> u32
    ensures taken { IsSpanTaken (thing_of spans.old) (thing_of spans.new) result from.new until.new }
    ensures untouched { ((result ≡ gtd_yes) → ⊥) → (from.new ≡ from.old) × (until.new ≡ until.old) }
    ensures kept { (result ≡ gtd_kind) → thing_of spans.new ≡ thing_of spans.old }
{
    let Some(mut thing) = spans.take(alloc) else {
        return KIND;
    };
    let answer = match &mut *thing {
        Thing::Spans(cursor) => next_of(cursor, from, until),
        _ => KIND,
    };
    *spans = Handle::of(thing);
    answer
}
