//! The opened and the closed spans of an element, in one order.

ghost use Rattle.std.specs.Prelude.{◌≡◌};
ghost use Rattle.gtd_changes.specs.Merging.{TakesChange, by_from, with_ahead};
ghost use Rattle.gtd_spans.specs.Sweeping.{Takes};

use crate::change::Change;
use gtd_core::Span;
use gtd_spans::SpanSource;

/// The next span of each of two sources, which was taken from it and not handed on.
#[derive(Clone, Copy)]
pub(crate) struct Ahead {
    pub(crate) opened: Option<Span>,
    pub(crate) closed: Option<Span>,
}

/// The next change: of the spans that are ahead the one that begins first.
pub(crate) fn next_change<A: SpanSource, B: SpanSource>(
    opened: &mut A,
    closed: &mut B,
    ahead: &mut Ahead,
) -> Option<Change>
    ensures takes { TakesChange
        (by_from (with_ahead ahead.old.opened (A.rest opened.old)) (with_ahead ahead.old.closed (B.rest closed.old))) result
        (by_from (with_ahead ahead.new.opened (A.rest opened.new)) (with_ahead ahead.new.closed (B.rest closed.new))) }
{
    let first = *ahead;
    match first.opened {
        Some(x) => match first.closed {
            Some(y) => {
                if y.from().0 < x.from().0 {
                    ahead.closed = closed.next();
                    Some(Change::Closed(y))
                } else {
                    ahead.opened = opened.next();
                    Some(Change::Opened(x))
                }
            }
            None => {
                ahead.opened = opened.next();
                Some(Change::Opened(x))
            }
        },
        None => match first.closed {
            Some(y) => {
                ahead.closed = closed.next();
                Some(Change::Closed(y))
            }
            None => None,
        },
    }
}
