//! Gaps between spans, handed on to a taker.

ghost use Rattle.gtd_eval.specs.Gaps.{IsReadyForGap, TakesGap};

use crate::taker::SpanTaker;
use gtd_core::Span;
use gtd_spans::Sweep;

/// Takes the spans of the one side of a sweep, and hands on what the sweep makes of them, the gaps between them, to a taker.
#[derive(Drop)]
pub(crate) struct Gaps<'a, T> {
    pub(crate) sweep: Sweep,
    pub(crate) taker: &'a mut T,
}

impl<E, T: SpanTaker<E>> SpanTaker<E> for Gaps<'_, T> {
    ghost is_ready = { λ into gaps spans. IsReadyForGap T.is_ready into gaps.sweep gaps.taker.now spans };

    ghost takes = { λ into gaps span. λ after then all.
        TakesGap T.is_ready T.takes into gaps.sweep gaps.taker.ghost_name gaps.taker.now span
        after then.sweep then.taker.ghost_name then.taker.now all };

    #[inline(always)]
    fn take(&mut self, into: &mut E, span: Span) -> bool {
        match self.sweep.gap_before(span) {
            Some(gap) => self.taker.take(into, gap),
            None => true,
        }
    }
}
