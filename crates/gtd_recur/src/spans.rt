//! The seconds of a basic domain in a horizon, as a list.

ghost use Rattle.std.specs.Prelude.{IfOk};
ghost use Rattle.gtd_core.specs.Whole.{whole};
ghost use Rattle.gtd_spans.specs.Normal.{IsNormalFor};
ghost use Rattle.gtd_recur.specs.Membership.{InBasic};

use crate::runs::Runs;
use gtd_core::{Basic, Horizon};
use gtd_spans::SpanList;
use std::alloc::{AllocError, Global};

/// The normal list of a basic domain's seconds in a horizon, or an error if memory was refused.
pub fn spans_of(alloc: Global, basic: &Basic, horizon: Horizon) -> Result<SpanList, AllocError>
    ensures normal { IfOk result (λ spans.
        IsNormalFor (InBasic basic.now) (whole horizon).from (whole horizon).until spans) }
{
    let mut runs = Runs::new(*basic, horizon);
    SpanList::collect(alloc, &mut runs)
}
