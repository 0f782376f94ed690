//! Set operators on lists. Each collects a source over the two lists, and fails only if memory is refused.

ghost use Rattle.std.specs.Prelude.{◌⊎◌, ◌↔◌, ℤ, IfOk, IsTrue};
ghost use Rattle.gtd_core.specs.Seconds.{Within};
ghost use Rattle.gtd_core.specs.Whole.{whole};
ghost use Rattle.gtd_spans.specs.Normal.{Holds, IsNormal, HoldSame, Combined};

use crate::list::{Listed, SpanList};
use crate::source::{Outside, Pair};
use gtd_core::{Horizon, Op};
use std::alloc::{AllocError, Global};

fn combined(alloc: Global, op: Op, a: &SpanList, b: &SpanList) -> Result<SpanList, AllocError>
    ensures seconds { IfOk result
        (λ r. (t : ℤ) → Holds r t ↔ Combined op (Holds a.now t) (Holds b.now t)) }
    ensures normal { IfOk result (λ r. IsNormal r) }
{
    SpanList::collect(alloc, &mut Pair::new(op, a.source(), b.source()))
}

/// The seconds of either list.
pub fn union(alloc: Global, a: &SpanList, b: &SpanList) -> Result<SpanList, AllocError>
    ensures seconds { IfOk result (λ r. (t : ℤ) → Holds r t ↔ (Holds a.now t ⊎ Holds b.now t)) }
    ensures normal { IfOk result (λ r. IsNormal r) }
{
    combined(alloc, Op::Union, a, b)
}

/// The seconds of both lists.
pub fn meet(alloc: Global, a: &SpanList, b: &SpanList) -> Result<SpanList, AllocError>
    ensures seconds { IfOk result (λ r. (t : ℤ) → Holds r t ↔ (Holds a.now t × Holds b.now t)) }
    ensures normal { IfOk result (λ r. IsNormal r) }
{
    combined(alloc, Op::Meet, a, b)
}

/// The seconds of the first list that are not in the second.
pub fn minus(alloc: Global, a: &SpanList, b: &SpanList) -> Result<SpanList, AllocError>
    ensures seconds { IfOk result
        (λ r. (t : ℤ) → Holds r t ↔ (Holds a.now t × (Holds b.now t → ⊥))) }
    ensures normal { IfOk result (λ r. IsNormal r) }
{
    combined(alloc, Op::Minus, a, b)
}

/// The seconds of the horizon that are in the list.
pub fn within(alloc: Global, list: &SpanList, horizon: Horizon) -> Result<SpanList, AllocError>
    ensures seconds { IfOk result
        (λ r. (t : ℤ) → Holds r t ↔ (Holds list.now t × Within (whole horizon) t)) }
    ensures normal { IfOk result (λ r. IsNormal r) }
{
    let whole = [horizon.whole()];
    let whole = Listed { spans: &whole };
    SpanList::collect(alloc, &mut Pair::new(Op::Meet, list.source(), whole))
}

/// The seconds of the horizon that are not in the list.
pub fn complement(alloc: Global, list: &SpanList, horizon: Horizon) -> Result<SpanList, AllocError>
    ensures seconds { IfOk result
        (λ r. (t : ℤ) → Holds r t ↔ (Within (whole horizon) t × (Holds list.now t → ⊥))) }
    ensures normal { IfOk result (λ r. IsNormal r) }
{
    SpanList::collect(alloc, &mut Outside::new(list.source(), horizon))
}

/// Whether the two lists hold the same seconds.
pub fn same(a: &SpanList, b: &SpanList) -> bool
    ensures seconds { IsTrue result ↔ HoldSame a.now b.now }
{
    a.spans() == b.spans()
}
