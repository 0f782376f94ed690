//! The tags of an element, in the order in which their modes are gone over.

ghost use Rattle.std.specs.List.Sorted.{IsNonDecreasingBy};
ghost use Rattle.std.proofs.Props.{props};

use crate::modes::put_in_order;
use crate::tag::Tag;
use std::alloc::AllocError;

/// Tags in the order of their modes: each mode finds its own at once, however many modes there are.
#[derive(Drop)]
pub struct OrderedTags {
    /// The tags, those of a mode in the order in which they were given.
    pub tags: Vec<Tag>,
    pub ghost in_order: { IsNonDecreasingBy (λ tag. tag.mode) tags.items } by { Prim.hlevel props },
}

impl OrderedTags {
    ghost use Rattle.std.specs.Prelude.{◌≡◌, List, IfOk};
    ghost use Rattle.std.specs.List.Sorted.{IsPermutation};
    ghost use Rattle.gtd_rows.specs.declared.direction.Direction.{Direction};
    ghost use Rattle.gtd_conditional_means.specs.declared.meaning.MeansRow.{MeansRow};
    ghost use Rattle.gtd_conditional_parts.specs.declared.said.Subject.{Subject};
    ghost use Rattle.gtd_conditional_steps.specs.Hours.{NeedTooMany};
    ghost use Rattle.gtd_conditional_steps.specs.Sayings.{said_by};

    /// Tags in this order, which say what they say in any other. `AllocError` is answered only if memory was refused.
    pub fn new(mut tags: Vec<Tag>) -> Result<OrderedTags, AllocError>
        ensures moved { IfOk result (λ ordered. IsPermutation tags.items ordered.tags.items) }
        ensures said { IfOk result (λ ordered. (subject : Subject) (rows : List MeansRow) (direction : Direction)
            → said_by subject rows direction ordered.tags.items ≡ said_by subject rows direction tags.items) }
        ensures many { IfOk result (λ ordered. NeedTooMany ordered.tags.items → NeedTooMany tags.items) }
    {
        put_in_order(&mut tags)?;
        Ok(OrderedTags { tags })
    }
}
