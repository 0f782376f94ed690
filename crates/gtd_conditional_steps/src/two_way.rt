//! Tags that say the same of both directions.

ghost use Rattle.std.specs.Prelude.{◌≡◌, ◌↔◌, ℕ, ℤ, List, IsTrue};
ghost use Rattle.gtd_rows.specs.declared.direction.Direction.TheVariants.{Positive, Negative};
ghost use Rattle.gtd_conditional_means.specs.declared.meaning.MeansRow.{MeansRow};
ghost use Rattle.gtd_conditional_parts.specs.declared.said.Subject.{Subject};
ghost use Rattle.gtd_conditional_rows.specs.declared.step.Step.{Step};
ghost use Rattle.gtd_conditional_steps.specs.Closing.{IsClosedByTags};
ghost use Rattle.gtd_conditional_steps.specs.Sayings.{said_by};
ghost use Rattle.gtd_conditional_steps.specs.Steps.{AreStepsOf};
ghost use Rattle.gtd_conditional_steps.specs.TwoWay.{AreTwoWay, SaySame};

use crate::tag::Tag;
use gtd_conditional_means::Access;
use gtd_conditional_parts::{Part, Said};

// Whether a name says the same of both directions.
fn says_same(said: Said) -> bool
    ensures { IsTrue result ↔ (said.positive ≡ said.negative) }
{
    match said.positive {
        Access::Open => match said.negative {
            Access::Open => true,
            Access::Closed => false,
        },
        Access::Closed => match said.negative {
            Access::Open => false,
            Access::Closed => true,
        },
    }
}

// Whether each part does.
fn say_same(parts: &[Part]) -> bool
    ensures { IsTrue result ↔ SaySame parts.now }
{
    let mut rest = parts;
    while let Some((part, more)) = rest.split_first() {
        if !says_same(part.said) {
            return false;
        }
        rest = more;
    }
    true
}

/// Whether tags say the same of both directions: no key speaks of one alone, and no name of one-way traffic does. Then the steps
/// of the positive direction are those of the negative one. Takes no memory.
pub fn are_two_way(tags: &[Tag]) -> bool
    ensures two_way { IsTrue result ↔ AreTwoWay tags.now }
    ensures steps { IsTrue result → (subject : Subject) (rows : List MeansRow) (steps : List Step)
        → AreStepsOf rows Positive (said_by subject rows Positive tags.now) steps
        → AreStepsOf rows Negative (said_by subject rows Negative tags.now) steps }
    ensures closed { IsTrue result → (subject : Subject) (rows : List MeansRow) (t : ℕ) (s : ℤ)
        → IsClosedByTags rows subject tags.now Positive t s ↔ IsClosedByTags rows subject tags.now Negative t s }
{
    let mut rest = tags;
    while let Some((tag, more)) = rest.split_first() {
        if tag.direction.is_some() || !say_same(tag.value.parts.as_slice()) {
            return false;
        }
        rest = more;
    }
    true
}
