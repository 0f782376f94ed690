//! Hours that are being read.

ghost use Rattle.std.specs.Prelude.{◌≡◌, false, IfOk, List, []};
ghost use Rattle.gtd_hours.specs.declared.hours.Link.TheVariants as link;
ghost use Rattle.gtd_hours_parts.specs.declared.piece.Piece.{Piece};
ghost use Rattle.gtd_hours_parts.specs.declared.part.Part.TheVariants as part;
ghost use Rattle.gtd_hours_parts.specs.Values.{IsPartOf};
ghost use Rattle.gtd_hours_text.specs.Drafts.{Builds, IsBuilding};
ghost use Rattle.gtd_hours_text.specs.Standing.{AreRules, begins_rule};

use crate::additions::with_part;
use crate::draft::{Draft, new_draft, rule_of};
use gtd_hours::{Hours, Link, Rule};
use gtd_hours_parts::Part;
use std::alloc::{AllocError, Global};

/// The rules that have been read, and the one that is being read.
#[derive(Drop)]
pub struct Building {
    pub rules: Vec<Rule>,
    pub draft: Draft,
}

/// Nothing has been read. Takes no memory.
pub fn nothing(alloc: Global) -> Building
    ensures { IsBuilding [] result }
{
    Building {
        rules: Vec::new(alloc),
        draft: new_draft(alloc, Link::Instead),
    }
}

// The rule that was being read has ended, and another begins.
fn with_rule(alloc: Global, so_far: Building, link: Link) -> Result<Building, AllocError>
    ensures { IfOk result (λ then. (y : Piece) → IsPartOf (part.Rule link) y → Builds so_far y then) }
{
    let rule = rule_of(alloc, so_far.draft)?;
    let mut rules = so_far.rules;
    rules.push(rule)?;
    Ok(Building {
        rules,
        draft: new_draft(alloc, link),
    })
}

// The rule that is being read has one part more.
fn with_more(alloc: Global, so_far: Building, part: Part) -> Result<Building, AllocError>
    ensures { IfOk result (λ then. (y : Piece) → IsPartOf part y → begins_rule y ≡ false → Builds so_far y then) }
{
    let draft = with_part(alloc, so_far.draft, part)?;
    Ok(Building { draft, ..so_far })
}

/// The hours with one part more.
pub fn with_next(alloc: Global, so_far: Building, part: Part) -> Result<Building, AllocError>
    ensures { IfOk result (λ then. (y : Piece) → IsPartOf part y → Builds so_far y then) }
{
    match part {
        Part::Rule(link) => with_rule(alloc, so_far, link),
        _ => with_more(alloc, so_far, part),
    }
}

/// The hours that have been read in full.
pub fn hours_of(alloc: Global, so_far: Building) -> Result<Hours, AllocError>
    ensures { IfOk result
        (λ hours. (p : List Piece) → IsBuilding p so_far → AreRules link.Instead p hours.rules.items) }
{
    let rule = rule_of(alloc, so_far.draft)?;
    let mut rules = so_far.rules;
    rules.push(rule)?;
    Ok(Hours { rules })
}
