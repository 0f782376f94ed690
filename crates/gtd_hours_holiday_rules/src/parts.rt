//! The items of a text from left to right, with what becomes of each.

ghost use Rattle.std.specs.Prelude.{◌≡◌, ◌++◌, IfOk, OnOk};
ghost use Rattle.gtd_hours_holiday_rules.specs.Parts.{part_at, parts_of, told_by, told_of};

use crate::told::{Instead, Told, instead_of, told_at};
use gtd_hours_items::Item;
use gtd_hours_roles::{Position, Role, after, front, role_of};
use std::alloc::{AllocError, Global};

/// An item, with what becomes of it.
#[derive(Clone, Copy)]
pub struct Part {
    /// The item.
    pub item: Item,
    /// What becomes of it.
    pub role: Role,
    /// How a fault at it is told, if not as it is.
    pub instead: Option<Instead>,
}

// An item at a position, where these come behind it.
fn part_at(position: Position, item: Item, later: &[Item]) -> Part
    ensures { result ≡ part_at position item later.now }
{
    let role = role_of(position, item, later);
    Part {
        item,
        role,
        instead: instead_of(position, role, item, later),
    }
}

/// The items of a text, with what becomes of each.
pub fn parts_of(alloc: Global, items: &[Item]) -> Result<Vec<Part>, AllocError>
    ensures { IfOk result (λ parts. parts.items ≡ parts_of items.now) }
{
    let mut parts = Vec::new(alloc);
    let mut position = front();
    let mut rest = items;
    while let Some((item, later)) = rest.split_first() {
        let part = part_at(position, *item, later);
        parts.push(part)?;
        position = after(position, part.role, *item);
        rest = later;
    }
    Ok(parts)
}

fn push_told(told: &mut Vec<Told>, at: usize, instead: Option<Instead>) -> Result<(), AllocError>
    ensures { OnOk result (told.new.items ≡ told.old.items ++ told_by at instead) }
{
    match instead {
        None => Ok(()),
        Some(instead) => {
            told.push(Told { at, instead })?;
            Ok(())
        }
    }
}

/// How faults at the items are told.
pub fn told_of(alloc: Global, parts: &[Part]) -> Result<Vec<Told>, AllocError>
    ensures { IfOk result (λ told. told.items ≡ told_of parts.now) }
{
    let mut told = Vec::new(alloc);
    let mut rest = parts;
    while let Some((part, later)) = rest.split_first() {
        push_told(&mut told, told_at(part.role, part.item), part.instead)?;
        rest = later;
    }
    Ok(told)
}
