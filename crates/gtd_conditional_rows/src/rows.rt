//! The rows of an element.

ghost use Rattle.std.specs.Prelude.{◌≡◌, ◌↔◌, ◌⊎◌, ◌++◌, ℕ, ℤ, not, filter, map, Err, IfOk, OnOk};
ghost use Rattle.gtd_rows.specs.Serving.{ClosesDirection};
ghost use Rattle.gtd_rows.specs.declared.direction.Direction.{Direction};
ghost use Rattle.gtd_conditional_rows.specs.Alike.{AreAlike};
ghost use Rattle.gtd_conditional_rows.specs.Groups.{with_both};
ghost use Rattle.gtd_conditional_rows.specs.Rows.{AreRows, AtMostOne, IsClosedByRow, is_listed, steps_in};
ghost use Rattle.gtd_conditional_rows.specs.Steps.{IsClosed};
ghost use Rattle.gtd_conditional_rows.specs.Times.{NeedsTooMany};
ghost use Rattle.gtd_conditional_rows.specs.Types.{HasType, IsVehicle};

use crate::alike::{Alike, alike_in};
use crate::count::need_too_many;
use crate::fault::RowsFault;
use crate::groups::groups_in;
use crate::overrides::put_effective_last;
use crate::row::{Row, is_listed};
use crate::step::Step;
use gtd_rows::{Closed, Direction};
use std::alloc::{AllocError, Global};

// Puts those of other rows that are not among the rows.
fn put_unlisted(rows: &mut Vec<Row>, others: Vec<Row>) -> Result<(), AllocError>
    ensures { OnOk result (rows.new.items
        ≡ rows.old.items ++ filter (λ row. not (is_listed row rows.old.items)) others.items) }
{
    let count = rows.len();
    for row in others {
        if !is_listed(&row, &rows.as_slice()[..count]) {
            rows.push(row)?;
        }
    }
    Ok(())
}

fn joined(
    alloc: Global,
    positive: &[Step],
    ahead: &Alike,
    negative: &[Step],
    back: &Alike,
) -> Result<Vec<Row>, AllocError>
    requires positive { NeedsTooMany positive.now → ⊥ }
    requires negative { NeedsTooMany negative.now → ⊥ }
    requires ahead { AreAlike positive.now ahead.now }
    requires back { AreAlike negative.now back.now }
    ensures { IfOk result (λ rows. AreRows positive.now negative.now rows.items) }
{
    let backward = groups_in(alloc, negative, back, Direction::Negative, &[])?;
    let mut rows = groups_in(
        alloc,
        positive,
        ahead,
        Direction::Positive,
        backward.as_slice(),
    )?;
    put_unlisted(&mut rows, backward)?;
    Ok(rows)
}

// The rows of steps in the positive and in the negative direction.
fn rows_by(alloc: Global, positive: &[Step], negative: &[Step]) -> Result<Vec<Row>, RowsFault>
    ensures rows { IfOk result (λ rows. AreRows positive.now negative.now rows.items) }
    ensures too_many { (result ≡ Err RowsFault.TooMany) ↔ (NeedsTooMany positive.now ⊎ NeedsTooMany negative.now) }
{
    let ahead = alike_in(positive);
    let back = alike_in(negative);
    if need_too_many(positive, &ahead) || need_too_many(negative, &back) {
        return Err(RowsFault::TooMany);
    }
    match joined(alloc, positive, &ahead, negative, &back) {
        Ok(rows) => Ok(rows),
        Err(_) => Err(RowsFault::NoMemory),
    }
}

/// The rows that close an element exactly when the steps in its positive and in its negative direction do. The answer is
/// `TooMany` exactly if some vehicle type needs more than 128 basic domains, before memory is taken, and otherwise
/// `NoMemory` only if the allocator refused memory.
pub fn rows_of(
    alloc: Global,
    mut positive: Vec<Step>,
    mut negative: Vec<Step>,
) -> Result<Vec<Row>, RowsFault>
    ensures rows { IfOk result (λ rows. AreRows positive.items negative.items rows.items) }
    ensures closed { IfOk result (λ rows. (direction : Direction) (t : ℕ) (s : ℤ) → IsVehicle t
        → IsClosedByRow rows.items direction t s ↔ IsClosed (steps_in positive.items negative.items direction) t s) }
    ensures once { IfOk result (λ rows. (direction : Direction) (t : ℕ) → IsVehicle t
        → AtMostOne (λ row. ClosesDirection row.closed direction × HasType row.types t) rows.items) }
    ensures too_many { (result ≡ Err RowsFault.TooMany) ↔ (NeedsTooMany positive.items ⊎ NeedsTooMany negative.items) }
{
    let ahead = put_effective_last(positive.as_mut_slice());
    let back = put_effective_last(negative.as_mut_slice());
    rows_by(
        alloc,
        &positive.as_slice()[ahead..],
        &negative.as_slice()[back..],
    )
}

// The rows with both directions closed.
fn both_closed(alloc: Global, rows: Vec<Row>) -> Result<Vec<Row>, AllocError>
    ensures { IfOk result (λ both. both.items ≡ map with_both rows.items) }
{
    let mut both = Vec::with_capacity(alloc, rows.len())?;
    for row in rows {
        both.push(Row {
            closed: Closed::Both,
            types: row.types,
            domain: row.domain,
        })?;
    }
    Ok(both)
}

fn joined_both(alloc: Global, steps: &[Step], alike: &Alike) -> Result<Vec<Row>, AllocError>
    requires few { NeedsTooMany steps.now → ⊥ }
    requires alike { AreAlike steps.now alike.now }
    ensures { IfOk result (λ rows. AreRows steps.now steps.now rows.items) }
{
    let rows = groups_in(alloc, steps, alike, Direction::Positive, &[])?;
    both_closed(alloc, rows)
}

// The rows of steps in both directions.
fn rows_by_both(alloc: Global, steps: &[Step]) -> Result<Vec<Row>, RowsFault>
    ensures rows { IfOk result (λ rows. AreRows steps.now steps.now rows.items) }
    ensures too_many { (result ≡ Err RowsFault.TooMany) ↔ NeedsTooMany steps.now }
{
    let alike = alike_in(steps);
    if need_too_many(steps, &alike) {
        return Err(RowsFault::TooMany);
    }
    match joined_both(alloc, steps, &alike) {
        Ok(rows) => Ok(rows),
        Err(_) => Err(RowsFault::NoMemory),
    }
}

/// The rows that close both directions of an element exactly when the steps do: those that `rows_of` answers if these are the
/// steps of each direction, with its errors.
pub fn rows_of_both(alloc: Global, mut steps: Vec<Step>) -> Result<Vec<Row>, RowsFault>
    ensures rows { IfOk result (λ rows. AreRows steps.items steps.items rows.items) }
    ensures closed { IfOk result (λ rows. (direction : Direction) (t : ℕ) (s : ℤ) → IsVehicle t
        → IsClosedByRow rows.items direction t s ↔ IsClosed steps.items t s) }
    ensures once { IfOk result (λ rows. (direction : Direction) (t : ℕ) → IsVehicle t
        → AtMostOne (λ row. ClosesDirection row.closed direction × HasType row.types t) rows.items) }
    ensures too_many { (result ≡ Err RowsFault.TooMany) ↔ NeedsTooMany steps.items }
{
    let first = put_effective_last(steps.as_mut_slice());
    rows_by_both(alloc, &steps.as_slice()[first..])
}
