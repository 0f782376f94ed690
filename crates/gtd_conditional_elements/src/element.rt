//! The rows of an element.

ghost use Rattle.std.specs.Prelude.{◌≡◌, ◌↔◌, ◌++◌, ℕ, ℤ, List, Err, IfOk, OnOk};
ghost use Rattle.gtd_rows.specs.declared.direction.Direction.TheVariants.{Positive, Negative};
ghost use Rattle.gtd_conditional_rows.specs.declared.step.Step.{Step};
ghost use Rattle.gtd_conditional_steps.specs.Closing.{IsClosedByTags};
ghost use Rattle.gtd_conditional_elements.specs.Elements as spec;
ghost use Rattle.gtd_conditional_elements.specs.Elements.{AreElementRows, AreRowsBy, AreStepsBy, NeedTooMany, NeedTooManyBy};

use gtd_conditional_means::Means;
use gtd_conditional_parts::Subject;
use gtd_conditional_rows::{Row, RowsFault, rows_of, rows_of_both};
use gtd_conditional_steps::{OrderedTags, StepsFault, Tag, are_two_way, steps_of};
use gtd_rows::Direction;
use std::alloc::{AllocError, Global};

// Why there are no rows where there are no steps.
fn without_steps(why: StepsFault) -> RowsFault
    ensures { result ≡ spec.without_steps why }
{
    match why {
        StepsFault::TooMany => RowsFault::TooMany,
        StepsFault::NoMemory => RowsFault::NoMemory,
    }
}

// The rows of a subject, where the steps of the positive direction are those of the negative one.
fn rows_by_both(
    alloc: Global,
    means: &Means,
    subject: Subject,
    tags: &OrderedTags,
) -> Result<Vec<Row>, RowsFault>
    requires steps { (steps : List Step) → AreStepsBy means.now.rows.items subject tags.now.tags.items Positive steps
        → AreStepsBy means.now.rows.items subject tags.now.tags.items Negative steps }
    requires closed { (t : ℕ) (s : ℤ) → IsClosedByTags means.now.rows.items subject tags.now.tags.items Positive t s
        ↔ IsClosedByTags means.now.rows.items subject tags.now.tags.items Negative t s }
    ensures rows { IfOk result (λ rows. AreRowsBy means.now.rows.items subject tags.now.tags.items rows.items) }
    ensures too_many { result ≡ Err RowsFault.TooMany → NeedTooManyBy means.now.rows.items subject tags.now.tags.items }
{
    match steps_of(alloc, means, subject, tags, Direction::Positive) {
        Ok(steps) => rows_of_both(alloc, steps),
        Err(why) => Err(without_steps(why)),
    }
}

// The rows of a subject, from the steps of each direction.
fn rows_by_each(
    alloc: Global,
    means: &Means,
    subject: Subject,
    tags: &OrderedTags,
) -> Result<Vec<Row>, RowsFault>
    ensures rows { IfOk result (λ rows. AreRowsBy means.now.rows.items subject tags.now.tags.items rows.items) }
    ensures too_many { result ≡ Err RowsFault.TooMany → NeedTooManyBy means.now.rows.items subject tags.now.tags.items }
{
    let positive = match steps_of(alloc, means, subject, tags, Direction::Positive) {
        Ok(steps) => steps,
        Err(why) => return Err(without_steps(why)),
    };
    let negative = match steps_of(alloc, means, subject, tags, Direction::Negative) {
        Ok(steps) => steps,
        Err(why) => return Err(without_steps(why)),
    };
    rows_of(alloc, positive, negative)
}

// The rows of a subject.
fn rows_by(
    alloc: Global,
    means: &Means,
    subject: Subject,
    tags: &OrderedTags,
) -> Result<Vec<Row>, RowsFault>
    ensures rows { IfOk result (λ rows. AreRowsBy means.now.rows.items subject tags.now.tags.items rows.items) }
    ensures too_many { result ≡ Err RowsFault.TooMany → NeedTooManyBy means.now.rows.items subject tags.now.tags.items }
{
    if are_two_way(tags.tags.as_slice()) {
        rows_by_both(alloc, means, subject, tags)
    } else {
        rows_by_each(alloc, means, subject, tags)
    }
}

// Puts rows after others.
fn put_rows(rows: &mut Vec<Row>, others: Vec<Row>) -> Result<(), AllocError>
    ensures { OnOk result (rows.new.items ≡ rows.old.items ++ others.items) }
{
    for row in others {
        rows.push(row)?;
    }
    Ok(())
}

// The rows of an element with these tags: first those of access, then those of one-way traffic.
fn rows_in_order(alloc: Global, means: &Means, tags: &OrderedTags) -> Result<Vec<Row>, RowsFault>
    ensures rows { IfOk result (λ rows. AreElementRows means.now.rows.items tags.now.tags.items rows.items) }
    ensures too_many { result ≡ Err RowsFault.TooMany → NeedTooMany means.now.rows.items tags.now.tags.items }
{
    let mut rows = match rows_by(alloc, means, Subject::Access, tags) {
        Ok(rows) => rows,
        Err(why) => return Err(why),
    };
    let oneway = match rows_by(alloc, means, Subject::Oneway, tags) {
        Ok(rows) => rows,
        Err(why) => return Err(why),
    };
    match put_rows(&mut rows, oneway) {
        Ok(()) => Ok(rows),
        Err(_) => Err(RowsFault::NoMemory),
    }
}

/// The rows of an element with these tags.
pub(crate) fn rows_of_element(
    alloc: Global,
    means: &Means,
    tags: Vec<Tag>,
) -> Result<Vec<Row>, RowsFault>
    ensures rows { IfOk result (λ rows. AreElementRows means.now.rows.items tags.items rows.items) }
    ensures too_many { result ≡ Err RowsFault.TooMany → NeedTooMany means.now.rows.items tags.items }
{
    match OrderedTags::new(tags) {
        Ok(tags) => rows_in_order(alloc, means, &tags),
        Err(_) => Err(RowsFault::NoMemory),
    }
}
