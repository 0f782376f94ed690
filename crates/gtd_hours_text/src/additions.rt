//! Adding parts to a rule that is being read.

ghost use Rattle.std.specs.Prelude.{◌≡◌, true, false, IfOk};
ghost use Rattle.gtd_hours_parts.specs.Values.{IsPartOf, IsSelector};
ghost use Rattle.gtd_hours_parts.specs.declared.part.Part.TheVariants as part;
ghost use Rattle.gtd_hours_parts.specs.declared.piece.Piece.{Piece};
ghost use Rattle.gtd_hours_text.specs.Drafts.{IsAdded};
ghost use Rattle.gtd_hours_text.specs.Standing.{begins_rule, names_month_days, names_weekdays, names_weeks, names_years};

use crate::draft::Draft;
use crate::offsets::with_moved;
use crate::places::{with_each, with_one};
use gtd_hours::{Selector, TimeRange, WeekdayPlace};
use gtd_hours_parts::{Days, Part};
use std::alloc::{AllocError, Global};

// Years more.
fn with_years(draft: Draft, selector: Selector) -> Result<Draft, AllocError>
    ensures { IfOk result (λ then. (y : Piece) → names_years y ≡ true → IsSelector y selector → IsAdded draft y then) }
{
    let years = with_one(draft.years, selector)?;
    Ok(Draft { years, ..draft })
}

// Months or dates more.
fn with_month_days(draft: Draft, selector: Selector) -> Result<Draft, AllocError>
    ensures { IfOk result (λ then. (y : Piece) → names_month_days y ≡ true → IsSelector y selector → IsAdded draft y then) }
{
    let month_days = with_one(draft.month_days, selector)?;
    Ok(Draft {
        month_days,
        ..draft
    })
}

// Weeks more.
fn with_weeks(draft: Draft, selector: Selector) -> Result<Draft, AllocError>
    ensures { IfOk result (λ then. (y : Piece) → names_weeks y ≡ true → IsSelector y selector → IsAdded draft y then) }
{
    let weeks = with_one(draft.weeks, selector)?;
    Ok(Draft { weeks, ..draft })
}

// Weekdays more, or one of them at a place back from the end of the month.
fn with_weekdays(draft: Draft, selector: Selector) -> Result<Draft, AllocError>
    ensures { IfOk result (λ then. (y : Piece) → names_weekdays y ≡ true → IsSelector y selector → IsAdded draft y then) }
{
    let unmoved = with_one(draft.unmoved, selector)?;
    Ok(Draft { unmoved, ..draft })
}

// One selector more, of its kind.
fn with_selector(draft: Draft, selector: Selector) -> Result<Draft, AllocError>
    ensures { IfOk result (λ then. (y : Piece) → IsSelector y selector → IsAdded draft y then) }
{
    match selector {
        Selector::Years(_) => with_years(draft, selector),
        Selector::Months(_) => with_month_days(draft, selector),
        Selector::Dates(_) => with_month_days(draft, selector),
        Selector::Dated(_) => with_month_days(draft, selector),
        Selector::Weeks(_) => with_weeks(draft, selector),
        Selector::Weekdays(_) => with_weekdays(draft, selector),
        Selector::Nth(_) => with_weekdays(draft, selector),
        Selector::NthBack(_) => with_weekdays(draft, selector),
        Selector::Moved(_) => with_weekdays(draft, selector),
        Selector::Moving(_) => with_month_days(draft, selector),
        Selector::Yearly(_) => with_month_days(draft, selector),
    }
}

// A weekday at each place from one to another more.
fn with_places(draft: Draft, first: WeekdayPlace, last: WeekdayPlace) -> Result<Draft, AllocError>
    ensures { IfOk result (λ then. (y : Piece) → IsPartOf (part.Places first last) y → IsAdded draft y then) }
{
    let unmoved = with_each(draft.unmoved, first, last)?;
    Ok(Draft { unmoved, ..draft })
}

// The places in brackets end, and the offset behind them moves them.
fn with_end(alloc: Global, draft: Draft, days: Option<Days>) -> Result<Draft, AllocError>
    ensures { IfOk result (λ then. (y : Piece) → IsPartOf (part.PlacesEnd days) y → IsAdded draft y then) }
{
    let weekdays = with_moved(draft.weekdays, draft.unmoved, days)?;
    Ok(Draft {
        weekdays,
        unmoved: Vec::new(alloc),
        ..draft
    })
}

// A range of times more.
fn with_times(draft: Draft, range: TimeRange) -> Result<Draft, AllocError>
    ensures { IfOk result (λ then. (y : Piece) → IsPartOf (part.Times range) y → IsAdded draft y then) }
{
    let mut times = draft.times;
    times.push(range)?;
    Ok(Draft { times, ..draft })
}

/// The draft with one part more.
pub fn with_part(alloc: Global, draft: Draft, part: Part) -> Result<Draft, AllocError>
    ensures { IfOk result (λ then. (y : Piece) → IsPartOf part y → begins_rule y ≡ false → IsAdded draft y then) }
{
    match part {
        Part::Rule(_) => Ok(draft),
        Part::Kind => Ok(draft),
        Part::Selector(selector) => with_selector(draft, selector),
        Part::Places { first, last } => with_places(draft, first, last),
        Part::PlacesEnd(days) => with_end(alloc, draft, days),
        Part::Times(range) => with_times(draft, range),
        Part::Closed => Ok(Draft {
            closed: true,
            ..draft
        }),
    }
}
