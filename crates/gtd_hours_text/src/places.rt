//! The selectors that places of a weekday in the month are.

ghost use Rattle.std.specs.Prelude.{◌≡◌, ◌≤◌, ◌∷◌, ◌++◌, IfOk, []};
ghost use Rattle.gtd_hours.specs.Ranges.{IsWeekday};
ghost use Rattle.gtd_hours_text.specs.Adding.{AddsPlace, AddsPlaces};

use gtd_hours::{Selector, WeekdayPlace};
use std::alloc::AllocError;

/// A list with one selector more.
pub fn with_one(list: Vec<Selector>, selector: Selector) -> Result<Vec<Selector>, AllocError>
    ensures { IfOk result (λ then. then.items ≡ list.items ++ selector ∷ []) }
{
    let mut selectors = list;
    selectors.push(selector)?;
    Ok(selectors)
}

/// The selectors of a list, and behind them the weekday of a place at each place from it to another.
pub fn with_each(
    list: Vec<Selector>,
    first: WeekdayPlace,
    last: WeekdayPlace,
) -> Result<Vec<Selector>, AllocError>
    ensures { IfOk result (λ then. AddsPlaces list.items first.weekday first.number last.number then.items) }
{
    let mut selectors = list;
    let mut number = first.number;
    while number <= last.number {
        selectors = with_place(selectors, first.weekday, number)?;
        number += 1;
    }
    Ok(selectors)
}

// The weekday at one place.
fn with_place(list: Vec<Selector>, weekday: u8, number: u8) -> Result<Vec<Selector>, AllocError>
    requires weekday { IsWeekday weekday }
    requires first { 1 ≤ number }
    requires last { number ≤ 5 }
    ensures { IfOk result (λ then. AddsPlace list.items weekday number then.items) }
{
    match WeekdayPlace::new(weekday, number) {
        Some(place) => {
            let selectors = with_one(list, Selector::Nth(place))?;
            Ok(selectors)
        }
        None => Ok(list),
    }
}
