//! Places in brackets, and the offset behind them.

ghost use Rattle.std.specs.Prelude.{◌≡◌, false, true, IfOk, Some};
ghost use Rattle.gtd_hours_text.specs.Adding.{AddsMoved, IsMovedBy};
ghost use Rattle.gtd_hours.specs.declared.hours.Selector.TheVariants as selector;

use crate::places::with_one;
use gtd_hours::{MovedPlace, Selector, WeekdayPlace};
use gtd_hours_parts::Days;
use std::alloc::AllocError;

// A place from the beginning of the month with the days of an offset.
fn front_moved(place: WeekdayPlace, days: Days) -> Selector
    ensures { IsMovedBy (Some days) (selector.Nth place) result }
{
    if days.count == 0 {
        return Selector::Nth(place);
    }
    match MovedPlace::new(place, false, days.count, days.is_before) {
        Some(moved) => Selector::Moved(moved),
        None => Selector::Nth(place),
    }
}

// A place back from the end of the month with the days of an offset.
fn back_moved(place: WeekdayPlace, days: Days) -> Selector
    ensures { IsMovedBy (Some days) (selector.NthBack place) result }
{
    if days.count == 0 {
        return Selector::NthBack(place);
    }
    match MovedPlace::new(place, true, days.count, days.is_before) {
        Some(moved) => Selector::Moved(moved),
        None => Selector::NthBack(place),
    }
}

fn moved_by(selector: Selector, days: Days) -> Selector
    ensures { IsMovedBy (Some days) selector result }
{
    match selector {
        Selector::Nth(place) => front_moved(place, days),
        Selector::NthBack(place) => back_moved(place, days),
        _ => selector,
    }
}

// A selector as an offset moves it.
fn moved(selector: Selector, days: Option<Days>) -> Selector
    ensures { IsMovedBy days selector result }
{
    match days {
        None => selector,
        Some(days) => moved_by(selector, days),
    }
}

/// The selectors of a list, and behind them others as the offset moves them.
pub fn with_moved(
    list: Vec<Selector>,
    unmoved: Vec<Selector>,
    days: Option<Days>,
) -> Result<Vec<Selector>, AllocError>
    ensures { IfOk result (λ then. AddsMoved days list.items unmoved.items then.items) }
{
    let mut selectors = list;
    let mut rest = unmoved.as_slice();
    while let Some((first, more)) = rest.split_first() {
        selectors = with_one(selectors, moved(*first, days))?;
        rest = more;
    }
    Ok(selectors)
}
