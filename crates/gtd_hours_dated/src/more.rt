//! Month days of a rule that its own text does not have.

ghost use Rattle.std.specs.Prelude.{◌≡◌, ◌++◌, IfOk, OnOk, drop, take};
ghost use Rattle.gtd_hours_dated.specs.Dated.{all_days, dates_left, easter_left, more_of, own_left, put_item};

use gtd_hours::{Kind, Selector};
use std::alloc::{AllocError, Global};

/// What stands at a place in a list of month days.
#[derive(Clone, Copy)]
pub enum MonthItem {
    /// A month, a date or a range of these in the rule's own text.
    Own,
    /// A range of days that moves.
    Moving,
    /// Days of Easter.
    Easter,
}

/// Month days of a rule beside those of its own text, and how they stand among these.
#[derive(Drop)]
pub struct MoreDays {
    /// What stands in the list of its month days, from left to right.
    pub order: Vec<MonthItem>,
    /// Its ranges of days that move, from left to right.
    pub dates: Vec<Selector>,
    /// All its days of Easter.
    pub easter: Vec<Selector>,
}

// Appends the first of these selectors, if there is one.
fn put_first(list: &mut Vec<Selector>, selectors: &[Selector]) -> Result<(), AllocError>
    ensures { OnOk result (list.new.items ≡ list.old.items ++ take 1 selectors.now) }
{
    match selectors.first() {
        None => Ok(()),
        Some(first) => {
            list.push(*first)?;
            Ok(())
        }
    }
}

// Appends what stands at a place of a list, where these are left.
fn put_item(
    list: &mut Vec<Selector>,
    item: MonthItem,
    own: &[Selector],
    dates: &[Selector],
    easter: &[Selector],
) -> Result<(), AllocError>
    ensures { OnOk result (list.new.items ≡ list.old.items ++ put_item item own.now dates.now easter.now) }
{
    match item {
        MonthItem::Own => put_first(list, own),
        MonthItem::Moving => put_first(list, dates),
        MonthItem::Easter => list.extend_from_slice(easter),
    }
}

// The selectors behind the first.
fn behind_first(selectors: &[Selector]) -> &[Selector]
    ensures { result.now ≡ drop 1 selectors.now }
{
    match selectors.split_first() {
        None => selectors,
        Some((_, later)) => later,
    }
}

// The month days of a text's own that are left behind a place.
fn own_left(item: MonthItem, own: &[Selector]) -> &[Selector]
    ensures { result.now ≡ own_left item own.now }
{
    match item {
        MonthItem::Own => behind_first(own),
        _ => own,
    }
}

// The ranges that move that are left behind it.
fn dates_left(item: MonthItem, dates: &[Selector]) -> &[Selector]
    ensures { result.now ≡ dates_left item dates.now }
{
    match item {
        MonthItem::Moving => behind_first(dates),
        _ => dates,
    }
}

// The days of Easter that are left behind it.
fn easter_left(item: MonthItem, easter: &[Selector]) -> &[Selector]
    ensures { result.now ≡ easter_left item easter.now }
{
    match item {
        MonthItem::Easter => &easter[..0],
        _ => easter,
    }
}

// Appends a text's own month days and more in their order.
fn put_in_order(
    list: &mut Vec<Selector>,
    own: &[Selector],
    more: &MoreDays,
) -> Result<(), AllocError>
    ensures { OnOk result (list.new.items ≡ list.old.items ++ all_days (more_of more.now) own.now) }
{
    let mut own = own;
    let mut dates = more.dates.as_slice();
    let mut easter = more.easter.as_slice();
    let mut rest = more.order.as_slice();
    while let Some((item, later)) = rest.split_first() {
        put_item(list, *item, own, dates, easter)?;
        own = own_left(*item, own);
        dates = dates_left(*item, dates);
        easter = easter_left(*item, easter);
        rest = later;
    }
    list.extend_from_slice(own)?;
    list.extend_from_slice(dates)?;
    list.extend_from_slice(easter)
}

/// A kind of a text's own month days, which may be none, and more.
pub(crate) fn all_days(alloc: Global, own: &[Selector], more: &MoreDays) -> Result<Kind, AllocError>
    ensures { IfOk result (λ kind. kind.selectors.items ≡ all_days (more_of more.now) own.now) }
{
    let mut selectors = Vec::new(alloc);
    put_in_order(&mut selectors, own, more)?;
    Ok(Kind { selectors })
}
