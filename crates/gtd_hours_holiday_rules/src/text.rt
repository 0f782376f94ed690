//! A text with holidays, comments, unknown and fallback rules as plain hours and what is said beside them.

ghost use Rattle.std.specs.Prelude.{◌≡◌, IfErr, IfOk, length};
ghost use Rattle.gtd_hours_holiday_rules.specs.Reading.{AreItemsIn, ArePartsIn, HasParts, IsHolidayText};
ghost use Rattle.gtd_hours_items.specs.Comments.{IsNoHolidayText};

use crate::checked::checked_text;
use crate::parts::{Part, parts_of, told_of};
use crate::rules::{HolidayRule, rules_of};
use crate::told::Told;
use crate::whole_days::whole_days_of;
use gtd_hours_items::{Item, NoHolidayText, items_of, tokens_of};
use std::alloc::{AllocError, Global};

/// A text as plain hours and what is said beside them.
#[derive(Drop)]
pub struct HolidayText {
    /// Plain hours of the length of the text, with a fault exactly where the text has one.
    pub checked: Vec<u8>,
    /// Its rules, from left to right.
    pub rules: Vec<HolidayRule>,
    /// How faults of the checked text are told.
    pub told: Vec<Told>,
    /// The number of bytes before each rule that says days alone, and behind which a comma begins another rule.
    pub whole_days: Vec<usize>,
}

// The text with these parts.
fn with_parts(alloc: Global, text: &[u8], parts: &[Part]) -> Result<HolidayText, AllocError>
    ensures { IfOk result (HasParts text.now parts.now) }
{
    let checked = checked_text(alloc, text, parts)?;
    let rules = rules_of(alloc, text, parts)?;
    let told = told_of(alloc, parts)?;
    let whole_days = whole_days_of(alloc, parts)?;
    Ok(HolidayText {
        checked,
        rules,
        told,
        whole_days,
    })
}

// The items of a text, beside which its tokens are not kept.
fn items_in(alloc: Global, text: &[u8]) -> Result<Vec<Item>, NoHolidayText>
    ensures items { IfOk result (λ items. AreItemsIn text.now items.items) }
    ensures fault { IfErr result (IsNoHolidayText text.now) }
{
    let tokens = tokens_of(alloc, text)?;
    let items = items_of(alloc, text, tokens.as_slice())?;
    Ok(items)
}

// The parts of a text, beside which its items are not kept.
fn parts_in(alloc: Global, text: &[u8]) -> Result<Vec<Part>, NoHolidayText>
    ensures parts { IfOk result (λ parts. ArePartsIn text.now parts.items) }
    ensures fault { IfErr result (IsNoHolidayText text.now) }
{
    let items = items_in(alloc, text)?;
    let parts = parts_of(alloc, items.as_slice())?;
    Ok(parts)
}

/// A text as plain hours and what is said beside them. Errors: the first byte with which no token begins, or the first comment
/// that does not end or has a control byte, whichever stands first; or that there is no memory.
pub fn holiday_text(alloc: Global, text: &[u8]) -> Result<HolidayText, NoHolidayText>
    ensures text { IfOk result (IsHolidayText text.now) }
    ensures length { IfOk result (λ read. length read.checked.items ≡ length text.now) }
    ensures fault { IfErr result (IsNoHolidayText text.now) }
{
    let parts = parts_in(alloc, text)?;
    let read = with_parts(alloc, text, parts.as_slice())?;
    Ok(read)
}
