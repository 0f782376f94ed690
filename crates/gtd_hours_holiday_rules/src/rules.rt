//! The rules of a text, each with its own text of plain hours, its holidays, and what else is said of it.

ghost use Rattle.std.specs.Prelude.{◌≡◌, ◌++◌, ◌∷◌, [], List, IfOk, OnOk, false, map, replicate};
ghost use Rattle.gtd_hours_holiday_rules.specs.Rules.{all_rules, before_holiday, begun, ended, every_text, link_behind, or_place};
ghost use Rattle.gtd_hours_holiday_rules.specs.Rules.{rules_of, said_by, with_date, with_easter, with_every, with_holiday};
ghost use Rattle.gtd_hours_holiday_rules.specs.Rules.{with_item, with_month_day, with_text, with_weekdays, with_year};
ghost use Rattle.gtd_hours_holiday_rules.specs.declared.parts.Part.{Part};

use crate::parts::Part;
use gtd_hours::{Link, Selector};
use gtd_hours_dated::MonthItem;
use gtd_hours_days::{EasterDays, Listed};
use gtd_hours_items::Item;
use gtd_hours_moving::stretch;
use gtd_hours_roles::Role;
use std::alloc::{AllocError, Global};
use std::mem::replace;

/// A rule of a text.
#[derive(Drop)]
pub struct HolidayRule {
    /// How it stands to the rules before it.
    pub link: Link,
    /// Its text without holidays, ranges of days that move and Easter: plain hours of one rule.
    pub text: Vec<u8>,
    /// Whether its holidays lead: then a day must be one of them as well as what the text says. Else it must be one of them or
    /// one of the text's weekdays.
    pub is_led: bool,
    /// Its holidays, from left to right.
    pub holidays: Vec<Listed>,
    /// Where each of them begins in the whole text.
    pub places: Vec<usize>,
    /// Of each of its holidays and of the weekday selectors of its text, from left to right, whether it is a holiday. Each place
    /// of a weekday in the month is a selector: `We[2,-1],PH` has two before its holiday.
    pub order: Vec<bool>,
    /// What stands in the list of its month days, from left to right: the months and dates of its text, its ranges of days that
    /// move, and its days of Easter.
    pub month_items: Vec<MonthItem>,
    /// Its ranges of days that move, from left to right: they are beside the month days of its text.
    pub dates: Vec<Selector>,
    /// Its days of Easter, from left to right: they are month days, too.
    pub easter: Vec<EasterDays>,
    /// Where the first `easter` of each of these stands in the whole text.
    pub easter_places: Vec<usize>,
    /// Of each of its years, from left to right, whether it has no last one: its text has it up to 2799. A single year directly
    /// before a month is one of them, too.
    pub every: Vec<bool>,
    /// The number of bytes before the slash of the first that has none.
    pub every_place: Option<usize>,
    /// The number of bytes before the word or the comment that makes it unknown, if it is.
    pub unknown: Option<usize>,
    /// The number of bytes before a comment without a word that says that the rule is open, if it has one.
    pub remark: Option<usize>,
}

/// The rules that have ended, and the last one so far.
#[derive(Drop)]
pub struct Cut {
    /// The rules that have ended.
    pub ended: Vec<HolidayRule>,
    /// The last one.
    pub last: HolidayRule,
}

fn begun(alloc: Global, link: Link) -> HolidayRule
    ensures { said_by result ≡ begun link }
{
    HolidayRule {
        link,
        text: Vec::new(alloc),
        is_led: false,
        holidays: Vec::new(alloc),
        places: Vec::new(alloc),
        order: Vec::new(alloc),
        month_items: Vec::new(alloc),
        dates: Vec::new(alloc),
        easter: Vec::new(alloc),
        easter_places: Vec::new(alloc),
        every: Vec::new(alloc),
        every_place: None,
        unknown: None,
        remark: None,
    }
}

fn push_text(rule: &mut HolidayRule, bytes: &[u8]) -> Result<(), AllocError>
    ensures { OnOk result (said_by rule.new ≡ with_text (said_by rule.old) (bytes.now ++ 32 ∷ [])) }
{
    rule.text.extend_from_slice(bytes)?;
    rule.text.push(b' ')?;
    Ok(())
}

// So many weekday selectors of the rule's own stand next.
fn push_own(order: &mut Vec<bool>, count: usize) -> Result<(), AllocError>
    ensures { OnOk result (order.new.items ≡ order.old.items ++ replicate count false) }
{
    for _ in 0..count {
        order.push(false)?;
    }
    Ok(())
}

fn push_weekdays(rule: &mut HolidayRule, bytes: &[u8], count: usize) -> Result<(), AllocError>
    ensures { OnOk result (said_by rule.new ≡ with_weekdays (said_by rule.old) (bytes.now ++ 32 ∷ []) count) }
{
    push_text(rule, bytes)?;
    push_own(&mut rule.order, count)?;
    Ok(())
}

fn push_month_day(rule: &mut HolidayRule, bytes: &[u8]) -> Result<(), AllocError>
    ensures { OnOk result (said_by rule.new ≡ with_month_day (said_by rule.old) (bytes.now ++ 32 ∷ [])) }
{
    push_text(rule, bytes)?;
    rule.month_items.push(MonthItem::Own)?;
    Ok(())
}

fn push_year(rule: &mut HolidayRule, bytes: &[u8]) -> Result<(), AllocError>
    ensures { OnOk result (said_by rule.new ≡ with_year (said_by rule.old) (bytes.now ++ 32 ∷ [])) }
{
    push_text(rule, bytes)?;
    rule.every.push(false)?;
    Ok(())
}

fn or_place(first: Option<usize>, place: usize) -> Option<usize>
    ensures { result ≡ or_place first place }
{
    match first {
        None => Some(place),
        Some(_) => first,
    }
}

// Years without a last one, as far as the last one of the calendar.
fn push_every_text(
    rule: &mut HolidayRule,
    text: &[u8],
    item: Item,
    place: usize,
) -> Result<(), AllocError>
    ensures { OnOk result (said_by rule.new ≡ with_text (said_by rule.old) (every_text text.now item place ++ 32 ∷ [])) }
{
    rule.text
        .extend_from_slice(stretch(text, item.from, place))?;
    rule.text.extend_from_slice(b"-2799")?;
    push_text(rule, stretch(text, place, item.to))
}

fn push_every(
    rule: &mut HolidayRule,
    text: &[u8],
    item: Item,
    place: usize,
) -> Result<(), AllocError>
    ensures { OnOk result
        (said_by rule.new ≡ with_every (said_by rule.old) (every_text text.now item place ++ 32 ∷ []) place) }
{
    push_every_text(rule, text, item, place)?;
    rule.every.push(true)?;
    rule.every_place = or_place(rule.every_place, place);
    Ok(())
}

fn push_holiday(rule: &mut HolidayRule, holiday: Listed, place: usize) -> Result<(), AllocError>
    ensures { OnOk result (said_by rule.new ≡ with_holiday (said_by rule.old) holiday place) }
{
    rule.holidays.push(holiday)?;
    rule.places.push(place)?;
    rule.order.push(true)?;
    Ok(())
}

fn push_date(rule: &mut HolidayRule, days: Selector) -> Result<(), AllocError>
    ensures { OnOk result (said_by rule.new ≡ with_date (said_by rule.old) days) }
{
    rule.month_items.push(MonthItem::Moving)?;
    rule.dates.push(days)?;
    Ok(())
}

fn push_easter(rule: &mut HolidayRule, days: EasterDays, place: usize) -> Result<(), AllocError>
    ensures { OnOk result (said_by rule.new ≡ with_easter (said_by rule.old) days place) }
{
    rule.month_items.push(MonthItem::Easter)?;
    rule.easter.push(days)?;
    rule.easter_places.push(place)?;
    Ok(())
}

// An item of which this becomes goes on with a rule.
fn push_item(rule: &mut HolidayRule, text: &[u8], role: Role, item: Item) -> Result<(), AllocError>
    ensures { OnOk result (said_by rule.new ≡ with_item text.now (said_by rule.old) role item) }
{
    match role {
        Role::Kept => push_text(rule, stretch(text, item.from, item.to)),
        Role::Weekdays(count) => push_weekdays(rule, stretch(text, item.from, item.to), count),
        Role::MonthDay => push_month_day(rule, stretch(text, item.from, item.to)),
        Role::Year => push_year(rule, stretch(text, item.from, item.to)),
        Role::Every { place } => push_every(rule, text, item, place),
        Role::Leading(holiday) => {
            rule.is_led = true;
            push_holiday(rule, holiday, item.from)
        }
        Role::Listed(holiday) => push_holiday(rule, holiday, item.from),
        Role::Dated(days) => push_date(rule, days),
        Role::Known { days, place } => push_easter(rule, days, place),
        Role::UnknownWord => {
            rule.unknown = Some(item.from);
            Ok(())
        }
        Role::UnknownComment => {
            rule.unknown = Some(item.from);
            Ok(())
        }
        Role::Remark => {
            rule.remark = Some(item.from);
            Ok(())
        }
        _ => Ok(()),
    }
}

// The rule ends: one of which nothing is left has a text that says nothing more.
fn end(rule: &mut HolidayRule) -> Result<(), AllocError>
    ensures { OnOk result (said_by rule.new ≡ ended (said_by rule.old)) }
{
    if rule.text.is_empty() {
        rule.text.extend_from_slice(b"on")?;
    }
    Ok(())
}

/// The link of a rule that begins behind an item of which this becomes, if one begins there.
pub fn link_behind(role: Role) -> Option<Link>
    ensures { result ≡ link_behind role }
{
    match role {
        Role::Begins(link) => Some(link),
        Role::Fallback => Some(Link::Fallback),
        _ => None,
    }
}

// The last rule ends, and another begins.
fn begin(cut: &mut Cut, alloc: Global, link: Link) -> Result<(), AllocError>
    ensures ended { OnOk result (map said_by cut.new.ended.items
        ≡ map said_by cut.old.ended.items ++ ended (said_by cut.old.last) ∷ []) }
    ensures last { OnOk result (said_by cut.new.last ≡ begun link) }
{
    end(&mut cut.last)?;
    let ended = replace(&mut cut.last, begun(alloc, link));
    cut.ended.push(ended)?;
    Ok(())
}

fn put_part(cut: &mut Cut, alloc: Global, text: &[u8], part: Part) -> Result<(), AllocError>
    ensures { OnOk result ((parts : List Part) → all_rules text.now cut.new parts ≡ all_rules text.now cut.old (part ∷ parts)) }
{
    match link_behind(part.role) {
        Some(link) => begin(cut, alloc, link),
        None => push_item(&mut cut.last, text, part.role, part.item),
    }
}

/// The rules of a text with these parts.
pub fn rules_of(alloc: Global, text: &[u8], parts: &[Part]) -> Result<Vec<HolidayRule>, AllocError>
    ensures { IfOk result (λ rules. map said_by rules.items ≡ rules_of text.now parts.now) }
{
    let mut cut = Cut {
        ended: Vec::new(alloc),
        last: begun(alloc, Link::Instead),
    };
    let mut rest = parts;
    while let Some((part, later)) = rest.split_first() {
        put_part(&mut cut, alloc, text, *part)?;
        rest = later;
    }
    begin(&mut cut, alloc, Link::Instead)?;
    Ok(cut.ended)
}

/// How many of a rule's own weekday selectors stand before the first holiday of its order.
pub fn before_holiday(order: &[bool]) -> usize
    ensures count { result ≡ before_holiday order.now }
{
    let mut count = 0;
    let mut rest = order;
    while let Some((is_holiday, later)) = rest.split_first() {
        if *is_holiday {
            return count;
        }
        count += 1;
        rest = later;
    }
    count
}
