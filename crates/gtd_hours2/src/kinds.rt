//! The kinds of parts, and what a rule says.

ghost use Rattle.std.specs.Prelude.{◌≡◌, ◌==◌, None, if◌then◌else◌};
ghost use Rattle.gtd_hours2.specs.Rules.{code, has, has_days, has_kind, has_times, is_of, kind_of, says, says_by};
ghost use Rattle.gtd_hours2.specs.declared.values.PartKind.TheVariants.{Days, LeadingHolidays};
ghost use Rattle.gtd_hours2.specs.Stored.{rule_of};

use crate::rules::RuleRef;
use crate::values::{PartKind, RulePart, RuleWord};

impl RulePart {
    /// Its kind, in a rule whose holidays lead its weekdays or do not.
    pub fn kind(self, leads: bool) -> PartKind
        ensures value { result ≡ kind_of leads self }
    {
        match self {
            RulePart::Years { .. } => PartKind::Years,
            RulePart::Months { .. } => PartKind::MonthDays,
            RulePart::Days { .. } => PartKind::MonthDays,
            RulePart::Dated { .. } => PartKind::MonthDays,
            RulePart::Weeks { .. } => PartKind::Weeks,
            RulePart::Holidays { .. } => holidays_kind(leads),
            RulePart::Weekdays { .. } => PartKind::Days,
            RulePart::NthWeekday { .. } => PartKind::Days,
            RulePart::Time { .. } => PartKind::Times,
        }
    }
}

fn holidays_kind(leads: bool) -> PartKind
    ensures { result ≡ (if leads then LeadingHolidays else Days) }
{
    if leads {
        PartKind::LeadingHolidays
    } else {
        PartKind::Days
    }
}

// Whether the part is of a kind.
pub(crate) fn is_of(leads: bool, kind: PartKind, part: RulePart) -> bool
    ensures { result ≡ is_of leads kind part }
{
    same_kind(part.kind(leads), kind)
}

pub(crate) fn same_kind(one: PartKind, other: PartKind) -> bool
    ensures { result ≡ (code one == code other) }
{
    one as u8 == other as u8
}

// Whether one of the parts is of a kind.
pub(crate) fn has_kind(leads: bool, kind: PartKind, parts: &[RulePart]) -> bool
    ensures { result ≡ has_kind leads kind parts.now }
{
    let mut rest = parts;
    while let Some((part, more)) = rest.split_first() {
        if is_of(leads, kind, *part) {
            return true;
        }
        rest = more;
    }
    false
}

impl RuleRef<'_> {
    /// Whether it has a part of the kind.
    pub fn has(&self, kind: PartKind) -> bool
        ensures value { result ≡ has kind (rule_of self.now) }
    {
        has_kind(self.head.leads, kind, self.parts)
    }

    /// Whether it has times.
    pub fn has_times(&self) -> bool
        ensures value { result ≡ has_times (rule_of self.now) }
    {
        self.has(PartKind::Times)
    }

    /// Whether it has selectors that are no years.
    pub fn has_days(&self) -> bool
        ensures value { result ≡ has_days (rule_of self.now) }
    {
        self.has(PartKind::MonthDays)
            || self.has(PartKind::Weeks)
            || self.has(PartKind::LeadingHolidays)
            || self.has(PartKind::Days)
    }

    /// What it says of its seconds. Without a word it is open, unless it has a comment and neither times nor `24/7`: then it is
    /// unknown.
    pub fn says(&self) -> RuleWord
        ensures value { result ≡ says (rule_of self.now) }
    {
        match self.head.word {
            Some(word) => word,
            None => self.says_alone(),
        }
    }

    fn says_alone(&self) -> RuleWord
        ensures { result ≡ says_by None (rule_of self.now) }
    {
        match self.head.comment {
            None => RuleWord::Open,
            Some(_) => {
                if self.has_times() || self.head.is_always {
                    RuleWord::Open
                } else {
                    RuleWord::Unknown
                }
            }
        }
    }
}
