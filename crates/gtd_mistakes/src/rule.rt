//! The rules, by their names.

ghost use Rattle.std.specs.Prelude.{◌≡◌, ◌≢◌, MatchOption};
ghost use Rattle.gtd_mistakes.specs.RuleNames as spec;

/// What is told of a row whose domain may not say what was meant.
#[derive(Clone, Copy, PartialEq, Eq)]
pub enum Rule {
    /// `first-of-month`: one day from the beginning of a month.
    FirstOfMonth,
    /// `each-day-of-month`: a time of each day of a month.
    EachDayOfMonth,
    /// `each-day-of-year`: a time of each day of a year.
    EachDayOfYear,
    /// `each-hour`: minutes of each hour, and nothing else.
    EachHour,
    /// `sunday-to-thursday`: five days from Sunday.
    SundayToThursday,
    /// `monday-and-friday`: two days, Monday and Friday.
    MondayAndFriday,
    /// `sunday-and-monday`: two days from Sunday.
    SundayAndMonday,
    /// `minutes`: minutes from the beginning of a day, a month or a year.
    Minutes,
    /// `end-as-duration`: a duration that may be an end.
    EndAsDuration,
    /// `end-past-midnight`: the same, where the stretch ends after midnight.
    EndPastMidnight,
    /// `days-cut-nights`: nights that are cut by days of the week.
    DaysCutNights,
    /// `season-cuts-nights`: nights that are cut by months.
    SeasonCutsNights,
    /// `weekday-on-date`: a weekday that is also one of the first five days of the month.
    WeekdayOnDate,
    /// `product-first`: times of each day beside a product of a time with days.
    ProductFirst,
    /// `days-of-year`: one day less or more than the year has.
    DaysOfYear,
    /// `thirty-first`: the 31st of each month that has one.
    ThirtyFirst,
    /// `no-such-day`: a day that the month never has.
    NoSuchDay,
    /// `never-holds`: no second from 1901 on. This rule and those after it hold of rows, and of no part of a domain.
    NeverHolds,
    /// `always-holds`: each second.
    AlwaysHolds,
    /// `past`: no second from the day that is asked about on.
    Past,
    /// `ends-soon`: the last second within 30 days from that day on.
    EndsSoon,
    /// `lone-code`: a vehicle code that no other row names.
    LoneCode,
}

/// All rules, in the order in which they are told.
pub const RULES: [Rule; 22] = [
    Rule::FirstOfMonth,
    Rule::EachDayOfMonth,
    Rule::EachDayOfYear,
    Rule::EachHour,
    Rule::SundayToThursday,
    Rule::MondayAndFriday,
    Rule::SundayAndMonday,
    Rule::Minutes,
    Rule::EndAsDuration,
    Rule::EndPastMidnight,
    Rule::DaysCutNights,
    Rule::SeasonCutsNights,
    Rule::WeekdayOnDate,
    Rule::ProductFirst,
    Rule::DaysOfYear,
    Rule::ThirtyFirst,
    Rule::NoSuchDay,
    Rule::NeverHolds,
    Rule::AlwaysHolds,
    Rule::Past,
    Rule::EndsSoon,
    Rule::LoneCode,
];

impl Rule {
    /// The rule's name.
    pub fn name(&self) -> &'static str
        ensures name { result.now ≡ spec.name_of self.now }
    {
        match self {
            Rule::FirstOfMonth => "first-of-month",
            Rule::EachDayOfMonth => "each-day-of-month",
            Rule::EachDayOfYear => "each-day-of-year",
            Rule::EachHour => "each-hour",
            Rule::SundayToThursday => "sunday-to-thursday",
            Rule::MondayAndFriday => "monday-and-friday",
            Rule::SundayAndMonday => "sunday-and-monday",
            Rule::Minutes => "minutes",
            Rule::EndAsDuration => "end-as-duration",
            Rule::EndPastMidnight => "end-past-midnight",
            Rule::DaysCutNights => "days-cut-nights",
            Rule::SeasonCutsNights => "season-cuts-nights",
            Rule::WeekdayOnDate => "weekday-on-date",
            Rule::ProductFirst => "product-first",
            Rule::DaysOfYear => "days-of-year",
            Rule::ThirtyFirst => "thirty-first",
            Rule::NoSuchDay => "no-such-day",
            Rule::NeverHolds => "never-holds",
            Rule::AlwaysHolds => "always-holds",
            Rule::Past => "past",
            Rule::EndsSoon => "ends-soon",
            Rule::LoneCode => "lone-code",
        }
    }
}

/// The rule of a name, if there is one.
pub fn rule_of_name(name: &str) -> Option<Rule>
    ensures rule { MatchOption result ((rule : Rule) → name.now ≢ spec.name_of rule) (λ rule. name.now ≡ spec.name_of rule) }
{
    for rule in RULES {
        if rule.name() == name {
            return Some(rule);
        }
    }
    None
}
