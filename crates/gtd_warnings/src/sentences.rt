//! What is said of a rule that holds of a row's domain.

ghost use Rattle.std.specs.Prelude.{◌≡◌, ◌<◌, Some};
ghost use Rattle.gtd_warnings.specs.Sentences as spec;

use crate::codes::LoneCode;
use gtd_mistakes::{Part, Rule, Told};
use std::fmt;
use std::fmt::{Display, Formatter};

// Two digits of a number below 100.
#[derive(Clone, Copy)]
struct TwoDigits(u32);

impl Display for TwoDigits {
    ghost output = { λ shown. Some (spec.two_digits shown.0) };

    fn fmt<W: fmt::Write>(&self, f: &mut Formatter<W>) -> fmt::Result {
        let (tens, ones) = (self.0 / 10, self.0 % 10);
        write!(f, "{tens}{ones}")
    }
}

// The seconds of a time of the day, if they are not 0.
#[derive(Clone, Copy)]
struct SecondsText(u32);

impl Display for SecondsText {
    ghost output = { λ shown. Some (spec.seconds_text shown.0) };

    fn fmt<W: fmt::Write>(&self, f: &mut Formatter<W>) -> fmt::Result {
        if self.0 % 60 == 0 {
            return Ok(());
        }
        let seconds = TwoDigits(self.0 % 60);
        write!(f, ":{seconds}")
    }
}

// A time of the day.
#[derive(Clone, Copy)]
struct ClockText(u32);

impl Display for ClockText {
    ghost output = { λ shown. Some (spec.clock_text shown.0) };

    fn fmt<W: fmt::Write>(&self, f: &mut Formatter<W>) -> fmt::Result {
        let hours = TwoDigits(self.0 / 3600);
        let minutes = TwoDigits(self.0 / 60 % 60);
        let seconds = SecondsText(self.0);
        write!(f, "{hours}:{minutes}{seconds}")
    }
}

// The time of the day at which the stretches of a basic domain end, if all begin at one time of it.
fn end_of(part: Part) -> u32
    ensures { result ≡ spec.end_of part }
{
    ((u64::from(part.begin) + u64::from(part.clock)) % 86_400) as u32
}

// What a domain says, for which a rule is told.
#[derive(Clone, Copy)]
struct SaysText(Told);

impl Display for SaysText {
    ghost output = { λ shown. Some (spec.says shown.0.rule shown.0.part) };

    fn fmt<W: fmt::Write>(&self, f: &mut Formatter<W>) -> fmt::Result {
        let end = ClockText(end_of(self.0.part));
        match self.0.rule {
            Rule::FirstOfMonth => write!(f, "the first day of the month alone"),
            Rule::EachDayOfMonth => write!(f, "on each day of the month"),
            Rule::EachDayOfYear => write!(f, "on each day of the year"),
            Rule::EachHour => write!(f, "in each hour"),
            Rule::SundayToThursday => write!(f, "Sunday to Thursday; weekdays count from Sunday"),
            Rule::MondayAndFriday => write!(f, "on Monday and on Friday, and not between"),
            Rule::SundayAndMonday => write!(f, "Sunday and Monday; weekdays count from Sunday"),
            Rule::Minutes => write!(f, "minutes; m is the minute, and M the month"),
            Rule::EndAsDuration => write!(f, "until {end}; a duration is no end"),
            Rule::EndPastMidnight => write!(f, "until {end} the next day; a duration is no end"),
            Rule::DaysCutNights => write!(f, "the days cut the nights at midnight"),
            Rule::SeasonCutsNights => write!(f, "the season cuts the nights at midnight"),
            Rule::WeekdayOnDate => write!(f, "only where the weekday is this day of the month"),
            Rule::ProductFirst => write!(f, "* binds before +, and joins one of the times alone"),
            Rule::DaysOfYear => write!(f, "not as many days as the year has"),
            Rule::ThirtyFirst => write!(f, "the 31st, which only seven months have"),
            Rule::NoSuchDay => write!(f, "never; the month has no such day"),
            Rule::NeverHolds => write!(f, "at no second from 1901 on"),
            Rule::AlwaysHolds => write!(f, "at each second, as if no domain were given"),
            Rule::Past => write!(f, "over before the day that is asked about"),
            Rule::EndsSoon => write!(f, "over within 30 days of the day that is asked about"),
            Rule::LoneCode => write!(f, "a vehicle type that no other row names"),
        }
    }
}

/// What is said of a rule that holds: the row, the rule's name, and what the domain says.
#[derive(Clone, Copy)]
pub struct DoubtText(pub Told);

impl Display for DoubtText {
    ghost output = { λ shown. Some (spec.doubt_text shown.0) };

    fn fmt<W: fmt::Write>(&self, f: &mut Formatter<W>) -> fmt::Result {
        let row = self.0.row;
        let name = self.0.rule.name();
        let says = SaysText(self.0);
        write!(f, "row {row}: {name}: {says}")
    }
}

/// What is said of a code that one row alone names: the row, the rule's name, and the code.
#[derive(Clone, Copy)]
pub struct LoneText(pub LoneCode);

impl Display for LoneText {
    ghost output = { λ shown. Some (spec.lone_text shown.0) };

    fn fmt<W: fmt::Write>(&self, f: &mut Formatter<W>) -> fmt::Result {
        let row = self.0.row;
        let code = self.0.code;
        write!(
            f,
            "row {row}: lone-code: a vehicle type that no other row names: {code}"
        )
    }
}

// What may be meant. Of an end, its time is said instead, and of whole rows nothing.
fn meant(rule: Rule) -> &'static str
    ensures { result.now ≡ spec.meant rule }
{
    match rule {
        Rule::FirstOfMonth => "the whole month: {M1}",
        Rule::EachDayOfMonth => "one day of it: give the day by d",
        Rule::EachDayOfYear => "one day of it: give the month by M and the day by d",
        Rule::EachHour => "once a day: give the hour by h",
        Rule::SundayToThursday => "Monday to Friday: (t2){d5}, or t2t3t4t5t6 with a time",
        Rule::MondayAndFriday => "Monday to Friday: (t2){d5}, or t2t3t4t5t6 with a time",
        Rule::SundayAndMonday => "Saturday and Sunday: (t7){d2}",
        Rule::Minutes => "months: M",
        Rule::EndAsDuration => "",
        Rule::EndPastMidnight => "",
        Rule::DaysCutNights => "the nights that begin on these days, as in (t6h22){h8}",
        Rule::SeasonCutsNights => "the nights that begin in it, as in (M7h23){h6}+(M8h23){h6}",
        Rule::WeekdayOnDate => "the first such weekday of the month, or the second: f",
        Rule::ProductFirst => "all the times: [..+..]*..",
        Rule::DaysOfYear => "the whole year: {y1}",
        Rule::ThirtyFirst => "the last day of each month",
        Rule::NoSuchDay => "the last day of the month",
        Rule::NeverHolds => "",
        Rule::AlwaysHolds => "",
        Rule::Past => "",
        Rule::EndsSoon => "",
        Rule::LoneCode => "",
    }
}

/// The line that says what may be meant, or nothing.
#[derive(Clone, Copy)]
pub struct PerhapsLine(pub Told);

impl Display for PerhapsLine {
    ghost output = { λ shown. Some (spec.perhaps_line shown.0.rule shown.0.part) };

    fn fmt<W: fmt::Write>(&self, f: &mut Formatter<W>) -> fmt::Result {
        let named = ClockText(self.0.part.clock);
        let text = meant(self.0.rule);
        match self.0.rule {
            Rule::EndAsDuration => write!(f, "    perhaps:  until {named}\n"),
            Rule::EndPastMidnight => write!(f, "    perhaps:  until {named}\n"),
            Rule::NeverHolds => Ok(()),
            Rule::AlwaysHolds => Ok(()),
            Rule::Past => Ok(()),
            Rule::EndsSoon => Ok(()),
            Rule::LoneCode => Ok(()),
            _ => write!(f, "    perhaps:  {text}\n"),
        }
    }
}
