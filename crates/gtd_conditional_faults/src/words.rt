//! The words of faults.

ghost use Rattle.std.specs.Prelude.{Some};
ghost use Rattle.gtd_conditional_faults.specs.Words as spec;

use crate::fault::FileFault;
use crate::place::place_of;
use gtd_conditional_elements::ConditionsFault;
use gtd_conditional_means::MeansFaultText;
use gtd_conditional_parts::ValueFault;
use gtd_conditional_tags::TagsFaultText;
use gtd_conditional_values::TermFault;
use gtd_hours_faults::OptionsFaultText;
use std::fmt;
use std::fmt::{Display, Formatter};

// What is wrong with a value, with its place there.
#[derive(Clone, Copy)]
struct ValueFaultText(ValueFault);

impl Display for ValueFaultText {
    ghost output = { λ shown. Some (spec.value_text shown.0) };

    fn fmt<W: fmt::Write>(&self, f: &mut Formatter<W>) -> fmt::Result {
        let place = place_of(self.0);
        match self.0 {
            ValueFault::Part { .. } => write!(f, "Part at {place}"),
            ValueFault::Value { .. } => write!(f, "Value at {place}"),
            ValueFault::Term(TermFault::Condition { .. }) => write!(f, "Condition at {place}"),
            ValueFault::Term(TermFault::Hours { fault, .. }) => {
                let words = OptionsFaultText { fault, place };
                write!(f, "Hours {words}")
            }
        }
    }
}

// A fault of a file of tags or of its values.
#[derive(Clone, Copy)]
struct ConditionsFaultText(ConditionsFault);

impl Display for ConditionsFaultText {
    ghost output = { λ shown. Some (spec.tags_text shown.0) };

    fn fmt<W: fmt::Write>(&self, f: &mut Formatter<W>) -> fmt::Result {
        match self.0 {
            ConditionsFault::Row(why) => {
                let words = TagsFaultText(why);
                write!(f, "{words}")
            }
            ConditionsFault::Value { row, fault } => {
                let words = ValueFaultText(fault);
                write!(f, "row {row}: {words}")
            }
            ConditionsFault::TooMany { row } => write!(f, "row {row}: TooMany at 0"),
        }
    }
}

/// A fault in words: its row, if it has one; its kind; for a fault of a value, the place there; and a day that a table of
/// holidays does not cover.
#[derive(Clone, Copy)]
pub struct FaultText(pub FileFault);

impl Display for FaultText {
    ghost output = { λ shown. Some (spec.fault_text shown.0) };

    fn fmt<W: fmt::Write>(&self, f: &mut Formatter<W>) -> fmt::Result {
        match self.0 {
            FileFault::Means(why) => {
                let words = MeansFaultText(why);
                write!(f, "{words}")
            }
            FileFault::Tags(why) => {
                let words = ConditionsFaultText(why);
                write!(f, "{words}")
            }
        }
    }
}
