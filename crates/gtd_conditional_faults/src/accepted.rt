//! What is accepted where a fault is.

ghost use Rattle.std.specs.Prelude.{◌≡◌, Some, option_map};
ghost use Rattle.gtd_conditional_faults.specs.Accepted as spec;

use crate::fault::FileFault;
use gtd_conditional_elements::ConditionsFault;
use gtd_conditional_means::MeansFault;
use gtd_conditional_parts::ValueFault;
use gtd_conditional_tags::TagsFault;
use gtd_conditional_values::TermFault;
use gtd_faults::accepted as accepted_of_record;
use gtd_hours_faults::accepted as accepted_of_hours;
use gtd_records::RecordFault;

// What a table of means may have where this fault is.
fn accepted_means(fault: MeansFault) -> Option<&'static str>
    ensures { option_map (λ text. text.now) result ≡ spec.accepted_means fault }
{
    match fault {
        MeansFault::TooLarge => accepted_of_record(RecordFault::TooLarge),
        MeansFault::Header => None,
        MeansFault::TooManyRows => Some("at most 4096 rows"),
        MeansFault::FieldCount { .. } => Some("3 fields, with commas between them"),
        MeansFault::Vehicle { .. } => {
            Some("1 to 99, or 0 for every type, or several, such as 11;12 or !1;2")
        }
        MeansFault::Name { .. } => Some(
            "lower case letters and _, and of a condition also a comparison, such as weight>7.5",
        ),
        MeansFault::Repeated { .. } => Some(
            "each name of a kind once, and for a value none of no, yes, designated and permissive",
        ),
        MeansFault::Value { .. } => Some("open or closed, and nothing if the kind is ignore"),
        MeansFault::Kind { .. } => Some("mode, condition, value or ignore"),
    }
}

// What a file of tags may have where this fault is.
fn accepted_row(fault: TagsFault) -> Option<&'static str>
    ensures { option_map (λ text. text.now) result ≡ spec.accepted_row fault }
{
    match fault {
        TagsFault::TooLarge => accepted_of_record(RecordFault::TooLarge),
        TagsFault::Header => None,
        TagsFault::FieldCount { .. } => Some("3 fields, with commas between them"),
        TagsFault::Element { row } => accepted_of_record(RecordFault::Element { row }),
        TagsFault::Key { .. } => {
            Some("a mode of the table of means before :conditional, or a name that it ignores")
        }
        TagsFault::Repeated { .. } => Some("each key once for an element"),
        TagsFault::TooManyRows => accepted_of_record(RecordFault::TooManyRows),
    }
}

// What a value may have where this fault is.
fn accepted_value(fault: ValueFault) -> &'static str
    ensures { result.now ≡ spec.accepted_value fault }
{
    match fault {
        ValueFault::Part { .. } => {
            "parts such as no @ (Mo-Fr 07:00-09:00), with ; between them, and each parenthesis closed"
        }
        ValueFault::Value { .. } => {
            "no, yes, designated, permissive or a value of the table of means; of oneway yes, no or -1"
        }
        ValueFault::Term(TermFault::Condition { .. }) => {
            "a word or a comparison that the table of means has as a condition"
        }
        ValueFault::Term(TermFault::Hours { fault, .. }) => accepted_of_hours(fault),
    }
}

/// What a file may have where this fault is, in words. For `Header` it is shown below the first line, and so is not given here.
pub(crate) fn accepted(fault: FileFault) -> Option<&'static str>
    ensures { option_map (λ text. text.now) result ≡ spec.accepted fault }
{
    match fault {
        FileFault::Means(why) => accepted_means(why),
        FileFault::Tags(ConditionsFault::Row(why)) => accepted_row(why),
        FileFault::Tags(ConditionsFault::Value { fault, .. }) => Some(accepted_value(fault)),
        FileFault::Tags(ConditionsFault::TooMany { .. }) => {
            Some("conditions that take at most 128 basic domains")
        }
    }
}
