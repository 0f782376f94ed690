//! Faults of the two files.

use gtd_conditional_elements::ConditionsFault;
use gtd_conditional_means::MeansFault;

/// A fault of one of the two files.
#[derive(Clone, Copy, Debug, PartialEq, Eq)]
pub enum FileFault {
    /// The table of means is at fault.
    Means(MeansFault),
    /// The file of tags is, or a value in it.
    Tags(ConditionsFault),
}
