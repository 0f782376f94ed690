//! What becomes of an item.

use gtd_hours::{Link, Selector};
use gtd_hours_days::{EasterDays, Listed};

/// What becomes of an item, in the checked text and in the text of its rule.
#[derive(Clone, Copy)]
pub enum Role {
    /// It is in both.
    Kept,
    /// A year in a list of years: it is in both.
    Year,
    /// So many weekday selectors of the rule's own begin with it: it is in both.
    Weekdays(usize),
    /// A selector of month days of the rule's own begins with it: it is in both.
    MonthDay,
    /// Years without a last one, of which there are more than a domain holds: in the text of the rule they go on to 2799, and
    /// their step is 9 in the checked text.
    Every {
        /// The number of bytes before the slash.
        place: usize,
    },
    /// A holiday that leads: it is one of the rule's, which is led, and in neither text.
    Leading(Listed),
    /// It is in neither text.
    Gone,
    /// It is in the checked text alone.
    Unwritten,
    /// Another holiday of the rule: a weekday stands for it in the checked text.
    Listed(Listed),
    /// Month days of the rule that are not in its own text: a month stands for them in the checked text.
    Dated(Selector),
    /// Days of Easter, month days of the rule that are not in its own text: a month stands for them in the checked text.
    Known {
        /// The days.
        days: EasterDays,
        /// The number of bytes before the first `easter`.
        place: usize,
    },
    /// Month days that have a fault: a month stands for them in the checked text, which has a fault behind it.
    Undated,
    /// People read what stands here in two ways: the checked text has a fault here.
    Doubtful,
    /// A sign or a bracket that holidays do not have, or what cannot stand where it does: the checked text has a fault here.
    Misfit,
    /// A rule begins behind it. It is in the checked text alone.
    Begins(Link),
    /// A fallback rule begins behind it: a semicolon stands for it in the checked text.
    Fallback,
    /// The word `unknown`, which makes its rule unknown: the word `off` stands for it in the checked text.
    UnknownWord,
    /// A comment that says why a rule is open, closed or unknown: it is in neither text.
    Silent,
    /// A comment on a rule that is open: the word `on` stands for it in the checked text.
    Remark,
    /// A comment that makes its rule unknown: the word `on` stands for it in the checked text.
    UnknownComment,
}
