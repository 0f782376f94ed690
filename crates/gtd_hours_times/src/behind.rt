//! What stands behind the tokens that have been read, and what becomes of a token.

use crate::moment::{Event, Moment, TimeForm};
use gtd_hours_grammar::FaultKind;

/// Where a form begins, and its first moment where that has been read.
#[derive(Clone, Copy)]
pub struct Start {
    /// The place of its first token.
    pub from: usize,
    /// Its first moment, if the second comes next.
    pub first: Option<Moment>,
}

/// What stands behind the tokens that have been read.
#[derive(Clone, Copy)]
pub enum Behind {
    /// No form of times.
    Free,
    /// A whole form.
    Whole,
    /// The parenthesis of a moment: an event comes next.
    Opened {
        /// The form.
        start: Start,
    },
    /// An event in parentheses.
    Named {
        /// The form.
        start: Start,
        /// The event.
        event: Event,
        /// Its place.
        place: usize,
    },
    /// An event in parentheses, and a plus or a dash.
    Signed {
        /// The form.
        start: Start,
        /// The event.
        event: Event,
        /// Its place.
        place: usize,
        /// Whether it was a dash.
        is_back: bool,
    },
    /// A moment in parentheses, up to its time.
    Moved {
        /// The form.
        start: Start,
        /// The moment.
        moment: Moment,
    },
    /// A first moment: a plus or a dash comes next.
    Begun {
        /// The place of the form.
        from: usize,
        /// The moment.
        begin: Moment,
    },
    /// A first moment and a dash.
    Dashed {
        /// The place of the form.
        from: usize,
        /// The moment.
        begin: Moment,
    },
    /// Two moments with a dash between: a plus or a slash comes next.
    Ranged {
        /// The place of the form.
        from: usize,
        /// The first moment.
        begin: Moment,
        /// The second moment.
        last: Moment,
    },
    /// Two moments and a slash: a step comes next.
    Slashed {
        /// The form, without its step.
        form: TimeForm,
    },
}

/// What stands for a token in the checked text.
#[derive(Clone, Copy)]
pub enum Written {
    /// It is no part of a form, and stands as it is.
    Kept,
    /// A time that is a moment, as it is.
    Time,
    /// This time, and `-24:00`.
    TimeToMidnight,
    /// `47:59`
    LastMinute,
    /// `23:59`
    First,
    /// `23:59-24:00`
    FirstToMidnight,
    /// `12:00`
    Last,
    /// `-24:00`
    ToMidnight,
    /// `-`
    Dash,
    /// `,`
    Comma,
    /// Nothing.
    Nothing,
    /// `PH`: it cannot stand here, and is told so.
    Misfit(FaultKind),
}

/// What becomes of a token.
#[derive(Clone, Copy)]
pub struct Step {
    /// What stands for it in the checked text.
    pub written: Written,
    /// What stands behind it.
    pub behind: Behind,
    /// The form that is whole with it.
    pub whole: Option<TimeForm>,
}
