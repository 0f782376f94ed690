//! What rules need.

/// What a part of a rule needs, or why it is out of range with what is given.
#[derive(Clone, Copy, Debug, PartialEq, Eq)]
pub enum PartNeed {
    /// Years without a last one need the known years: at the slash.
    LastYear,
    /// Easter needs the known years: at the first `easter`.
    EasterYears,
    /// A table that says for some day which of these holidays there are: at the beginning of the part.
    Holidays,
    /// Holidays need the known years, too: at the beginning of the part.
    HolidayYears,
    /// A single time needs the length of points: at the beginning of the part.
    PointLength,
    /// The clock time of the event at which the part begins: at its first event.
    BeginEvent,
    /// The part begins before its day or after its last minute: at its first event.
    BeginOutside,
    /// The clock time of the event at which the part ends: at its last event.
    EndEvent,
    /// The event at which the part ends is put out of its day: at its last event.
    EndOutside,
    /// When open ends end: at the plus.
    OpenEnd,
    /// Points that are so many minutes apart need their length: at the slash.
    StepLength,
    /// Points are no minutes apart, which no text says: at the slash.
    NoStep,
}

/// What rules need, and where.
#[derive(Clone, Copy, Debug, PartialEq, Eq)]
pub enum HoursNeed {
    /// A part of a rule needs it.
    Part {
        /// The number of parts before it, of all rules.
        part: usize,
        /// What it needs.
        need: PartNeed,
    },
    /// It has to be known what a rule says: it is unknown, and it is no fallback rule, or another fallback rule says something
    /// later.
    Unknown {
        /// The number of rules before it.
        rule: usize,
    },
}
