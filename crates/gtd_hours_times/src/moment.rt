//! Moments of a day, and the forms of times that they make.

/// What happens on each day at a time that the options say.
#[derive(Clone, Copy, Debug, PartialEq, Eq)]
pub enum Event {
    /// `sunrise`
    Sunrise,
    /// `sunset`
    Sunset,
    /// `dawn`
    Dawn,
    /// `dusk`
    Dusk,
}

/// A time, or so long after an event.
#[derive(Clone, Copy, Debug)]
pub struct Moment {
    /// The event, if it is not a time.
    pub event: Option<Event>,
    /// Minutes after 00:00, or after the event; below 0 before the event.
    pub minutes: i32,
    /// The place of the time or of the event in the text: the number of bytes before it.
    pub place: usize,
}

/// A range of times, an open end, points of time, or a point.
#[derive(Clone, Copy, Debug)]
pub struct TimeForm {
    /// The place of its first token: of the parenthesis, if it begins with one.
    pub from: usize,
    /// The first moment.
    pub begin: Moment,
    /// The second moment, if there is one.
    pub last: Option<Moment>,
    /// Whether a plus ends it: its end is open.
    pub is_open: bool,
    /// The minutes from each point to the next, 1 to 1440, if it is repeated points.
    pub step: Option<u16>,
    /// The place of its plus or slash; 0 without one.
    pub sign: usize,
}
