//! Directions of a road element.

/// A direction of a road element.
#[derive(Clone, Copy, Debug, PartialEq, Eq)]
pub enum Direction {
    /// From the From node to the To node.
    Positive,
    /// From the To node to the From node.
    Negative,
}

/// What a record closes of a road element.
#[derive(Clone, Copy, Debug, PartialEq, Eq)]
pub enum Closed {
    /// One direction.
    One(Direction),
    /// Both directions.
    Both,
}

/// An element in a direction.
#[derive(Clone, Copy, Debug, PartialEq, Eq)]
pub struct DirectedElement {
    /// The element.
    pub element: u64,
    /// The direction.
    pub direction: Direction,
}
