//! The place of a row.

/// The directions in which a row closes its element.
#[derive(Clone, Copy, Debug, PartialEq, Eq)]
pub enum RowDirections {
    /// From the From node to the To node.
    Positive,
    /// From the To node to the From node.
    Negative,
    /// Both.
    Both,
}

/// The vehicle types for which a row closes its element, as far as its place has them.
#[derive(Clone, Copy, Debug, PartialEq, Eq)]
pub enum RowVehicles {
    /// Every type.
    Every,
    /// The type with this code alone.
    One(u8),
    /// The types that only the row itself has.
    SeeRow,
}

/// The place of an element's row in a file, with the directions and vehicle types of the row. Most questions that the row does not
/// concern are decided by them, without a look at the row.
#[derive(Clone, Copy, Debug)]
pub struct RowPlace {
    /// The row's element.
    pub element: u64,
    /// The number of rows before it.
    pub row: u32,
    /// The directions in which the row closes the element.
    pub directions: RowDirections,
    /// The vehicle types for which it does.
    pub vehicles: RowVehicles,
}
