//! What is answered when a file of tags was translated.

/// A file of tags was translated, and its record file was put.
#[derive(Drop)]
pub struct Converted {
    /// The number of lines, the header included.
    pub lines: u64,
    /// A line for each warning of hours in its values, with the line of the file on which the row begins: row by row, and in a
    /// value in the order of their places. It is empty if there is none.
    pub warnings: Vec<u8>,
}
