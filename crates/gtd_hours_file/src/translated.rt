//! What is answered when a file of hours was translated.

/// A file of hours was translated, and its record file was put.
#[derive(Drop)]
pub struct Translated {
    /// The number of lines, the header included.
    pub lines: u64,
    /// A line for each warning, with the line of the file on which its row begins: those of the texts of hours, in the order of
    /// their places, and then that a row never closes. It is empty if there is none.
    pub warnings: Vec<u8>,
}
