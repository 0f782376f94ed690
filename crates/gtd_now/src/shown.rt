//! What is answered when the state of a file was put.

/// What was shown of a file.
#[derive(Clone, Copy, Debug, PartialEq, Eq)]
pub struct Shown {
    /// The number of entries, what comes before them (the header, or nothing) counted as one.
    pub entries: u64,
    /// Whether some row of the file is for the vehicle type, at whatever second. A type for which none is may be mistyped.
    pub is_for_some: bool,
}
