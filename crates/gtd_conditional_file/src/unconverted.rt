//! Why no record file, or only its beginning, was put.

/// Why no record file, or only its beginning, was put.
#[derive(Drop)]
pub enum Unconverted {
    /// The input of the table of means failed. Nothing was put.
    MeansReadFault,
    /// The input of the table of means gave no byte for 1,000 pulls in a row. Nothing was put.
    MeansEndless,
    /// The input of the file of tags failed. Nothing was put.
    TagsReadFault,
    /// The input of the file of tags gave no byte for 1,000 pulls in a row. Nothing was put.
    TagsEndless,
    /// The list of all faults: of the table, if it has any; otherwise of the file of tags and its values. Nothing was put.
    Faults(String),
    /// The record file would have this many rows, and a record file has at most 65,536. Nothing was put.
    TooManyRows { rows: u64 },
    /// The output failed when it had taken this many bytes.
    WriteFault { written: u64 },
    /// Memory was refused when the output had taken this many bytes.
    NoMemory { written: u64 },
}
