//! Why a file of hours is not translated to the end.

/// Why a file of hours is not translated to the end.
#[derive(Drop)]
pub enum Untranslated {
    /// The file is at fault: the list of all its faults. Nothing was put.
    Faults(String),
    /// The input failed. Nothing was put.
    ReadFault,
    /// The input gave no byte for 1,000 pulls in a row. Nothing was put.
    Endless,
    /// The output failed when it had taken this many bytes.
    WriteFault { written: u64 },
    /// Memory was refused when the output had taken this many bytes.
    NoMemory { written: u64 },
}
