//! Why there are no rows.

use thiserror::Error;

/// Why there are no rows.
#[derive(Clone, Copy, Debug, PartialEq, Eq, Error)]
pub enum RowsFault {
    /// A row would need more than 128 basic domains.
    #[error("TooMany")]
    TooMany,
    /// Memory was refused.
    #[error("NoMemory")]
    NoMemory,
}
