//! Why a run over two files does not put its whole text.

use gtd_records::RecordFault;
use gtd_report::RunFault;

/// Why a run over two record files does not put its whole text. If both have a fault, that of the old file is answered.
#[derive(Clone, Copy, Debug, PartialEq, Eq)]
pub enum ChangesFault {
    /// The old file is not read, for this reason.
    Old(RecordFault),
    /// Any other reason: as of a run over the new file alone.
    Run(RunFault),
}
