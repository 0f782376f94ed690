//! Records that several handles share.

ghost use Rattle.std.specs.Prelude.{◌≡◌, ◌≤◌, IfOk, length};
ghost use Rattle.gtd_core.specs.Limits.{most_rows};

use gtd_records::Records;
use std::alloc::{AllocError, Global};
use std::sync::Arc;

/// The records of a file, which other handles may share. They end with the last handle.
#[derive(Drop)]
pub struct SharedRecords {
    records: Arc<Records>,
    ghost few: { length records.value ≤ most_rows },
}

impl SharedRecords {
    ghost use Rattle.gtd_handles.specs.Holding.{records_of};

    /// Records that nothing else shares yet.
    pub fn new(alloc: Global, records: Records) -> Result<SharedRecords, AllocError>
        requires few { length records ≤ most_rows }
        ensures records { IfOk result (λ shared. records_of shared ≡ records) }
    {
        match Arc::new(alloc, records) {
            Ok(records) => Ok(SharedRecords { records }),
            Err(_) => Err(AllocError),
        }
    }

    /// The records.
    pub fn records(&self) -> &Records
        ensures same { result.now ≡ records_of self.now }
        ensures few { length result.now ≤ most_rows }
    {
        &self.records
    }

    /// The same records, for another handle.
    pub fn another(&self) -> Result<SharedRecords, AllocError>
        ensures same { IfOk result (λ shared. records_of shared ≡ records_of self.now) }
    {
        let records = self.records.clone()?;
        Ok(SharedRecords { records })
    }
}
