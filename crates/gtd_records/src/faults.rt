//! All faults of a record file.

ghost use Rattle.std.specs.Prelude.{◌≡◌, ◌<◌, [], ◌∷◌, IfOk, IfSome, IsErrOf};
ghost use Rattle.std.specs.Prelude.{IsTrue};
ghost use Rattle.csv.specs.Reading.{default_config, records, strip_bom};
ghost use Rattle.gtd_records.specs.Faults.{AreFileFaults, AreTableFaults};
ghost use Rattle.gtd_devices.specs.WholeInput.{failures_after_whole};

use crate::fault::RecordFault;
use crate::row::RowReader;
use csv::ByteRecord;
use gtd_core::limits::MOST_FILE_BYTES;
use gtd_devices::{Input, InputFault, read_whole};
use gtd_rows::{RowTaker, RowsEnd, take_rows};
use std::alloc::{AllocError, Global};

/// The faults of the rows that were read.
#[derive(Drop)]
pub(crate) struct FaultList {
    pub(crate) rows: RowReader,
    pub(crate) faults: Vec<RecordFault>,
}

impl RowTaker for FaultList {
    ghost use Rattle.gtd_records.specs.RowTakers.{BeginsFaults, ListsFault};

    ghost begins = { BeginsFaults };

    ghost takes = { ListsFault };

    fn take_header(&mut self, row: &ByteRecord) -> bool {
        self.rows.take_header(row)
    }

    fn take_row(&mut self, number: u32, row: &ByteRecord) -> Result<bool, AllocError> {
        match self.rows.read(number, row) {
            Ok(_) => {}
            Err(RecordFault::NoMemory) => return Err(AllocError),
            Err(why) => self.faults.push(why)?,
        }
        Ok(true)
    }
}

// A list of one fault.
fn alone(alloc: Global, why: RecordFault) -> Result<Vec<RecordFault>, AllocError>
    ensures { IfOk result (λ faults. faults.items ≡ why ∷ []) }
{
    let mut faults = Vec::new(alloc);
    faults.push(why)?;
    Ok(faults)
}

// The faults of a file's bytes, if there are not too many bytes.
fn faults_of_table(alloc: Global, bytes: &[u8]) -> Result<Vec<RecordFault>, AllocError>
    ensures { IfOk result
        (λ faults. AreTableFaults (records default_config (strip_bom bytes.now)) faults.items) }
{
    let mut list = FaultList {
        rows: RowReader::new(alloc),
        faults: Vec::new(alloc),
    };
    match take_rows(alloc, bytes, &mut list)? {
        RowsEnd::NoHeader => alone(alloc, RecordFault::Header),
        RowsEnd::All => Ok(list.faults),
        RowsEnd::Stopped => Ok(list.faults),
        RowsEnd::TooMany => {
            list.faults.push(RecordFault::TooManyRows)?;
            Ok(list.faults)
        }
    }
}

/// All faults of a file with these bytes. Each row that stands for no restriction has its first fault in the list, and
/// `TooManyRows` comes after the faults of the first 65,536 rows. `TooLarge`, for more than 16,777,216 bytes, or `Header`
/// is the only fault of its file. The list is empty exactly if the file is accepted. `AllocError` is answered only if
/// memory was refused.
pub fn faults_of(alloc: Global, bytes: &[u8]) -> Result<Vec<RecordFault>, AllocError>
    ensures file { IfOk result (λ faults. AreFileFaults bytes.now faults.items) }
{
    if bytes.len() > MOST_FILE_BYTES {
        return alone(alloc, RecordFault::TooLarge);
    }
    faults_of_table(alloc, bytes)
}

/// All faults of the file that an input brings, as [`faults_of`] lists them. The whole input is pulled first: `ReadFault`,
/// `Endless` and `NoMemory` are answered as by [`crate::read_records`]. Before the call, the input's failures must be below
/// `u64::MAX`.
pub fn read_faults<I: Input>(alloc: Global, input: &mut I) -> Result<Vec<RecordFault>, InputFault>
    requires countable { I.failure_count input.old < u64.MAX }
    ensures file { IfSome (I.to_come input.old)
        (λ bytes. IfOk result (λ faults. AreFileFaults bytes faults.items)) }
    ensures large { IsErrOf result InputFault.TooLarge → ⊥ }
    ensures failures { I.failure_count input.new
        ≡ failures_after_whole result (I.failure_count input.old) }
    ensures endless { IsErrOf result InputFault.Endless → IsTrue (I.may_fall_silent input.old) }
{
    match read_whole(alloc, input, MOST_FILE_BYTES) {
        Ok(bytes) => match faults_of(alloc, bytes.as_slice()) {
            Ok(faults) => Ok(faults),
            Err(_) => Err(InputFault::NoMemory),
        },
        Err(InputFault::TooLarge) => match alone(alloc, RecordFault::TooLarge) {
            Ok(faults) => Ok(faults),
            Err(_) => Err(InputFault::NoMemory),
        },
        Err(InputFault::ReadFault) => Err(InputFault::ReadFault),
        Err(InputFault::Endless) => Err(InputFault::Endless),
        Err(InputFault::NoMemory) => Err(InputFault::NoMemory),
    }
}
