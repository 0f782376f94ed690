//! How a table of means is read.

ghost use Rattle.gtd_conditional_means.specs.Reading.{IsRead};

use crate::means::{Means, Unread};
use crate::table::read_rows;
use std::alloc::Global;

/// The table of means that a file's bytes are, or all its faults.
///
/// `TooLarge` and `Header` come alone. Otherwise each row that is at fault has its first one, `FieldCount`, `Kind`, `Vehicle`,
/// `Name`, `Repeated` or `Value`, in the order of the rows, and `TooManyRows` comes after those of the first 4,096 rows. A row
/// at fault stands for nothing, so that its name is not repeated by a later row. `NoMemory` is answered only if memory was
/// refused.
pub fn read_means(alloc: Global, bytes: &[u8]) -> Result<Means, Unread>
    ensures table { IsRead bytes.now result }
{
    let found = read_rows(alloc, bytes)?;
    if !found.faults.is_empty() {
        return Err(Unread::Faults(found.faults));
    }
    Ok(Means::new(found.rows, found.places))
}
