//! The tags of a file.

ghost use Rattle.std.specs.Prelude.{IfOk};
ghost use Rattle.gtd_conditional_tags.specs.File.{AreOfBytes};

use crate::fault::TagsFault;
use crate::row::Tag;
use crate::table::read_bytes;
use gtd_conditional_means::Means;
use std::alloc::{AllocError, Global};

/// What a file of tags says. It is accepted exactly if it has no fault.
#[derive(Drop)]
pub struct TagsFile {
    /// Its tags that say when a way may be used, in the order of the rows. Those of rows at fault are not among them.
    pub tags: Vec<Tag>,
    /// All its faults, in the order of the rows.
    pub faults: Vec<TagsFault>,
}

/// The tags of a file's bytes that say when a way may be used, and all its faults, by a table of means.
///
/// `TooLarge` and `Header` come alone. Otherwise each row that is at fault has its first one, `FieldCount`, `Element`, `Key` or
/// `Repeated`, in the order of the rows, and `TooManyRows` comes after those of the first 65,536 rows. A key is that of a mode
/// of the table, with `:forward` or `:backward` after it or without, and with `:conditional` after that or without; but
/// `oneway` has no direction. Rows with other keys say nothing; if they end in `:conditional`, and the table does not ignore
/// their name, they are at fault as `Key`. `AllocError` is answered only if memory was refused.
pub fn read_tags(alloc: Global, means: &Means, bytes: &[u8]) -> Result<TagsFile, AllocError>
    ensures file { IfOk result (λ file. AreOfBytes means.now.rows.items bytes.now file.tags.items file.faults.items) }
{
    let found = read_bytes(alloc, means, bytes)?;
    Ok(TagsFile {
        tags: found.tags,
        faults: found.faults,
    })
}
