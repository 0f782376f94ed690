//! Parts of a text with a sign between them.

ghost use Rattle.std.specs.Prelude.{◌≡◌, OnOk};
ghost use Rattle.gtd_hours_writing.specs.Joining.{joined_by};

use std::alloc::AllocError;

/// Appends a part, before which the sign stands unless the text is empty. An empty part leaves it as it is.
pub(crate) fn push_joined(out: &mut Vec<u8>, sign: u8, part: &[u8]) -> Result<(), AllocError>
    ensures { OnOk result (out.new.items ≡ joined_by sign out.old.items part.now) }
{
    if part.is_empty() {
        return Ok(());
    }
    if out.is_empty() {
        return out.extend_from_slice(part);
    }
    out.push(sign)?;
    out.extend_from_slice(part)
}
