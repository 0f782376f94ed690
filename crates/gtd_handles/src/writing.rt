//! Bytes that are written into a buffer of the caller.

ghost use Rattle.gtd_handles.specs.Writing.{IsWritten};

use crate::answers::{SHORT, YES};

/// Writes bytes to the front of a buffer, and their number: yes. If there is too little room, the number alone.
pub fn write(bytes: &[u8], out: &mut [u8], length: &mut usize) -> u32
    ensures written { IsWritten bytes.now result out.old out.new length.new }
{
    *length = bytes.len();
    if bytes.len() > out.len() {
        return SHORT;
    }
    out[..bytes.len()].copy_from_slice(bytes);
    YES
}
