//! A writer that is lent to a device.

ghost use Rattle.gtd_tool.specs.Lending.{marked};

use std::io::{Error, ErrorKind, Result, Write};

/// A writer that is lent. Its known bytes come after the name of the loan and their number when the loan began, so whoever keeps
/// them and adds to them is known to have kept the loan: in the end, the writer has taken what the device was given, after all
/// that it had taken before.
#[derive(Drop)]
pub struct Lent<'a, W> {
    pub writer: &'a mut W,
    /// How many bytes the writer has taken since it was lent.
    pub taken: u64,
}

impl<W: Write> Write for Lent<'_, W> {
    ghost contents = { λ lent. marked lent.writer.ghost_name lent.taken (W.contents lent.writer.now) };

    /// A write that would bring the count beyond a `u64` is an error.
    fn write(&mut self, bytes: &[u8]) -> Result<usize> {
        if bytes.len() as u64 > u64::MAX - self.taken {
            return Err(Error::from(ErrorKind::FileTooLarge));
        }
        let taken = self.writer.write(bytes)?;
        self.taken += taken as u64;
        Ok(taken)
    }

    fn flush(&mut self) -> Result<()> {
        self.writer.flush()
    }
}
