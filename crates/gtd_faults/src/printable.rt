//! Bytes as they are shown.

ghost use Rattle.std.specs.Prelude.{◌≡◌, Some};
ghost use Rattle.gtd_faults.specs.Printable as spec;
ghost use Rattle.gtd_faults.specs.Printable.{printable, shown_byte};

use std::fmt;
use std::fmt::{Display, Formatter};

// Whether a byte is printable ASCII other than a backslash.
pub(crate) fn is_printable(byte: u8) -> bool
    ensures { result ≡ spec.is_printable byte }
{
    byte >= 32 && byte <= 126 && byte != 92
}

// A byte as it is shown.
#[derive(Clone, Copy)]
struct ShownByte(u8);

impl Display for ShownByte {
    ghost output = { λ shown. Some (shown_byte shown.0) };

    fn fmt<W: fmt::Write>(&self, f: &mut Formatter<W>) -> fmt::Result {
        let byte = self.0;
        if is_printable(byte) {
            f.write_char(byte as char)
        } else {
            write!(f, "\\x{byte:02x}")
        }
    }
}

/// Bytes as they are shown: `\x` and two digits stand for a backslash and for each byte that is not printable ASCII.
#[derive(Clone, Copy)]
pub struct Printable<'a>(pub &'a [u8]);

impl Display for Printable<'_> {
    ghost output = { λ shown. Some (printable shown.0.now) };

    fn fmt<W: fmt::Write>(&self, f: &mut Formatter<W>) -> fmt::Result {
        for byte in self.0 {
            let shown = ShownByte(*byte);
            write!(f, "{shown}")?;
        }
        Ok(())
    }
}
