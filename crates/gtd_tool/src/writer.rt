//! Bytes handed to a writer, and what it has taken if it fails.

ghost use Rattle.std.specs.Prelude.{◌≡◌, List, OnErr, OnOk};
ghost use Rattle.std.specs.Io.KnownBytes.{Appends};
ghost use Rattle.gtd_tool.specs.Writing.{AppendsPart, TakesBefore, joined};

use std::io::{Error, ErrorKind, Result, Write};

/// Hands the bytes over until all are taken. If the writer fails, it has taken a first part of them.
///
/// A write that was interrupted is tried again; one that takes nothing is a failure.
pub fn put<W: Write>(bytes: &[u8], out: &mut W) -> Result<()>
    ensures whole { OnOk result (Appends (W.contents out.old) (W.contents out.new) bytes.now) }
    ensures part { OnErr result (AppendsPart (W.contents out.old) (W.contents out.new) bytes.now) }
{
    let mut rest = bytes;
    for _ in 0..u64::MAX {
        if rest.is_empty() {
            return Ok(());
        }
        match out.write(rest) {
            Ok(0) => return Err(Error::from(ErrorKind::WriteZero)),
            Ok(taken) => rest = &rest[taken..],
            Err(error) => {
                if error.kind() != ErrorKind::Interrupted {
                    return Err(error);
                }
            }
        }
    }
    Err(Error::from(ErrorKind::Interrupted))
}

/// Hands over one text after the other, as [`put`] does.
pub fn put_texts<W: Write>(texts: &[&str], out: &mut W) -> Result<()>
    ensures whole { OnOk result
        (Appends (W.contents out.old) (W.contents out.new) (joined texts.now)) }
    ensures part { OnErr result
        (AppendsPart (W.contents out.old) (W.contents out.new) (joined texts.now)) }
{
    for text in texts {
        put(text.as_bytes(), out)?;
    }
    Ok(())
}
