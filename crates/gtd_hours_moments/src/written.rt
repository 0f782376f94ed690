//! What stands in the checked text.

ghost use Rattle.std.specs.Prelude.{◌≡◌, ◌++◌, OnOk};
ghost use Rattle.gtd_hours_moments.specs.Checked.{form_of};

use gtd_hours_times::Written;
use std::alloc::AllocError;

fn push_time(out: &mut Vec<u8>, time: &[u8], end: &[u8]) -> Result<(), AllocError>
    ensures { OnOk result (out.new.items ≡ out.old.items ++ (time.now ++ end.now)) }
{
    out.extend_from_slice(time)?;
    out.extend_from_slice(end)
}

/// Appends what stands for a token with these bytes.
pub fn push_written(out: &mut Vec<u8>, written: Written, bytes: &[u8]) -> Result<(), AllocError>
    ensures { OnOk result (out.new.items ≡ out.old.items ++ form_of written bytes.now) }
{
    match written {
        Written::Kept => out.extend_from_slice(bytes),
        Written::Time => out.extend_from_slice(bytes),
        Written::TimeToMidnight => push_time(out, bytes, b"-24:00"),
        Written::LastMinute => out.extend_from_slice(b"47:59"),
        Written::First => out.extend_from_slice(b"23:59"),
        Written::FirstToMidnight => out.extend_from_slice(b"23:59-24:00"),
        Written::Last => out.extend_from_slice(b"12:00"),
        Written::ToMidnight => out.extend_from_slice(b"-24:00"),
        Written::Dash => out.extend_from_slice(b"-"),
        Written::Comma => out.extend_from_slice(b","),
        Written::Nothing => Ok(()),
        Written::Misfit(_) => out.extend_from_slice(b"PH"),
    }
}
