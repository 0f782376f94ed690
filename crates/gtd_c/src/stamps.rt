//! Texts of seconds.

ghost use Rattle.std.specs.Prelude.{◌≡◌};
ghost use Rattle.gtd_core.specs.Seconds.{day_of_second};
ghost use Rattle.gtd_calendar.specs.Calendar.{IsCalendarDay};
ghost use Rattle.gtd_calendar.specs.Stamp.{stamp_text};
ghost use Rattle.gtd_handles.specs.Answers.{IsRange, gtd_range};
ghost use Rattle.gtd_c.specs.Dates.{IsDay};
ghost use Rattle.gtd_handles.specs.Writing.{IsWritten};

use gtd_calendar::write_stamp;
use gtd_core::Sec;
use gtd_core::limits::{FIRST_HORIZON_DAY, HORIZONS_END};
use gtd_handles::{RANGE, write};

// Writes the text of the second, and its length.
fn write_text(second: Sec, out: &mut [u8], length: &mut usize) -> u32
    requires { IsCalendarDay (day_of_second second.0) }
    ensures written { IsWritten (stamp_text second.0) result out.old out.new length.new }
    ensures long { length.new ≡ 19 }
{
    let text = write_stamp(second);
    write(&text, out, length)
}

/// The text of a second, `YYYY-MM-DDThh:mm:ss`: yes, if there is room for its 19 bytes. Its day must be from 1901-01-01 up to
/// 2700-01-01, which is not included.
#[unsafe(no_mangle)]
pub extern "C" fn gtd_stamp(second: i64, out: &mut [u8]) -> u32
    ensures stamp { IsDay (day_of_second second) → IsWritten (stamp_text second) result out.old out.new 19 }
    ensures range { IsRange (IsDay (day_of_second second)) result }
    ensures untouched { (result ≡ gtd_range) → out.new ≡ out.old }
{
    let second = Sec(second);
    let day = second.day();
    if day < FIRST_HORIZON_DAY || day >= HORIZONS_END {
        return RANGE;
    }
    let mut length = 0;
    write_text(second, out, &mut length)
}
