//! Reading a moment.

ghost use Rattle.std.specs.Prelude.{◌≡◌, ◌++◌, IfOk};
ghost use Rattle.std.specs.Char.{is_ascii_digit};
ghost use Rattle.std.specs.List.{list_all};
ghost use Rattle.gtd_core.specs.Seconds.{IsMomentSecond};
ghost use Rattle.gtd_moments.specs.Moments as spec;
ghost use Rattle.gtd_moments.specs.Moments.{may_follow, moment_in, seconds_in, with_letter};

use gtd_calendar::{StampFault, read_stamp};
use gtd_core::Sec;

// Whether all bytes are digits.
fn are_digits(bytes: &[u8]) -> bool
    ensures { result ≡ list_all is_ascii_digit bytes.now }
{
    for byte in bytes {
        if !byte.is_ascii_digit() {
            return false;
        }
    }
    true
}

// Whether bytes may follow the seconds of a clock: none, or a fraction: a point, and digits after it.
fn may_follow(bytes: &[u8]) -> bool
    ensures { result ≡ may_follow bytes.now }
{
    let Some((mark, digits)) = bytes.split_first() else {
        return true;
    };
    *mark == b'.' && digits.len() > 0 && are_digits(digits)
}

// The seconds of a clock, `:ss`, from what follows its minutes.
fn seconds_in(rest: &[u8]) -> Option<[u8; 3]>
    ensures { result ≡ seconds_in rest.now }
{
    match rest.split_first_chunk::<3>() {
        Some((seconds, fraction)) => {
            if may_follow(fraction) {
                Some(*seconds)
            } else {
                None
            }
        }
        None => { if rest.is_empty() { Some(*b":00") } else { None } }
    }
}

// The text of the form `YYYY-MM-DDThh:mm:ss`, from what stands before its seconds. A space stands for the `T`.
fn full_text(minutes: &[u8; 16], seconds: [u8; 3]) -> [u8; 19]
    ensures { result ≡ with_letter minutes.now ++ seconds }
{
    let [
        y1,
        y2,
        y3,
        y4,
        a,
        m1,
        m2,
        b,
        d1,
        d2,
        mark,
        h1,
        h2,
        c,
        n1,
        n2,
    ] = *minutes;
    let [d, s1, s2] = seconds;
    let letter = if mark == b' ' { b'T' } else { mark };
    [
        y1, y2, y3, y4, a, m1, m2, b, d1, d2, letter, h1, h2, c, n1, n2, d, s1, s2,
    ]
}

// The moment of sixteen bytes, the last of which are its minutes, and of what follows them.
fn read_parts(minutes: &[u8; 16], rest: &[u8]) -> Result<Sec, StampFault>
    ensures value { result ≡ spec.read_parts minutes.now (seconds_in rest.now) }
    ensures range { IfOk result (λ second. IsMomentSecond second.0) }
{
    match seconds_in(rest) {
        Some(seconds) => read_stamp(&full_text(minutes, seconds)),
        None => Err(StampFault::Shape),
    }
}

/// The second of a moment as people write it: `YYYY-MM-DDThh:mm:ss`, a space in place of the `T`, no seconds (then they are
/// 0), or a fraction of a second after a point, which is dropped: the second is the one that contains the moment.
///
/// The faults, in their order, are those of `read_stamp`: `Shape` if the text has none of these forms, in ASCII digits;
/// `NoSuchDate` if there is no such date or clock time; `Range` if the moment is before 1901-01-01T00:00:00 or after
/// 2199-12-31T23:59:59.
///
/// ```
/// assert_eq!(rt; read_moment(b"2024-03-18 07:00"), read_stamp(b"2024-03-18T07:00:00"));
/// ```
pub fn read_moment(text: &[u8]) -> Result<Sec, StampFault>
    // What is answered for each text.
    ensures value { result ≡ moment_in text.now }
    ensures range { IfOk result (λ second. IsMomentSecond second.0) }
{
    match text.split_first_chunk::<16>() {
        Some((minutes, rest)) => read_parts(minutes, rest),
        None => Err(StampFault::Shape),
    }
}
