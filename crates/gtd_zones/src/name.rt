//! The names of zones, and the paths of their files.

ghost use Rattle.std.specs.Prelude.{◌≡◌, ◌++◌, IfOk, codes, string_bytes};
ghost use Rattle.std.specs.List.{list_all};
ghost use Rattle.gtd_zones.specs.Zones as spec;
ghost use Rattle.gtd_zones.specs.Zones.{is_name_byte};

use std::alloc::{AllocError, Global};

// Whether a byte may stand in a name.
fn is_name_byte(byte: u8) -> bool
    ensures { result ≡ is_name_byte byte }
{
    byte.is_ascii_alphanumeric() || byte == b'/' || byte == b'_' || byte == b'+' || byte == b'-'
}

// Whether all bytes may stand in a name.
fn are_name_bytes(bytes: &[u8]) -> bool
    ensures { result ≡ list_all is_name_byte bytes.now }
{
    for byte in bytes {
        if !is_name_byte(*byte) {
            return false;
        }
    }
    true
}

/// Whether a text may name a zone: a letter, and then letters, digits, `/`, `_`, `+` and `-`. So it names no file outside the
/// folder of zones.
///
/// ```
/// assert!(rt; is_zone_name(b"America/Argentina/Buenos_Aires"));
/// assert!(rt; !is_zone_name(b"../etc/passwd"));
/// ```
pub fn is_zone_name(name: &[u8]) -> bool
    ensures value { result ≡ spec.is_zone_name name.now }
{
    match name.split_first() {
        Some((first, rest)) => first.is_ascii_alphabetic() && are_name_bytes(rest),
        None => false,
    }
}

/// The path of the file of a zone: the system's folder of zones, `/usr/share/zoneinfo/`, and then the name.
pub fn zone_path(alloc: Global, name: &str) -> Result<String, AllocError>
    ensures path { IfOk result (λ path. string_bytes path ≡ codes "/usr/share/zoneinfo/" ++ name.now) }
{
    let mut path = String::new(alloc);
    path.push_str("/usr/share/zoneinfo/")?;
    path.push_str(name)?;
    Ok(path)
}
