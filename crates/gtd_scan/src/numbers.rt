//! Numbers of a few digits.

ghost use Rattle.std.specs.Prelude.{◌≡◌, ◌<◌, ◌≤◌, ◌^◌, length, true};
ghost use Rattle.std.specs.Char.{is_ascii_digit};
ghost use Rattle.std.specs.List.{list_all};
ghost use Rattle.std.specs.Str.Parse.{digits_value};

/// The number that at most four decimal digits stand for; 0 for none.
pub fn digits_value(digits: &[u8]) -> u16
    requires few { length digits.now ≤ 4 }
    requires all { list_all is_ascii_digit digits.now ≡ true }
    ensures value { result ≡ digits_value 10 digits.now }
    ensures small { result < 10 ^ length digits.now }
{
    let mut number = 0;
    for digit in digits {
        number = number * 10 + u16::from(*digit - b'0');
    }
    number
}

/// The number that one or two decimal digits stand for; 0 for none.
pub fn two_digits_value(digits: &[u8]) -> u8
    requires few { length digits.now ≤ 2 }
    requires all { list_all is_ascii_digit digits.now ≡ true }
    ensures value { result ≡ digits_value 10 digits.now }
    ensures small { result < 100 }
{
    digits_value(digits) as u8
}
