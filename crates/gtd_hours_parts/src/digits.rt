//! Numbers as they are written.

ghost use Rattle.std.specs.Prelude.{◌≡◌, ◌↔◌, IfSome, IsSome};
ghost use Rattle.gtd_hours_parts.specs.Numbers.{IsDayNumber, IsPlaceNumber, IsStepNumber, IsWeekNumber, IsYearNumber};

/// A number of a text. Leading zeros count as digits, so `07` is not `7`.
#[derive(Clone, Copy, Debug, PartialEq, Eq)]
pub struct Digits {
    /// The number that the digits stand for.
    pub value: u16,
    /// How many digits there are.
    pub count: u8,
}

impl Digits {
    /// The number as a year, or `None` exactly if it does not have four digits or is not from 1800 to 2799.
    pub fn year(self) -> Option<u16>
        ensures kept { IfSome result (λ year. year ≡ self.value) }
        ensures accepted { IsSome result ↔ IsYearNumber self }
    {
        if self.count == 4 && 1800 <= self.value && self.value <= 2799 {
            Some(self.value)
        } else {
            None
        }
    }

    /// The number as a day of a month, or `None` exactly if it does not have one or two digits or is not from 1 to 31.
    pub fn day(self) -> Option<u8>
        ensures kept { IfSome result (λ day. day ≡ self.value) }
        ensures accepted { IsSome result ↔ IsDayNumber self }
    {
        if 1 <= self.count && self.count <= 2 && 1 <= self.value && self.value <= 31 {
            Some(self.value as u8)
        } else {
            None
        }
    }

    /// The number as a week, or `None` exactly if it does not have one or two digits or is not from 1 to 53.
    pub fn week(self) -> Option<u16>
        ensures kept { IfSome result (λ week. week ≡ self.value) }
        ensures accepted { IsSome result ↔ IsWeekNumber self }
    {
        if 1 <= self.count && self.count <= 2 && 1 <= self.value && self.value <= 53 {
            Some(self.value)
        } else {
            None
        }
    }

    /// The number as a place in a month, or `None` exactly if it does not have one digit or is not from 1 to 5.
    pub fn place(self) -> Option<u8>
        ensures kept { IfSome result (λ place. place ≡ self.value) }
        ensures accepted { IsSome result ↔ IsPlaceNumber self }
    {
        if self.count == 1 && 1 <= self.value && self.value <= 5 {
            Some(self.value as u8)
        } else {
            None
        }
    }

    /// The number as the step of a range, or `None` exactly if it does not have one to four digits or is not from 1 to 9999.
    pub fn step(self) -> Option<u16>
        ensures kept { IfSome result (λ step. step ≡ self.value) }
        ensures accepted { IsSome result ↔ IsStepNumber self }
    {
        if 1 <= self.count && self.count <= 4 && 1 <= self.value && self.value <= 9999 {
            Some(self.value)
        } else {
            None
        }
    }
}
