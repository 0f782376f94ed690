//! What calls answer, as numbers.

/// No, none, or at fault.
pub const NO: u32 = 0;

/// Yes, found, or done.
pub const YES: u32 = 1;

/// A number is out of its range.
pub const RANGE: u32 = 2;

/// The handle is empty, or of another kind.
pub const KIND: u32 = 3;

/// Memory was refused.
pub const MEMORY: u32 = 4;

/// A start of the domain gives a year.
pub const YEAR: u32 = 5;

/// There is too little room.
pub const SHORT: u32 = 6;
