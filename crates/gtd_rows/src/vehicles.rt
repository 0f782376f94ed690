//! The vehicle types that a record closes for.

ghost use Rattle.std.specs.Prelude.{◌≡◌, ◌↔◌, ◌∷◌, [], IsTrue, IfOk, option_map};
ghost use Rattle.std.specs.List.{Contains};
ghost use Rattle.std.specs.List.Sorted.{IsStrictlyIncreasing};
ghost use Rattle.gtd_rows.specs.Columns.{code_of, IsSortedSet, IsCodes, AreTypesRead, codes_of, is_zero, items_of};
ghost use Rattle.gtd_rows.specs.Serving.{Serves};
ghost use Rattle.gtd_rows.specs.Columns.{types_listed, single, type_of, vehicles_of};

use crate::column::read_code;
use std::alloc::{AllocError, Global};
use std::marker::Model;
use std::slice;

/// Which header a record file has, and so how its third column is read.
#[derive(Clone, Copy, Debug, PartialEq, Eq)]
pub enum Version {
    /// The column `vehicle`: one code.
    One,
    /// The column `vehicles`: a list of codes, or all except a list.
    Two,
}

// Codes, as they are kept: most records have one code, and no memory is taken for it.
#[derive(Drop)]
enum Kept {
    // This code alone.
    One(u8),
    // These codes.
    Several(Box<Vec<u8>>),
}

/// Codes of vehicle types, in ascending order, each once. A single one takes no memory.
#[derive(Drop)]
pub struct Codes {
    kept: Kept,
}

impl Model for Codes {
    ghost use Rattle.std.specs.Prelude.{List, ℕ};
    ghost use Rattle.std.specs.List.Sorted.{IsStrictlyIncreasing};
    ghost use Rattle.gtd_rows.specs.KeptCodes.{kept_codes};

    ghost Value = { List ℕ };

    ghost view = { λ a. kept_codes a.kept };

    ghost invariant = { λ a. IsStrictlyIncreasing (kept_codes a.kept) };
}

/// The vehicle types that a record closes for, by their codes.
#[derive(Drop)]
pub enum Vehicles {
    /// Every type.
    Every,
    /// These types.
    Only(Codes),
    /// Every type except these.
    AllBut(Codes),
}

impl Codes {
    // A single code.
    fn single(code: u8) -> Codes
        ensures { result ≡ code ∷ [] }
    {
        Codes {
            kept: Kept::One(code),
        }
    }

    /// These codes. `AllocError` is answered only if memory was refused.
    pub fn new(alloc: Global, codes: Vec<u8>) -> Result<Codes, AllocError>
        requires ascending { IsStrictlyIncreasing codes.items }
        ensures codes { IfOk result (λ kept. kept ≡ codes.items) }
    {
        if codes.len() == 1 {
            return Ok(Codes::single(codes[0]));
        }
        Ok(Codes {
            kept: Kept::Several(Box::new(alloc, codes)?),
        })
    }

    // The same codes, in ascending order, each once.
    fn ascending(alloc: Global, mut codes: Vec<u8>) -> Result<Codes, AllocError>
        ensures { IfOk result (λ kept. IsSortedSet codes.items kept) }
    {
        codes.sort_unstable();
        codes.dedup();
        Codes::new(alloc, codes)
    }

    /// The codes, in ascending order, each once.
    pub fn as_slice(&self) -> &[u8]
        ensures codes { result.now ≡ self.now }
        ensures ascending { IsStrictlyIncreasing result.now }
    {
        match &self.kept {
            Kept::One(code) => slice::from_ref(code),
            Kept::Several(codes) => codes.as_slice(),
        }
    }

    fn contains(&self, code: u8) -> bool
        ensures member { IsTrue result ↔ Contains self.now code }
    {
        self.as_slice().contains(&code)
    }
}

impl Vehicles {
    /// Whether a type is one of them. Takes no memory.
    pub fn serves(&self, vehicle: u8) -> bool
        ensures member { IsTrue result ↔ Serves self.now vehicle }
    {
        match self {
            Vehicles::Every => true,
            Vehicles::Only(types) => types.contains(vehicle),
            Vehicles::AllBut(types) => !types.contains(vehicle),
        }
    }
}

// Whether a column is the code 0.
fn is_zero(text: &[u8]) -> bool
    ensures value { result ≡ is_zero (code_of text.now) }
{
    match read_code(text) {
        Some(code) => code == 0,
        None => false,
    }
}

// The type that an item of a list names, from 1 to 99.
fn read_type(text: &[u8]) -> Option<u8>
    ensures value { result ≡ type_of text.now }
{
    match read_code(text) {
        Some(0) => None,
        Some(code) => Some(code),
        None => None,
    }
}

// The codes of a list, in its order, if each item is a code.
fn read_codes(alloc: Global, text: &[u8]) -> Result<Option<Vec<u8>>, AllocError>
    ensures { IfOk result (λ read. option_map (λ v. v.items) read ≡ codes_of (items_of text.now)) }
{
    let mut codes = Vec::new(alloc);
    for item in text.split(|byte| *byte == b';') {
        let Some(code) = read_type(item) else {
            return Ok(None);
        };
        codes.push(code)?;
    }
    Ok(Some(codes))
}

// The codes of a list, in ascending order, each once, if each item is a code.
fn read_list(alloc: Global, text: &[u8]) -> Result<Option<Codes>, AllocError>
    ensures { IfOk result (λ read. IsCodes (codes_of (items_of text.now)) read) }
{
    match read_codes(alloc, text)? {
        Some(codes) => Ok(Some(Codes::ascending(alloc, codes)?)),
        None => Ok(None),
    }
}

// The types that a list names, or all except them after a `!`.
fn read_listed(alloc: Global, text: &[u8]) -> Result<Option<Vehicles>, AllocError>
    ensures { IfOk result (λ read. AreTypesRead (types_listed text.now) read) }
{
    let Some((first, rest)) = text.split_first() else {
        return Ok(None);
    };
    if *first == b'!' {
        return match read_list(alloc, rest)? {
            Some(types) => Ok(Some(Vehicles::AllBut(types))),
            None => Ok(None),
        };
    }
    match read_list(alloc, text)? {
        Some(types) => Ok(Some(Vehicles::Only(types))),
        None => Ok(None),
    }
}

// The one type that a column names.
fn read_single(text: &[u8]) -> Option<Vehicles>
    ensures { AreTypesRead (single text.now) result }
{
    match read_type(text) {
        Some(code) => Some(Vehicles::Only(Codes::single(code))),
        None => None,
    }
}

/// The types that the third column of a record file of this version names, or `None` if it names none. `AllocError` is
/// answered only if memory was refused.
pub fn read_vehicles(
    alloc: Global,
    version: Version,
    text: &[u8],
) -> Result<Option<Vehicles>, AllocError>
    ensures { IfOk result (λ read. AreTypesRead (vehicles_of version text.now) read) }
{
    if is_zero(text) {
        return Ok(Some(Vehicles::Every));
    }
    match version {
        Version::One => Ok(read_single(text)),
        Version::Two => read_listed(alloc, text),
    }
}
