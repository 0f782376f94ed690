//! The fields of a row.

ghost use Rattle.std.specs.Prelude.{◌≡◌, List, Some, false, true, IfOk, MatchOption};
ghost use Rattle.csv.specs.Records.{fields_of};
ghost use Rattle.gtd_conditional_means.specs.Comparisons.{normal_of};
ghost use Rattle.gtd_conditional_means.specs.Names as names;
ghost use Rattle.gtd_conditional_means.specs.Places.{AreOf};
ghost use Rattle.gtd_conditional_means.specs.Rows.{IsAnswer, IsMeaning, IsRow, fault_of, has_types, is_meant, row_fault};
ghost use Rattle.gtd_conditional_means.specs.declared.meaning.MeansKind.{MeansKind};
ghost use Rattle.gtd_conditional_means.specs.declared.meaning.MeansRow.{MeansRow};

use crate::comparison::normal_form;
use crate::fault::MeansFault;
use crate::meaning::{Access, Meaning, MeansKind, MeansRow};
use crate::means::known_access;
use crate::places::Places;
use crate::rows::{Columns, three_columns};
use crate::words::{is_lower_word, is_some_text};
use csv::ByteRecord;
use gtd_rows::{Version, read_vehicles};
use std::alloc::{AllocError, Global};

// The kind that a word names.
fn kind_of(text: &[u8]) -> Option<MeansKind>
    ensures { result ≡ names.kind_of text.now }
{
    if text == b"mode".as_slice() {
        Some(MeansKind::Mode)
    } else if text == b"condition".as_slice() {
        Some(MeansKind::Condition)
    } else if text == b"value".as_slice() {
        Some(MeansKind::Value)
    } else if text == b"ignore".as_slice() {
        Some(MeansKind::Ignore)
    } else {
        None
    }
}

// Whether a text is a comparison in its normal form.
fn is_normal(alloc: Global, text: &[u8]) -> Result<bool, AllocError>
    ensures { IfOk result (λ is. is ≡ names.is_this (normal_of text.now) text.now) }
{
    match normal_form(alloc, text)? {
        Some(form) => Ok(form.as_slice() == text),
        None => Ok(false),
    }
}

// Whether a name is one of the kind.
fn is_name(alloc: Global, kind: MeansKind, name: &[u8]) -> Result<bool, AllocError>
    ensures { IfOk result (λ is. is ≡ names.is_name kind name.now) }
{
    match kind {
        MeansKind::Mode => Ok(is_lower_word(name)),
        MeansKind::Condition => {
            if is_lower_word(name) {
                return Ok(true);
            }
            is_normal(alloc, name)
        }
        MeansKind::Value => Ok(is_lower_word(name)),
        MeansKind::Ignore => Ok(is_some_text(name)),
    }
}

// Whether a kind stands for vehicle types.
fn has_types(kind: MeansKind) -> bool
    ensures { result ≡ has_types kind }
{
    match kind {
        MeansKind::Mode => true,
        MeansKind::Condition => true,
        MeansKind::Value => false,
        MeansKind::Ignore => false,
    }
}

// The value of access that a word names.
fn access_word(text: &[u8]) -> Option<Access>
    ensures { result ≡ names.access_word text.now }
{
    if text == b"open".as_slice() {
        Some(Access::Open)
    } else if text == b"closed".as_slice() {
        Some(Access::Closed)
    } else {
        None
    }
}

// What the third field of a row of the kind stands for, if it is one.
fn read_meaning(alloc: Global, kind: MeansKind, text: &[u8]) -> Result<Option<Meaning>, AllocError>
    ensures { IfOk result (λ read. MatchOption read (is_meant kind text.now ≡ false)
        (λ meaning. (is_meant kind text.now ≡ true) × IsMeaning kind text.now meaning)) }
{
    match kind {
        MeansKind::Mode => match read_vehicles(alloc, Version::Two, text)? {
            Some(types) => Ok(Some(Meaning::Mode(types))),
            None => Ok(None),
        },
        MeansKind::Condition => match read_vehicles(alloc, Version::Two, text)? {
            Some(types) => Ok(Some(Meaning::Condition(types))),
            None => Ok(None),
        },
        MeansKind::Value => match access_word(text) {
            Some(access) => Ok(Some(Meaning::Value(access))),
            None => Ok(None),
        },
        MeansKind::Ignore => {
            if is_some_text(text) {
                Ok(None)
            } else {
                Ok(Some(Meaning::Ignore))
            }
        }
    }
}

// Whether a name stands for something of the kind before.
fn is_repeated(places: &Places, kind: MeansKind, name: &[u8]) -> bool
    ensures { (before : List MeansRow) → AreOf before places.now → result ≡ names.is_repeated before kind name.now }
{
    is_known(kind, name) || places.of(kind, name).is_some()
}

// Whether a name is a value of access that no table needs.
fn is_known(kind: MeansKind, name: &[u8]) -> bool
    ensures { result ≡ names.is_known kind name.now }
{
    match kind {
        MeansKind::Mode => false,
        MeansKind::Condition => false,
        MeansKind::Value => known_access(name).is_some(),
        MeansKind::Ignore => false,
    }
}

// The first fault of a row whose third field is not one of its kind.
fn fault_without(number: u32, kind: MeansKind, named: bool, repeated: bool) -> MeansFault
    ensures { Some result ≡ fault_of number kind false named repeated }
{
    if has_types(kind) {
        MeansFault::Vehicle { row: number }
    } else if !named {
        MeansFault::Name { row: number }
    } else if repeated {
        MeansFault::Repeated { row: number }
    } else {
        MeansFault::Value { row: number }
    }
}

// The first fault of a row whose third field is one of its kind.
fn fault_with(number: u32, named: bool, repeated: bool) -> Option<MeansFault>
    ensures { (kind : MeansKind) → result ≡ fault_of number kind true named repeated }
{
    if !named {
        Some(MeansFault::Name { row: number })
    } else if repeated {
        Some(MeansFault::Repeated { row: number })
    } else {
        None
    }
}

// A row of this name and meaning.
fn row_of(alloc: Global, name: &[u8], meaning: Meaning) -> Result<MeansRow, AllocError>
    ensures { IfOk result (λ row. (row.name.items ≡ name.now) × (row.meaning ≡ meaning)) }
{
    Ok(MeansRow {
        name: name.to_vec(alloc)?,
        meaning,
    })
}

// What a row of a kind says, or its first fault.
fn read_kind_row(
    alloc: Global,
    number: u32,
    places: &Places,
    kind: MeansKind,
    columns: Columns<'_>,
) -> Result<Result<MeansRow, MeansFault>, AllocError>
    ensures { (before : List MeansRow) → AreOf before places.now
        → IfOk result (λ answer. IsAnswer (row_fault number before kind columns.entry.name.now columns.entry.means.now)
        kind columns.entry.name.now columns.entry.means.now answer) }
{
    let named = is_name(alloc, kind, columns.name)?;
    let repeated = is_repeated(places, kind, columns.name);
    let Some(meaning) = read_meaning(alloc, kind, columns.means)? else {
        return Ok(Err(fault_without(number, kind, named, repeated)));
    };
    match fault_with(number, named, repeated) {
        Some(why) => Ok(Err(why)),
        None => Ok(Ok(row_of(alloc, columns.name, meaning)?)),
    }
}

/// What the row with this number says, or its first fault, if these are the places of the rows that were read before.
/// `AllocError` is answered only if memory was refused.
pub(crate) fn read_row(
    alloc: Global,
    number: u32,
    places: &Places,
    row: &ByteRecord,
) -> Result<Result<MeansRow, MeansFault>, AllocError>
    ensures { (before : List MeansRow) → AreOf before places.now → IfOk result (IsRow number before (fields_of row.now)) }
{
    let Some(columns) = three_columns(row) else {
        return Ok(Err(MeansFault::FieldCount { row: number }));
    };
    let Some(kind) = kind_of(columns.kind) else {
        return Ok(Err(MeansFault::Kind { row: number }));
    };
    read_kind_row(alloc, number, places, kind, columns)
}
