//! The elements whose rows are not the same in one file as in another.

ghost use Rattle.std.specs.Prelude.{◌≡◌, ◌≤◌, ◌++◌, IfNone, IfOk, IfSome, IsTrue, OnOk, length, map, option_map};
ghost use Rattle.std.specs.List.Sorted.{IsNonDecreasing, IsPermutation};
ghost use Rattle.gtd_core.specs.Parts.{domain_tree};
ghost use Rattle.gtd_changes.specs.Compared.{rows_in};
ghost use Rattle.gtd_changes.specs.Same.{AreAlikeBut, AreFound, IsRowAt, Meets, element_of, new_rows, old_rows};

use gtd_core::Domain;
use gtd_records::{Record, Records};
use gtd_rows::Vehicles;
use std::alloc::{AllocError, Global};

/// Of so many rows one may differ, so that rows are seen to stand where they stood.
const MOST_SHARE: usize = 8;

/// What the rows of two files say that come next, by their elements.
#[derive(Clone, Copy)]
pub(crate) enum Meeting {
    /// They are the same.
    Same,
    /// The old file's, of this element, is not the new one's.
    Old(u64),
    /// The new file's, of this element, comes before the old one's.
    New(u64),
}

impl Meeting {
    // How many rows of the old file are then done with.
    fn old_rows(self) -> usize
        ensures value { result ≡ old_rows self }
    {
        match self {
            Meeting::Same => 1,
            Meeting::Old(_) => 1,
            Meeting::New(_) => 0,
        }
    }

    // How many rows of the new file are then done with.
    fn new_rows(self) -> usize
        ensures value { result ≡ new_rows self }
    {
        match self {
            Meeting::Same => 1,
            Meeting::Old(_) => 0,
            Meeting::New(_) => 1,
        }
    }

    // Lists the element of a row that has no equal.
    fn list(self, elements: &mut Vec<u64>) -> Result<(), AllocError>
        ensures listed { OnOk result (elements.new.items ≡ elements.old.items ++ element_of self) }
    {
        match self {
            Meeting::Same => Ok(()),
            Meeting::Old(element) => {
                elements.push(element)?;
                Ok(())
            }
            Meeting::New(element) => {
                elements.push(element)?;
                Ok(())
            }
        }
    }
}

// Whether the vehicle types of two records are given alike.
fn are_same_vehicles(one: &Vehicles, two: &Vehicles) -> bool
    ensures same { IsTrue result → one.now ≡ two.now }
{
    match one {
        Vehicles::Every => match two {
            Vehicles::Every => true,
            _ => false,
        },
        Vehicles::Only(types) => match two {
            Vehicles::Only(others) => types.as_slice() == others.as_slice(),
            _ => false,
        },
        Vehicles::AllBut(types) => match two {
            Vehicles::AllBut(others) => types.as_slice() == others.as_slice(),
            _ => false,
        },
    }
}

// Whether the domains of two records are the same tree.
fn are_same_domains(one: Option<&Domain>, two: Option<&Domain>) -> bool
    ensures same { IsTrue result → option_map (λ d. domain_tree d.now) one.entry ≡ option_map (λ d. domain_tree d.now) two.entry }
{
    match one {
        None => two.is_none(),
        Some(domain) => match two {
            None => false,
            Some(other) => *domain == *other,
        },
    }
}

// Whether two records are the same.
fn is_same(one: &Record, two: &Record) -> bool
    ensures same { IsTrue result → one.now ≡ two.now }
{
    one.element == two.element
        && one.closed == two.closed
        && are_same_vehicles(&one.vehicles, &two.vehicles)
        && are_same_domains(one.domain(), two.domain())
}

// The records of a file, in the order of its rows.
fn refs_of(alloc: Global, rows: &[Record]) -> Result<Vec<&Record>, AllocError>
    ensures same { IfOk result (λ refs. map (λ row. row.now) refs.items ≡ rows.now) }
{
    rows.iter().collect(alloc)
}

// The records of a file, by their elements: those of one element in the order of the file.
fn by_element(alloc: Global, rows: &[Record]) -> Result<Vec<&Record>, AllocError>
    ensures moved { IfOk result (λ refs. IsPermutation rows.now (map (λ row. row.now) refs.items)) }
{
    let mut refs = refs_of(alloc, rows)?;
    refs.sort_by_key(|row| row.element)?;
    Ok(refs)
}

/// The records of a file, in the order in which they are compared.
#[derive(Drop)]
pub(crate) enum Rows<'a> {
    /// That of the file.
    InPlace(&'a [Record]),
    /// By element, those of one element in the order of the file.
    ByElement(Vec<&'a Record>),
}

// How many records there are.
fn count_of(rows: &Rows<'_>) -> usize
    ensures value { result ≡ length (rows_in rows.now) }
{
    match rows {
        Rows::InPlace(rows) => rows.len(),
        Rows::ByElement(rows) => rows.len(),
    }
}

// The record at a place, if there is one.
fn row_at<'a>(rows: &'a Rows<'_>, place: usize) -> Option<&'a Record>
    ensures row { IfSome result (λ row. IsRowAt (rows_in rows.now) place row.now) }
    ensures none { IfNone result (length (rows_in rows.now) ≤ place) }
{
    match rows {
        Rows::InPlace(rows) => {
            if place < rows.len() {
                Some(&rows[place])
            } else {
                None
            }
        }
        Rows::ByElement(rows) => {
            if place < rows.len() {
                Some(rows[place])
            } else {
                None
            }
        }
    }
}

// The record after a place, if records are compared in the order of their rows.
fn row_after<'a>(rows: &'a Rows<'_>, place: usize) -> Option<&'a Record> {
    match rows {
        Rows::InPlace(_) => row_at(rows, place.saturating_add(1)),
        Rows::ByElement(_) => None,
    }
}

// Whether the new file's record is done with before the old one's, from which it differs: in the order of rows, if the record
// after it is the old one's; otherwise if its element is less.
fn is_new_first(one: &Record, two: &Record, after: Option<&Record>) -> bool {
    match after {
        Some(next) => is_same(one, next),
        None => two.element < one.element,
    }
}

// What two records say that come next, of which there may be none, and the new file's after that, if rows are compared in their
// order.
fn meet(one: Option<&Record>, two: Option<&Record>, after: Option<&Record>) -> Option<Meeting>
    ensures meets { Meets (option_map (λ row. row.now) one.entry) (option_map (λ row. row.now) two.entry) result }
{
    let Some(one) = one else {
        return match two {
            Some(two) => Some(Meeting::New(two.element)),
            None => None,
        };
    };
    let Some(two) = two else {
        return Some(Meeting::Old(one.element));
    };
    if is_same(one, two) {
        return Some(Meeting::Same);
    }
    if is_new_first(one, two, after) {
        Some(Meeting::New(two.element))
    } else {
        Some(Meeting::Old(one.element))
    }
}

// The elements of the rows that stand in one file and not, in the same place, in the other.
fn differing_of(alloc: Global, old: &Rows<'_>, new: &Rows<'_>) -> Result<Vec<u64>, AllocError>
    ensures old { IfOk result (λ elements. AreFound (rows_in old.now) (rows_in new.now) elements.items) }
    ensures new { IfOk result (λ elements. AreFound (rows_in new.now) (rows_in old.now) elements.items) }
{
    // No place is past the last one.
    let _counts = (count_of(old), count_of(new));
    let mut elements = Vec::new(alloc);
    let mut at = 0usize;
    let mut next = 0usize;
    while let Some(meeting) = meet(row_at(old, at), row_at(new, next), row_after(new, next)) {
        meeting.list(&mut elements)?;
        at += meeting.old_rows();
        next += meeting.new_rows();
    }
    Ok(elements)
}

// The elements of the rows that stand in one file and not in the other, if rows are compared in the order of the files.
fn differing_in_place(alloc: Global, old: &Records, new: &Records) -> Result<Vec<u64>, AllocError>
    ensures old { IfOk result (λ elements. AreFound old.now new.now elements.items) }
    ensures new { IfOk result (λ elements. AreFound new.now old.now elements.items) }
{
    let olds = Rows::InPlace(old.rows());
    let news = Rows::InPlace(new.rows());
    differing_of(alloc, &olds, &news)
}

// The same, if those of one element are compared.
fn differing_by_element(alloc: Global, old: &Records, new: &Records) -> Result<Vec<u64>, AllocError>
    ensures old { IfOk result (λ elements. AreFound old.now new.now elements.items) }
    ensures new { IfOk result (λ elements. AreFound new.now old.now elements.items) }
{
    let old = Rows::ByElement(by_element(alloc, old.rows())?);
    let new = Rows::ByElement(by_element(alloc, new.rows())?);
    differing_of(alloc, &old, &new)
}

// The same, in the way that finds few: most often rows stand where they stood, and are not sorted then.
fn differing_soon(alloc: Global, old: &Records, new: &Records) -> Result<Vec<u64>, AllocError>
    ensures old { IfOk result (λ elements. AreFound old.now new.now elements.items) }
    ensures new { IfOk result (λ elements. AreFound new.now old.now elements.items) }
{
    let elements = differing_in_place(alloc, old, new)?;
    if elements.len() <= old.rows().len() / MOST_SHARE {
        return Ok(elements);
    }
    differing_by_element(alloc, old, new)
}

/// The elements of which some row stands in one file and not, in the same place, in the other: in ascending order. Rows are
/// compared in the order of the files and, where this finds many, among those of their element. All other elements have the
/// same rows.
pub(crate) fn differing(alloc: Global, old: &Records, new: &Records) -> Result<Vec<u64>, AllocError>
    ensures ascending { IfOk result (λ elements. IsNonDecreasing elements.items) }
    ensures alike { IfOk result (λ elements. AreAlikeBut old.now new.now elements.items) }
{
    let mut elements = differing_soon(alloc, old, new)?;
    elements.sort_unstable();
    Ok(elements)
}
