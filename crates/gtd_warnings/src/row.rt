//! What is told of a row.

ghost use Rattle.std.specs.Prelude.{◌≡◌, ◌++◌, ◌↔◌, List, Ok, Err, IfOk, IsTrue, OnOk, Some, option_map};
ghost use Rattle.std.specs.List.{All, Contains};
ghost use Rattle.csv.specs.Records.{fields_of};
ghost use Rattle.gtd_core.specs.Parts.{domain_tree};
ghost use Rattle.gtd_mistakes.specs.declared.rule.Rule.{Rule};
ghost use Rattle.gtd_mistakes.specs.declared.told.Told.{Told};
ghost use Rattle.gtd_records.specs.ComputedRow.{IsRow};
ghost use Rattle.gtd_rows.specs.declared.vehicles.Version.{Version};
ghost use Rattle.gtd_warnings.specs.RowsTold.{AreToldOfRow, AreToldOnce, IsDomainOf, IsToldOfRow};

use crate::file::Asked;
use crate::known::KnownDomains;
use csv::ByteRecord;
use gtd_core::{Domain, Fault};
use gtd_mistakes::{Rule, Told, first_part, push_told};
use gtd_records::{Record, RecordFault};
use gtd_rows::four_columns;
use gtd_text::read_domain;
use std::alloc::{AllocError, Global};

// The domain of a row, if it has one.
fn domain_of(alloc: Global, row: &ByteRecord) -> Result<Option<Domain>, AllocError>
    ensures { IfOk result (λ domain. IsDomainOf (fields_of row.now) (option_map domain_tree domain)) }
{
    let Some(columns) = four_columns(row) else {
        return Ok(None);
    };
    match read_domain(alloc, columns.last) {
        Ok(domain) => Ok(Some(domain)),
        Err(why) => match why.kind {
            Fault::NoMemory => Err(AllocError),
            _ => Ok(None),
        },
    }
}

/// Whether a rule is turned off.
pub fn is_off(off: &[Rule], rule: Rule) -> bool
    ensures { IsTrue result ↔ Contains off.now rule }
{
    off.contains(&rule)
}

// Appends the rule that was found to hold of the domain of the row with this number, if one was and is not turned off.
fn push_found(
    told: &mut Vec<Told>,
    off: &[Rule],
    row: u32,
    domain: &Domain,
    found: Option<Rule>,
) -> Result<(), AllocError>
    ensures { OnOk result ((more : List Told)
        × AreToldOnce row off.now (λ rule. found ≡ Some rule) (domain_tree domain.now) more
        × (told.new.items ≡ told.old.items ++ more)) }
{
    let Some(rule) = found else {
        return Ok(());
    };
    if is_off(off, rule) {
        return Ok(());
    }
    let part = first_part(0, domain.expr());
    told.push(Told { row, rule, part })?;
    Ok(())
}

// Appends what is told of the row with this number and this domain.
fn push_told_of(
    known: &mut KnownDomains,
    told: &mut Vec<Told>,
    asked: &Asked,
    row: u32,
    domain: &Domain,
) -> Result<(), AllocError>
    ensures { OnOk result ((more : List Told) × AreToldOfRow asked.now row (Some (domain_tree domain.now)) more
        × (told.new.items ≡ told.old.items ++ more)) }
{
    let off = asked.off.as_slice();
    push_told(told, off, row, domain)?;
    let whole = known.rules_of(domain, asked.days)?;
    push_found(told, off, row, domain, whole.throughout)?;
    push_found(told, off, row, domain, whole.on_day)?;
    Ok(())
}

// What is told of the row with this number and this domain, in order: of the parts of the domain; whether that never or always
// holds; and whether it is over.
fn told_of_domain(
    known: &mut KnownDomains,
    asked: &Asked,
    number: u32,
    domain: &Domain,
) -> Result<Vec<Told>, AllocError>
    ensures told { IfOk result (λ told. AreToldOfRow asked.now number (Some (domain_tree domain.now)) told.items) }
    ensures rows { IfOk result (λ told. All (λ one. one.row ≡ number) told.items) }
{
    let mut told = Vec::new(known.alloc);
    push_told_of(known, &mut told, asked, number, domain)?;
    Ok(told)
}

/// What is told of the row with this number, in order: of the parts of its domain; whether that never or always holds; and
/// whether it is over. A row counts if it has four fields and the last is a time domain, whatever the others hold. What holds of
/// the domain as a whole is not found once more if it is known. `AllocError` is answered only if memory was refused.
pub fn told_of_row(
    known: &mut KnownDomains,
    asked: &Asked,
    number: u32,
    row: &ByteRecord,
) -> Result<Vec<Told>, AllocError>
    ensures told { IfOk result (λ told. IsToldOfRow asked.now number (fields_of row.now) told.items) }
    ensures rows { IfOk result (λ told. All (λ one. one.row ≡ number) told.items) }
{
    match domain_of(known.alloc, row)? {
        Some(domain) => told_of_domain(known, asked, number, &domain),
        None => Ok(Vec::new(known.alloc)),
    }
}

// The same of a row that stands for this record.
fn told_of_record(
    known: &mut KnownDomains,
    asked: &Asked,
    number: u32,
    row: &ByteRecord,
    found: &Record,
) -> Result<Vec<Told>, AllocError>
    ensures told { (version : Version) → IsRow version number (fields_of row.now) (Ok found.now)
        → IfOk result (λ told. IsToldOfRow asked.now number (fields_of row.now) told.items) }
    ensures rows { IfOk result (λ told. All (λ one. one.row ≡ number) told.items) }
{
    match found.domain() {
        Some(domain) => told_of_domain(known, asked, number, domain),
        None => told_of_row(known, asked, number, row),
    }
}

// The same of a row with this fault.
fn told_of_faulty(
    known: &mut KnownDomains,
    asked: &Asked,
    number: u32,
    row: &ByteRecord,
    why: RecordFault,
) -> Result<Vec<Told>, AllocError>
    ensures told { (version : Version) → IsRow version number (fields_of row.now) (Err why)
        → IfOk result (λ told. IsToldOfRow asked.now number (fields_of row.now) told.items) }
    ensures rows { IfOk result (λ told. All (λ one. one.row ≡ number) told.items) }
{
    match why {
        RecordFault::Domain { .. } => Ok(Vec::new(known.alloc)),
        _ => told_of_row(known, asked, number, row),
    }
}

/// What is told of the row with this number, as [`told_of_row`] tells it, where the row was read as a record or its fault. The
/// domain is not read once more if it was then. `AllocError` is answered only if memory was refused.
pub fn told_of_read(
    known: &mut KnownDomains,
    asked: &Asked,
    number: u32,
    row: &ByteRecord,
    read: &Result<Record, RecordFault>,
) -> Result<Vec<Told>, AllocError>
    ensures told { (version : Version) → IsRow version number (fields_of row.now) read.now
        → IfOk result (λ told. IsToldOfRow asked.now number (fields_of row.now) told.items) }
    ensures rows { IfOk result (λ told. All (λ one. one.row ≡ number) told.items) }
{
    match read {
        Ok(found) => told_of_record(known, asked, number, row, found),
        Err(why) => told_of_faulty(known, asked, number, row, *why),
    }
}
