//! The line of a row, in its canonical form.

ghost use Rattle.std.specs.Prelude.{◌≡◌, ◌≤◌, ◌+◌, ◌++◌, length, codes, decimal, OnOk, option_map};
ghost use Rattle.std.specs.List.Sorted.{IsStrictlyIncreasing};
ghost use Rattle.gtd_core.specs.Parts.{domain_tree};
ghost use Rattle.gtd_migrate.specs.Migrated.{closed_word, codes_text, domain_text, row_line, vehicles_text};

use gtd_core::Domain;
use gtd_records::Record;
use gtd_rows::{Closed, Direction, Vehicles};
use gtd_text::print_domain;
use itoa::Buffer;
use std::alloc::{AllocError, Global};

// The word for the directions that are closed.
fn word_of(closed: Closed) -> &'static [u8]
    ensures word { result.now ≡ closed_word closed }
{
    match closed {
        Closed::One(Direction::Positive) => b"positive".as_slice(),
        Closed::One(Direction::Negative) => b"negative".as_slice(),
        Closed::Both => b"both".as_slice(),
    }
}

// Appends codes to the buffer, in their order, with semicolons between them.
fn push_codes(line: &mut Vec<u8>, types: &[u8]) -> Result<(), AllocError>
    requires { IsStrictlyIncreasing types.now }
    ensures text { OnOk result (line.new.items ≡ line.old.items ++ codes_text types.now) }
    ensures short { OnOk result (length line.new.items ≤ length line.old.items + 1100) }
{
    let Some((first, rest)) = types.split_first() else {
        return Ok(());
    };
    line.extend_from_slice(Buffer::new().format(*first).as_bytes())?;
    for code in rest {
        line.extend_from_slice(b";")?;
        line.extend_from_slice(Buffer::new().format(*code).as_bytes())?;
    }
    Ok(())
}

// Appends the vehicle types to the buffer.
fn push_vehicles(line: &mut Vec<u8>, vehicles: &Vehicles) -> Result<(), AllocError>
    ensures text { OnOk result (line.new.items ≡ line.old.items ++ vehicles_text vehicles.now) }
    ensures short { OnOk result (length line.new.items ≤ length line.old.items + 1101) }
{
    match vehicles {
        Vehicles::Every => line.extend_from_slice(b"0"),
        Vehicles::Only(types) => push_codes(line, types.as_slice()),
        Vehicles::AllBut(types) => {
            line.extend_from_slice(b"!")?;
            push_codes(line, types.as_slice())
        }
    }
}

// Appends the canonical text of a domain, if there is one, to the buffer.
fn push_domain(alloc: Global, line: &mut Vec<u8>, domain: Option<&Domain>) -> Result<(), AllocError>
    ensures text { OnOk result (line.new.items
        ≡ line.old.items ++ domain_text (option_map (λ d. domain_tree d.now) domain.entry)) }
    ensures short { OnOk result (length line.new.items ≤ length line.old.items + 12925) }
{
    match domain {
        Some(domain) => line.extend_from_slice(print_domain(alloc, domain)?.as_bytes()),
        None => Ok(()),
    }
}

/// Writes the line of a row of a file of version 2, with its end, in place of what the buffer held: the element, the
/// directions that are closed, the vehicle types, and the canonical text of the domain, or nothing. A line is short enough
/// that the lines of a whole file can be counted without overflow.
pub fn write_row(
    alloc: Global,
    line: &mut Vec<u8>,
    element: u64,
    closed: Closed,
    vehicles: &Vehicles,
    domain: Option<&Domain>,
) -> Result<(), AllocError>
    ensures text { OnOk result (line.new.items ≡ row_line (record {
      element = element;
      closed = closed;
      vehicles = vehicles.now;
      domain = option_map (λ d. domain_tree d.now) domain.entry;
    })) }
    ensures short { OnOk result (length line.new.items ≤ 16384) }
{
    line.clear();
    line.extend_from_slice(Buffer::new().format(element).as_bytes())?;
    line.extend_from_slice(b",")?;
    line.extend_from_slice(word_of(closed))?;
    line.extend_from_slice(b",")?;
    push_vehicles(line, vehicles)?;
    line.extend_from_slice(b",")?;
    push_domain(alloc, line, domain)?;
    line.extend_from_slice(b"\n")
}

// Writes the line of a record, in place of what the buffer held.
pub(crate) fn write_line(
    alloc: Global,
    line: &mut Vec<u8>,
    restriction: &Record,
) -> Result<(), AllocError>
    ensures text { OnOk result (line.new.items ≡ row_line restriction.now) }
    ensures short { OnOk result (length line.new.items ≤ 16384) }
{
    write_row(
        alloc,
        line,
        restriction.element,
        restriction.closed,
        &restriction.vehicles,
        restriction.domain(),
    )
}
