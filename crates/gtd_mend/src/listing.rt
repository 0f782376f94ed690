//! The list of changes.

ghost use Rattle.std.specs.Prelude.{◌≡◌, ◌<◌, ◌+◌, ◌-◌, ◌^◌, ◌++◌, [], length, min, OnOk, string_bytes};
ghost use Rattle.gtd_mend.specs.Lines.{field_line, file_line};

use crate::change::{FieldChange, FileChange};
use gtd_faults::Printable;
use std::alloc::{AllocError, Global};

// The lines of changes of a file, and their number.
#[derive(Drop)]
pub(crate) struct Listing<'a> {
    pub(crate) path: &'a str,
    pub(crate) text: String,
    pub(crate) count: u64,
}

// Appends the line of a change of the whole file with this path.
fn push_file_line(text: &mut String, path: &str, change: FileChange) -> Result<(), AllocError>
    ensures line { OnOk result (string_bytes text.new ≡ string_bytes text.old ++ file_line path.now change) }
{
    let path = Printable(path.as_bytes());
    let line = 1u64;
    write!(text, "{path}:{line}: {change}\n")
}

// Appends the line of a change of the field with this number, in the row that begins on this line.
fn push_field_line(
    text: &mut String,
    path: &str,
    line: u64,
    number: usize,
    change: FieldChange,
) -> Result<(), AllocError>
    ensures line { OnOk result (string_bytes text.new ≡ string_bytes text.old ++ field_line path.now line number change) }
{
    let path = Printable(path.as_bytes());
    write!(text, "{path}:{line}: field {number}: {change}\n")
}

impl<'a> Listing<'a> {
    // No lines yet.
    pub(crate) fn new(alloc: Global, path: &'a str) -> Listing<'a>
        ensures path { result.path.now ≡ path.now }
        ensures text { string_bytes result.text ≡ [] }
        ensures count { result.count ≡ 0 }
    {
        Listing {
            path,
            text: String::new(alloc),
            count: 0,
        }
    }

    // Adds the line of a change of the whole file.
    pub(crate) fn add_file_change(&mut self, change: FileChange) -> Result<(), AllocError>
        ensures path { OnOk result (self.new.path.now ≡ self.old.path.now) }
        ensures text { OnOk result (string_bytes self.new.text
            ≡ string_bytes self.old.text ++ file_line self.old.path.now change) }
        ensures count { OnOk result (self.new.count ≡ min (self.old.count + 1) (2 ^ 64 - 1)) }
        ensures small { OnOk result (length (string_bytes self.new.text) < 2 ^ 63) }
    {
        push_file_line(&mut self.text, self.path, change)?;
        self.count = self.count.saturating_add(1);
        let _size = self.text.len();
        Ok(())
    }

    // Adds the line of a change of the field with this number, in the row that begins on this line.
    pub(crate) fn add_field_change(
        &mut self,
        line: u64,
        number: usize,
        change: FieldChange,
    ) -> Result<(), AllocError>
        ensures path { OnOk result (self.new.path.now ≡ self.old.path.now) }
        ensures text { OnOk result (string_bytes self.new.text
            ≡ string_bytes self.old.text ++ field_line self.old.path.now line number change) }
        ensures count { OnOk result (self.new.count ≡ min (self.old.count + 1) (2 ^ 64 - 1)) }
        ensures small { OnOk result (length (string_bytes self.new.text) < 2 ^ 63) }
    {
        push_field_line(&mut self.text, self.path, line, number, change)?;
        self.count = self.count.saturating_add(1);
        let _size = self.text.len();
        Ok(())
    }

    // Adds the lines of another listing.
    pub(crate) fn join(&mut self, other: &Listing<'_>) -> Result<(), AllocError>
        ensures path { OnOk result (self.new.path.now ≡ self.old.path.now) }
        ensures text { OnOk result (string_bytes self.new.text ≡ string_bytes self.old.text ++ string_bytes other.now.text) }
        ensures count { OnOk result (self.new.count ≡ min (self.old.count + other.now.count) (2 ^ 64 - 1)) }
        ensures small { OnOk result (length (string_bytes self.new.text) < 2 ^ 63) }
    {
        self.text.push_str(other.text.as_str())?;
        self.count = self.count.saturating_add(other.count);
        let _size = self.text.len();
        Ok(())
    }
}
