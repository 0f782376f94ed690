//! Laws of the definitions: calls that do nothing; their contracts are what is proved.

ghost use Rattle.std.specs.Prelude.{◌≡◌, ◌≤◌, ◌++◌, ◌∷◌, ◌↔◌, [], ℕ, List, Ok, Err, length, map};
ghost use Rattle.std.specs.List.{Contains};
ghost use Rattle.csv.specs.Reading.{default_config, records, strip_bom};
ghost use Rattle.gtd_core.specs.Limits.{most_file_bytes, most_rows};
ghost use Rattle.gtd_records.specs.Closing.{Restriction};
ghost use Rattle.gtd_rows.specs.Columns.{Fields};
ghost use Rattle.gtd_records.specs.Faults.{AreFileFaults, IsFaultyRow, row_number};
ghost use Rattle.gtd_records.specs.File.{IsFile, header};
ghost use Rattle.gtd_records.specs.declared.fault.RecordFault.{RecordFault};
ghost use Rattle.gtd_rows.specs.declared.vehicles.Version.{Version};
ghost use Rattle.gtd_warnings.specs.declared.file.Asked.{Asked};
ghost use Rattle.gtd_faults.specs.Doubts.{AreDoubts};
ghost use Rattle.gtd_faults.specs.Listing.{AreLines, fault_line, row_of};
ghost use Rattle.gtd_faults.specs.Places.{IsLineAt};

pub use gtd_lines::laws::one_line;
use gtd_records::laws::{listed_faults, one_answer};
use gtd_warnings::laws as warnings;

/// What the list of a file's faults says. Nothing is listed exactly if the file is accepted. The first line names the fault
/// for which the file is refused, and the line on which its row begins. For a file with a header and within the limits of
/// bytes and rows, a row is listed exactly if its record of text stands for no restriction.
pub fn listed_lines()
    ensures nothing { (path bytes : List ℕ) (faults : List RecordFault) (text : List ℕ) → AreFileFaults bytes faults
        → AreLines path bytes faults text → (text ≡ []) ↔ ((found : List Restriction) × IsFile bytes (Ok found)) }
    ensures first { (path bytes : List ℕ) (faults : List RecordFault) (text : List ℕ) (why : RecordFault)
        → AreFileFaults bytes faults → AreLines path bytes faults text → IsFile bytes (Err why)
        → (line : ℕ) × IsLineAt bytes (row_of why) line × (after : List ℕ) × (text ≡ fault_line path line why ++ after) }
    ensures rows { (bytes : List ℕ) (faults : List RecordFault) (v : Version) (rows : List Fields) → AreFileFaults bytes faults
        → length bytes ≤ most_file_bytes → records default_config (strip_bom bytes) ≡ header v ∷ rows
        → length rows ≤ most_rows
        → (n : ℕ) → Contains (map row_number faults) n ↔ IsFaultyRow v rows n }
{
    listed_faults();
    one_answer();
}

/// The lines of a file's warnings are one text.
pub fn one_list_of_warnings()
    ensures one { (path bytes : List ℕ) (asked : Asked) (a b : List ℕ) → AreDoubts path asked bytes a
        → AreDoubts path asked bytes b → a ≡ b }
{
    warnings::one_answer();
}
