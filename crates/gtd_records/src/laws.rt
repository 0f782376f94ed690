//! Laws of the definitions: calls that do nothing, whose contracts are what is proved.

ghost use Rattle.std.specs.Prelude.{◌≡◌, ◌<◌, ◌≤◌, ◌+◌, ◌++◌, ◌∷◌, ◌↔◌, [], ℕ, true, List, Result, Ok, Err, length, map};
ghost use Rattle.std.specs.List.{Contains, list_all};
ghost use Rattle.std.specs.List.Sorted.{IsPermutation};
ghost use Rattle.csv.specs.Reading.{default_config, records, strip_bom};
ghost use Rattle.csv.specs.declared.parser.State.TheVariants.{StartRecord};
ghost use Rattle.gtd_records.specs.Cut.{IsFront, IsOnOneLine, counted_on, is_line_end, state_after};
ghost use Rattle.gtd_records.specs.Faults.{AreFileFaults, AreRowFaults, IsFaultyRow, row_number};
ghost use Rattle.gtd_core.specs.Limits.{most_file_bytes, most_rows};
ghost use Rattle.gtd_records.specs.File.{IsFile, IsTable, header};
ghost use Rattle.gtd_records.specs.Closing.{Restriction};
ghost use Rattle.gtd_rows.specs.Table.{IsBetween};
ghost use Rattle.gtd_rows.specs.Columns.{Fields};
ghost use Rattle.gtd_records.specs.declared.fault.RecordFault.{RecordFault};
ghost use Rattle.gtd_rows.specs.declared.vehicles.Version.{Version};

use gtd_text::laws::each_text;

/// The bytes of a file have at most one answer: its restrictions, or its first fault.
pub fn one_answer()
    ensures one { (bytes : List ℕ) (a b : Result (List Restriction) RecordFault) →
        IsFile bytes a → IsFile bytes b → a ≡ b }
{}

/// An accepted table of records can be cut between any two of its rows: each part, under the header, is accepted, and
/// the restrictions of the first and then of the second are those of the whole. Parts that are accepted and together do
/// not have too many rows are accepted as one.
pub fn parts_of_a_table()
    ensures cut { (v : Version) (one two : List Fields) (found : List Restriction) →
        IsTable (header v ∷ (one ++ two)) (Ok found)
        → (first : List Restriction) × (second : List Restriction) × IsTable (header v ∷ one) (Ok first)
        × IsTable (header v ∷ two) (Ok second) × (found ≡ first ++ second) }
    ensures joined { (v : Version) (one two : List Fields) (first second : List Restriction) →
        length (one ++ two) ≤ most_rows → IsTable (header v ∷ one) (Ok first)
        → IsTable (header v ∷ two) (Ok second) → IsTable (header v ∷ (one ++ two)) (Ok (first ++ second)) }
{}

/// A row is listed exactly if it stands for no restriction, and rows have one list of faults. The list of a file's
/// faults is empty exactly if the file is accepted, and the first that is listed is the file's first fault.
pub fn listed_faults()
    ensures accepted { (bytes : List ℕ) →
        AreFileFaults bytes [] ↔ ((found : List Restriction) × IsFile bytes (Ok found)) }
    ensures first { (bytes : List ℕ) (why : RecordFault) (rest : List RecordFault) →
        AreFileFaults bytes (why ∷ rest) → IsFile bytes (Err why) }
    ensures rows { (v : Version) (rows : List Fields) (faults : List RecordFault) → AreRowFaults v 1 rows faults
        → (n : ℕ) → Contains (map row_number faults) n ↔ IsFaultyRow v rows n }
    ensures one { (v : Version) (rows : List Fields) (a b : List RecordFault) →
        AreRowFaults v 1 rows a → AreRowFaults v 1 rows b → a ≡ b }
{}

/// A text that is cut between two of its records, where no quote is open, has the records of the first part and then of
/// the second. So an accepted file can be cut between any two rows: each part, under the header, is accepted, and the
/// restrictions of the first and then of the second are those of the whole.
pub fn parts_of_a_text()
    ensures cut { (one two : List ℕ) → IsBetween (state_after StartRecord one)
        → records default_config (one ++ two) ≡ records default_config one ++ records default_config two }
    ensures file { (v : Version) (head one two : List ℕ) (found : List Restriction) → 3 ≤ length head
        → records default_config (strip_bom head) ≡ header v ∷ []
        → IsBetween (state_after StartRecord (strip_bom head)) → IsBetween (state_after StartRecord one)
        → IsFile (head ++ (one ++ two)) (Ok found)
        → (first : List Restriction) × (second : List Restriction) × IsFile (head ++ one) (Ok first)
        × IsFile (head ++ two) (Ok second) × (found ≡ first ++ second) }
{}

/// Cut a text between two of its records and put each part under the same header. Within the limits of bytes and rows, the
/// parts together say what the whole says. If both parts are accepted, so is the whole, with the restrictions of the first
/// and then of the second. Otherwise the first fault of the whole is that of the first part at fault, with its row counted
/// on by the rows before the part.
pub fn parts_make_a_file()
    ensures rows_first { (v : Version) (one two : List Fields) (why : RecordFault) →
        IsTable (header v ∷ one) (Err why) → IsTable (header v ∷ (one ++ two)) (Err why) }
    ensures rows_later { (v : Version) (one two : List Fields) (found : List Restriction) (why : RecordFault) →
        length (one ++ two) ≤ most_rows → IsTable (header v ∷ one) (Ok found) → IsTable (header v ∷ two) (Err why)
        → IsTable (header v ∷ (one ++ two)) (Err (counted_on (length one) why)) }
    ensures joined { (v : Version) (head one two : List ℕ) (first second : List Restriction) → 3 ≤ length head
        → records default_config (strip_bom head) ≡ header v ∷ []
        → IsBetween (state_after StartRecord (strip_bom head)) → IsBetween (state_after StartRecord one)
        → length (head ++ (one ++ two)) ≤ most_file_bytes
        → length (records default_config one ++ records default_config two) ≤ most_rows
        → IsFile (head ++ one) (Ok first) → IsFile (head ++ two) (Ok second)
        → IsFile (head ++ (one ++ two)) (Ok (first ++ second)) }
    ensures first { (v : Version) (head one two : List ℕ) (why : RecordFault) → 3 ≤ length head
        → records default_config (strip_bom head) ≡ header v ∷ []
        → IsBetween (state_after StartRecord (strip_bom head)) → IsBetween (state_after StartRecord one)
        → length (head ++ (one ++ two)) ≤ most_file_bytes
        → IsFile (head ++ one) (Err why) → IsFile (head ++ (one ++ two)) (Err why) }
    ensures later { (v : Version) (head one two : List ℕ) (found : List Restriction) (why : RecordFault) → 3 ≤ length head
        → records default_config (strip_bom head) ≡ header v ∷ []
        → IsBetween (state_after StartRecord (strip_bom head)) → IsBetween (state_after StartRecord one)
        → length (head ++ (one ++ two)) ≤ most_file_bytes
        → length (records default_config one ++ records default_config two) ≤ most_rows
        → IsFile (head ++ one) (Ok found) → IsFile (head ++ two) (Err why)
        → IsFile (head ++ (one ++ two)) (Err (counted_on (length (records default_config one)) why)) }
{}

/// No field of an accepted file holds a line end, so quotes need not be counted: each of its line ends, CR or LF, lies
/// between two of its records. A line is one record, whatever line ends follow it; an empty line is none.
pub fn lines_are_rows()
    ensures between { (front rest : List ℕ) (byte : ℕ) (found : List Restriction) → is_line_end byte ≡ true
        → IsFile (front ++ byte ∷ rest) (Ok found)
        → IsBetween (state_after StartRecord (strip_bom (front ++ byte ∷ []))) }
    ensures row { (line end : List ℕ) → 0 < length line → IsOnOneLine line → list_all is_line_end end ≡ true
        → (row : Fields) × (records default_config (line ++ end) ≡ row ∷ []) }
    ensures empty { (end : List ℕ) → list_all is_line_end end ≡ true → records default_config end ≡ [] }
{}

/// An accepted file can be cut after any line end of its rows, quoted or not: the lines up to there, and those after it, are
/// accepted under the header's line, and the restrictions of the first and then of the second are those of the whole.
/// Accepted parts of which the first ends with a line end make a file, within the limits of bytes and rows. The first fault
/// of a part after such an accepted one is that of the whole, with its row counted on. Here `head` is all that comes before
/// the rows, and `line` the header's line under which the parts are read, such as the same without its mark.
pub fn parts_by_lines()
    ensures cut { (v : Version) (head line one two : List ℕ) (byte : ℕ) (found : List Restriction) → IsFront v head
        → IsFront v line → length line ≤ length head → is_line_end byte ≡ true
        → IsFile (head ++ (one ++ byte ∷ two)) (Ok found)
        → (first : List Restriction) × (second : List Restriction) × IsFile (line ++ (one ++ byte ∷ [])) (Ok first)
        × IsFile (line ++ two) (Ok second) × (found ≡ first ++ second) }
    ensures joined { (v : Version) (head line one two : List ℕ) (byte : ℕ) (first second : List Restriction) → IsFront v head
        → IsFront v line → length line ≤ length head → is_line_end byte ≡ true
        → length (head ++ (one ++ byte ∷ two)) ≤ most_file_bytes → length (first ++ second) ≤ most_rows
        → IsFile (line ++ (one ++ byte ∷ [])) (Ok first) → IsFile (line ++ two) (Ok second)
        → IsFile (head ++ (one ++ byte ∷ two)) (Ok (first ++ second)) }
    ensures later { (v : Version) (head line one two : List ℕ) (byte : ℕ) (first : List Restriction) (why : RecordFault)
        → IsFront v head → IsFront v line → length line ≤ length head → is_line_end byte ≡ true
        → length (head ++ (one ++ byte ∷ two)) ≤ most_file_bytes
        → length first + length (records default_config two) ≤ most_rows
        → IsFile (line ++ (one ++ byte ∷ [])) (Ok first) → IsFile (line ++ two) (Err why)
        → IsFile (head ++ (one ++ byte ∷ two)) (Err (counted_on (length first) why)) }
{}

/// The rows of an accepted table in another order are accepted too, and stand for the same restrictions.
pub fn rows_in_any_order()
    ensures same { (v : Version) (rows other : List Fields) (found : List Restriction) → IsPermutation rows other
        → IsTable (header v ∷ rows) (Ok found)
        → (again : List Restriction) × IsTable (header v ∷ other) (Ok again)
        × ((r : Restriction) → Contains again r ↔ Contains found r) }
{}

/// Each file has an answer: its restrictions, or a fault.
pub fn each_file()
    ensures some { (bytes : List ℕ) → (answer : Result (List Restriction) RecordFault) × IsFile bytes answer }
{
    each_text();
}
