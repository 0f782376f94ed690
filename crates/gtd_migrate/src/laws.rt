//! Laws of the definitions: calls that do nothing, whose contracts are what is proved.

ghost use Rattle.std.specs.Prelude.{◌≡◌, ◌≤◌, ◌==◌, ◌↔◌, ◌++◌, ◌∷◌, map, ℕ, ℤ, false, List, length, Ok};
ghost use Rattle.std.specs.List.{list_any};
ghost use Rattle.gtd_core.specs.Limits.{most_file_bytes};
ghost use Rattle.gtd_records.specs.Closing.{AreElements, IsClosed, IsOpen, Restriction};
ghost use Rattle.gtd_rows.specs.Columns.{Fields};
ghost use Rattle.gtd_records.specs.ComputedFile.{AreSoundRows};
ghost use Rattle.gtd_records.specs.File.{IsFile};
ghost use Rattle.gtd_rows.specs.declared.direction.Direction.{Direction};
ghost use Rattle.gtd_rows.specs.declared.vehicles.Version.{Version};
ghost use Rattle.gtd_report.specs.Putting.{text_of};
ghost use Rattle.gtd_migrate.specs.Migrated.{IsPlainRow, migrated, row_line};

/// The migrated file of a record file is a record file of exactly the same restrictions, if it has no more bytes than a
/// record file may have. None of its fields needs quotes: it has no quotation mark. The first holds too for the
/// restrictions of any rows of records that are sound, without a file that they stand in.
pub fn migrated_is_accepted()
    ensures accepted { (bytes : List ℕ) (found : List Restriction) → IsFile bytes (Ok found)
        → length (text_of (migrated found)) ≤ most_file_bytes
        → IsFile (text_of (migrated found)) (Ok found) }
    ensures rows { (version : Version) (rows : List Fields) (found : List Restriction) → AreSoundRows version rows found
        → length (text_of (migrated found)) ≤ most_file_bytes
        → IsFile (text_of (migrated found)) (Ok found) }
    ensures unquoted { (bytes : List ℕ) (found : List Restriction) → IsFile bytes (Ok found)
        → list_any (λ b. b == 34) (text_of (migrated found)) ≡ false }
{}

/// A record file and its migrated file have the same schedule for each vehicle type and horizon: both stand for the
/// same restrictions, so they name the same elements, and these are closed and open at the same seconds. Migrating
/// twice gives what migrating once gives.
pub fn migration_changes_nothing()
    ensures restrictions { (bytes : List ℕ) (found again : List Restriction) → IsFile bytes (Ok found)
        → IsFile (text_of (migrated found)) (Ok again) → again ≡ found }
    ensures elements { (bytes : List ℕ) (found again : List Restriction) → IsFile bytes (Ok found)
        → IsFile (text_of (migrated found)) (Ok again)
        → (elements : List ℕ) → AreElements again elements ↔ AreElements found elements }
    ensures closed { (bytes : List ℕ) (found again : List Restriction) → IsFile bytes (Ok found)
        → IsFile (text_of (migrated found)) (Ok again)
        → (element : ℕ) (direction : Direction) (vehicle : ℕ) (second : ℤ) →
        IsClosed again element direction vehicle second ↔ IsClosed found element direction vehicle second }
    ensures opened { (bytes : List ℕ) (found again : List Restriction) → IsFile bytes (Ok found)
        → IsFile (text_of (migrated found)) (Ok again)
        → (element : ℕ) (direction : Direction) (vehicle : ℕ) (second : ℤ) →
        IsOpen again element direction vehicle second ↔ IsOpen found element direction vehicle second }
    ensures itself { (bytes : List ℕ) (found again : List Restriction) → IsFile bytes (Ok found)
        → IsFile (text_of (migrated found)) (Ok again) → migrated again ≡ migrated found }
{}

/// A migrated file can be cut at the end of any line. Each row is one line: its four fields have no comma, quotation mark,
/// CR or LF of their own. The lines up to a cut, and the header with the lines after it, are the migrated files of the
/// restrictions before and after the cut, and stand for exactly these. So a row under the header stands for its
/// restriction alone.
pub fn migrated_in_parts()
    ensures lines { (bytes : List ℕ) (one two : List Restriction) (r : Restriction) → IsFile bytes (Ok (one ++ r ∷ two))
        → IsPlainRow (row_line r) }
    ensures text { (one two : List Restriction) →
        text_of (migrated (one ++ two)) ≡ text_of (migrated one) ++ text_of (map row_line two) }
    ensures parts { (bytes : List ℕ) (one two : List Restriction) → IsFile bytes (Ok (one ++ two))
        → length (text_of (migrated (one ++ two))) ≤ most_file_bytes
        → IsFile (text_of (migrated one)) (Ok one) × IsFile (text_of (migrated two)) (Ok two) }
{}
