//! Laws of the definitions: calls that do nothing, whose contracts are what is proved.

ghost use Rattle.std.specs.Prelude.{◌≡◌, ◌≤◌, ◌↔◌, ℕ, ℤ, List, Ok, Result, false, length};
ghost use Rattle.gtd_core.specs.Limits.{most_file_bytes};
ghost use Rattle.gtd_hours.specs.Opening.{IsOpen};
ghost use Rattle.gtd_hours.specs.declared.hours.Hours.{Hours};
ghost use Rattle.gtd_hours_text.specs.Room.{HasVectors};
ghost use Rattle.gtd_migrate.specs.Migrated.{migrated};
ghost use Rattle.gtd_records.specs.Closing.{Closes, Restriction};
ghost use Rattle.gtd_records.specs.File.{IsFile};
ghost use Rattle.gtd_rows.specs.declared.direction.Direction.{Direction};
ghost use Rattle.gtd_report.specs.Putting.{text_of};
ghost use Rattle.gtd_hours_options.specs.Readings.{HowRead};
ghost use Rattle.gtd_hours_file.specs.HoursFile.{IsHoursFile};
ghost use Rattle.gtd_hours_file.specs.SameAnswers.{AreSameRestrictions, AreSameRows, IsEachRead, IsSameAnswer};
ghost use Rattle.gtd_hours_file.specs.declared.fault.HoursFileFault.{HoursFileFault};
ghost use Rattle.gtd_hours_file.specs.Translated.{IsTranslated, IsTranslation, RowCloses};
ghost use Rattle.gtd_hours_file.specs.Warnings.{some_opens};
ghost use Rattle.gtd_hours_file.specs.declared.row.HoursRow.{HoursRow};

use gtd_hours_options::laws::one_way;
use gtd_migrate::laws::migrated_is_accepted;
use gtd_text::laws::canonical_text_of_domain;

/// A row closes an element in a direction for a vehicle type at a second exactly if the restriction that it is translated
/// to does: a row without hours always, another one while its hours are open. Rows and restrictions are one for one.
pub fn closes_as_the_hours_say()
    ensures closes { (row : HoursRow) (r : Restriction) → IsTranslated row r
        → (element : ℕ) (direction : Direction) (vehicle : ℕ) (second : ℤ)
        → RowCloses element direction vehicle second row ↔ Closes element direction vehicle second r }
    ensures count { (rows : List HoursRow) (found : List Restriction) → IsTranslation rows found
        → length found ≡ length rows }
{}

/// The text that is put for a file of hours is a record file of exactly the restrictions that its rows are translated to, if
/// it has no more bytes than a record file may have.
pub fn text_is_a_record_file()
    ensures accepted { (how : HowRead) (bytes : List ℕ) (rows : List HoursRow) (found : List Restriction)
        → IsHoursFile how bytes (Ok rows)
        → IsTranslation rows found → length (text_of (migrated found)) ≤ most_file_bytes
        → IsFile (text_of (migrated found)) (Ok found) }
{
    migrated_is_accepted();
    canonical_text_of_domain();
}

/// The bytes of a file of hours have one answer: all that have one are at fault in the same way, or have the same rows, whose
/// hours are open at the same seconds. Such rows are translated to restrictions of the same elements, directions and vehicle
/// types, whose domains contain the same seconds.
pub fn one_answer()
    ensures answer { (how : HowRead) (bytes : List ℕ) (one other : Result (List HoursRow) (List HoursFileFault))
        → IsHoursFile how bytes one → IsHoursFile how bytes other → IsSameAnswer one other }
    ensures restrictions { (ones others : List HoursRow) (found also : List Restriction) → AreSameRows ones others
        → IsTranslation ones found → IsTranslation others also → AreSameRestrictions found also }
{
    one_way();
}

/// Where each text is read or has a fault, each file of hours has an answer, if memory has room for its texts: its rows, or all
/// its faults.
pub fn each_file()
    ensures some { (how : HowRead) → HasVectors ℕ most_file_bytes → IsEachRead how most_file_bytes → (bytes : List ℕ) →
        (answer : Result (List HoursRow) (List HoursFileFault)) × IsHoursFile how bytes answer }
{}

/// Hours of which no rule opens are open at no second, so that a row that is warned of never closes.
pub fn warned_rows_never_close()
    ensures never { (hours : Hours) (second : ℤ) → some_opens hours ≡ false → IsOpen hours second → ⊥ }
{}
