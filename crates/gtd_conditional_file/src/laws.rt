//! Laws of the definitions: calls that do nothing, whose contracts are what is proved.

ghost use Rattle.std.specs.Prelude.{◌≤◌, ◌↔◌, ℕ, ℤ, [], List, Ok, length};
ghost use Rattle.gtd_conditional_elements.specs.File.{AreOfFile};
ghost use Rattle.gtd_conditional_elements.specs.FileClosing.{TagsClose};
ghost use Rattle.gtd_conditional_elements.specs.declared.found.ElementRow.{ElementRow};
ghost use Rattle.gtd_conditional_file.specs.Records.{AreRestrictions};
ghost use Rattle.gtd_conditional_means.specs.declared.meaning.MeansRow.{MeansRow};
ghost use Rattle.gtd_conditional_rows.specs.Types.{IsVehicle};
ghost use Rattle.gtd_core.specs.Limits.{most_file_bytes, most_rows};
ghost use Rattle.gtd_hours_options.specs.Readings.{HowRead};
ghost use Rattle.gtd_migrate.specs.Migrated.{migrated};
ghost use Rattle.gtd_records.specs.Closing.{IsClosed, Restriction};
ghost use Rattle.gtd_records.specs.File.{IsFile};
ghost use Rattle.gtd_rows.specs.declared.direction.Direction.{Direction};
ghost use Rattle.gtd_report.specs.Putting.{text_of};

use gtd_conditional_elements::laws::closes_as_the_tags_say;

/// The restrictions that are put for a file of tags without a fault close an element in a direction for a vehicle type at a
/// second, over all time, exactly if the tags of the element do, by what they say of access or of one-way traffic.
pub fn restrictions_close_as_the_tags_say()
    ensures closes { (how : HowRead) (table : List MeansRow) (bytes : List ℕ) (rows : List ElementRow)
        (found : List Restriction) (file : AreOfFile how table bytes rows []) → AreRestrictions rows found
        → (element : ℕ) (direction : Direction) (t : ℕ) (s : ℤ) → IsVehicle t
        → IsClosed found element direction t s ↔ TagsClose table element direction t s file.sound }
{
    closes_as_the_tags_say();
}

/// The text that is put for a file of tags without a fault is a record file of exactly the restrictions of its rows, if these are
/// at most 65,536 and it has no more bytes than a record file may have.
pub fn text_is_a_record_file()
    ensures accepted { (how : HowRead) (table : List MeansRow) (bytes : List ℕ) (rows : List ElementRow)
        (found : List Restriction) → AreOfFile how table bytes rows [] → AreRestrictions rows found → length rows ≤ most_rows
        → length (text_of (migrated found)) ≤ most_file_bytes → IsFile (text_of (migrated found)) (Ok found) }
{}
