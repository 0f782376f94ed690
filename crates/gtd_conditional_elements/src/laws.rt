//! Laws of the definitions: calls that do nothing, whose contracts are what is proved.

ghost use Rattle.std.specs.Prelude.{◌↔◌, ℕ, ℤ, [], List};
ghost use Rattle.gtd_rows.specs.declared.direction.Direction.{Direction};
ghost use Rattle.gtd_conditional_elements.specs.File.{AreOfFile};
ghost use Rattle.gtd_conditional_elements.specs.FileClosing.{SomeCloses, TagsClose};
ghost use Rattle.gtd_conditional_elements.specs.declared.found.ElementRow.{ElementRow};
ghost use Rattle.gtd_conditional_means.specs.declared.meaning.MeansRow.{MeansRow};
ghost use Rattle.gtd_hours_options.specs.Readings.{HowRead};
ghost use Rattle.gtd_conditional_rows.specs.Types.{IsVehicle};

/// Over all time some row of a file without a fault closes an element in a direction for a vehicle type at a second exactly if
/// the tags of the element do, by what they say of access or of one-way traffic.
pub fn closes_as_the_tags_say()
    ensures closes { (how : HowRead) (means : List MeansRow) (bytes : List ℕ) (rows : List ElementRow)
        (file : AreOfFile how means bytes rows []) → (element : ℕ) (direction : Direction) (t : ℕ) (s : ℤ) → IsVehicle t
        → SomeCloses element direction t s rows ↔ TagsClose means element direction t s file.sound }
{}
