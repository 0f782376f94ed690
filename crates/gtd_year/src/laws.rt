//! Laws of the definitions: calls that do nothing, whose contracts are what is proved.

ghost use Rattle.std.specs.Prelude.{◌≡◌, All, ℕ, List, length, pos};
ghost use Rattle.gtd_calendar.specs.Calendar.{year_length};
ghost use Rattle.gtd_records.specs.Closing.{Restriction};
ghost use Rattle.gtd_rows.specs.declared.direction.Direction.{Direction};
ghost use Rattle.gtd_year.specs.YearTable.{IsYearTable};

/// Restrictions have exactly one table for each element, direction, vehicle type and year.
pub fn one_table()
    ensures some { (found : List Restriction) (element : ℕ) (direction : Direction) (vehicle year : ℕ)
        → (lines : List (List ℕ)) × IsYearTable found element direction vehicle year lines }
    ensures only { (found : List Restriction) (element : ℕ) (direction : Direction) (vehicle year : ℕ)
        (a b : List (List ℕ)) → IsYearTable found element direction vehicle year a
        → IsYearTable found element direction vehicle year b → a ≡ b }
{}

/// A table has as many lines as its year has days, and each line has 17 bytes, its LF included.
pub fn lines_of_a_table()
    ensures count { (found : List Restriction) (element : ℕ) (direction : Direction) (vehicle year : ℕ)
        (lines : List (List ℕ)) → IsYearTable found element direction vehicle year lines
        → length lines ≡ year_length (pos year) }
    ensures width { (found : List Restriction) (element : ℕ) (direction : Direction) (vehicle year : ℕ)
        (lines : List (List ℕ)) → IsYearTable found element direction vehicle year lines
        → All (λ (line : List ℕ). length line ≡ 17) lines }
{}
