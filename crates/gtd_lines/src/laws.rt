//! Laws of the definitions: calls that do nothing; their contracts are what is proved.

ghost use Rattle.std.specs.Prelude.{◌≡◌, ℕ, List};
ghost use Rattle.gtd_lines.specs.Lines.{AreLinesOfRows, IsLine};

/// A row of a file begins on one line.
pub fn one_line()
    ensures one { (bytes : List ℕ) (row line other : ℕ) → IsLine bytes row line → IsLine bytes row other → line ≡ other }
{}

/// The rows of a file begin on one list of lines.
pub fn one_list_of_lines()
    ensures one { (bytes a b : List ℕ) → AreLinesOfRows bytes a → AreLinesOfRows bytes b → a ≡ b }
    ensures some { (bytes : List ℕ) → (lines : List ℕ) × AreLinesOfRows bytes lines }
{}
