//! Laws of the definitions: calls that do nothing, whose contracts are what is proved.

ghost use Rattle.std.specs.Prelude.{◌≡◌, ◌<◌, ◌≤◌, ◌^◌, ℕ, ℤ, Bool, List, Option, Ok, Some, decimal, length};
ghost use Rattle.gtd_core.specs.Seconds.{IsHorizonSecond};
ghost use Rattle.gtd_lines.specs.Lines.{AreLinesOfRows, IsLine};
ghost use Rattle.gtd_records.specs.Closing.{Restriction};
ghost use Rattle.gtd_records.specs.File.{IsFile};
ghost use Rattle.gtd_rows.specs.declared.direction.Direction.{Direction};
ghost use Rattle.gtd_report.specs.Putting.{direction_word};
ghost use Rattle.gtd_states.specs.Lines.{state_word};
ghost use Rattle.gtd_states.specs.States.{State};
ghost use Rattle.json.specs.Json.{document};
ghost use Rattle.json.specs.Print.{print};
ghost use Rattle.json.specs.Tree.{json_tokens};
ghost use Rattle.gtd_now.specs.Now.{IsNow};
ghost use Rattle.gtd_now.specs.Objects.{AreRowNumbers, state_value};
ghost use Rattle.gtd_now.specs.Query.{Query};
ghost use Rattle.gtd_now.specs.Reasons.{row_line};
ghost use Rattle.gtd_now.specs.Table.{change_shown, left, right};

/// A file has at most one text for a query.
pub fn one_now()
    ensures one { (bytes : List ℕ) (found : List Restriction) (query : Query) (a b : List (List ℕ)) → IsNow bytes found query a
        → IsNow bytes found query b
        → a ≡ b }
{}

/// A file has a text for each query at a moment that a horizon may have.
pub fn some_now()
    ensures some { (bytes : List ℕ) (found : List Restriction) (query : Query) → IsHorizonSecond query.second
        → (text : List (List ℕ)) × IsNow bytes found query text }
{}

/// The line that is told of a row of a file is the one on which the row begins.
pub fn told_lines()
    ensures line { (bytes lines : List ℕ) (found : List Restriction) (row : ℕ) → IsFile bytes (Ok found)
        → AreLinesOfRows bytes lines → 0 < row → row ≤ length found → IsLine bytes row (row_line lines row) }
{}

/// A line of JSON, without its line feed, is the text of one value by the grammar of RFC 8259: that of the state.
pub fn reads_back()
    ensures value { (why : Bool) (lines : List ℕ) (found : List Restriction) (element : ℕ) (direction : Direction)
        (vehicle : ℕ) (state : State)
        → element < 2 ^ 64 → vehicle < 2 ^ 64 → AreRowNumbers lines → AreRowNumbers state.rows
        → document (print (json_tokens (state_value why lines found element direction vehicle state)))
        ≡ Some (state_value why lines found element direction vehicle state) }
{}

/// The columns of a table have the same widths in each line.
pub fn columns()
    ensures element { (element : ℕ) → element < 10 ^ 10 → length (right 10 (decimal element)) ≡ 10 }
    ensures direction { (direction : Direction) → length (left 9 (direction_word direction)) ≡ 9 }
    ensures state { (is_open : Bool) → length (left 6 (state_word is_open)) ≡ 6 }
    ensures until { (change : Option ℤ) → length (left 19 (change_shown change)) ≡ 19 }
{}
