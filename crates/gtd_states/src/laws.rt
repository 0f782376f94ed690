//! Laws of the definitions: calls that do nothing, whose contracts are what is proved.

ghost use Rattle.std.specs.Prelude.{◌≡◌, ℕ, ℤ, List};
ghost use Rattle.gtd_core.specs.Seconds.{IsHorizonSecond};
ghost use Rattle.gtd_records.specs.Closing.{Restriction};
ghost use Rattle.gtd_rows.specs.declared.direction.Direction.{Direction};
ghost use Rattle.gtd_states.specs.States.{IsState, State};

/// At each second that a horizon may have, an element has exactly one state in each direction for each vehicle type.
pub fn one_state()
    ensures has { (found : List Restriction) (element : ℕ) (direction : Direction) (vehicle : ℕ) (second : ℤ)
        → IsHorizonSecond second → (state : State) × IsState found element direction vehicle second state }
    ensures only { (found : List Restriction) (element : ℕ) (direction : Direction) (vehicle : ℕ) (second : ℤ) (a b : State)
        → IsState found element direction vehicle second a → IsState found element direction vehicle second b → a ≡ b }
{}
