//! Laws of the definitions: calls that do nothing, whose contracts are what is proved.

ghost use Rattle.std.specs.Prelude.{◌≡◌, ◌↔◌, true};
ghost use Rattle.gtd_hours_items.specs.Every.{is_many};
ghost use Rattle.gtd_hours_parts.specs.Numbers.{IsStepNumber, IsYearNumber};
ghost use Rattle.gtd_hours_parts.specs.Pieces.{AreFewYears};
ghost use Rattle.gtd_hours_parts.specs.declared.digits.Digits.{Digits};

/// A year and a step are years without a last one, of which there are more than a domain holds, exactly if plain hours do not
/// have them as few.
pub fn many_or_few()
    ensures many { (first step : Digits) → IsStepNumber step
        → (is_many first.value first.count step.value ≡ true) ↔ (IsYearNumber first × (AreFewYears first step → ⊥)) }
{}
