//! Laws of the definitions: calls that do nothing, whose contracts are what is proved.

ghost use Rattle.std.specs.Prelude.{◌≡◌, ◌↔◌, ℕ, ℤ, Option, List, false};
ghost use Rattle.gtd_hours2.specs.Opening.{Clocks, IsClosed, IsOpen};
ghost use Rattle.gtd_hours2.specs.Rules.{Rule, has_holidays};
ghost use Rattle.gtd_hours2.specs.declared.values.HolidayKind.{HolidayKind};

/// The days that a table says are holidays of a kind.
pub trait HolidayDays {
    ghost is_holiday: { HolidayKind → ℤ → Type 0 };
}

/// No second is both open and said to be closed.
pub fn never_both<T: HolidayDays>()
    ensures { (years : Option (ℕ × ℕ)) (clocks : Clocks) (rules : List Rule) (s : ℤ)
        → IsOpen (record { holiday = T.is_holiday; years = years; clocks = clocks }) rules s
        → IsClosed (record { holiday = T.is_holiday; years = years; clocks = clocks }) rules s
        → ⊥ }
{}

/// Rules without holidays are open at the same seconds, whatever a table says.
pub fn no_table_needed<T: HolidayDays, U: HolidayDays>()
    ensures { (years : Option (ℕ × ℕ)) (clocks : Clocks) (rules : List Rule) (s : ℤ)
        → has_holidays rules ≡ false
        → IsOpen (record { holiday = T.is_holiday; years = years; clocks = clocks }) rules s
        ↔ IsOpen (record { holiday = U.is_holiday; years = years; clocks = clocks }) rules s }
{}
