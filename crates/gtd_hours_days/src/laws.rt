//! Laws of the definitions: calls that do nothing, whose contracts are what is proved.

ghost use Rattle.std.specs.Prelude.{◌≡◌, ◌↔◌, ℕ, ℤ, List};
ghost use Rattle.gtd_hours_holidays.specs.Days.{IsIn};
ghost use Rattle.gtd_hours_holidays.specs.declared.days.Days.{Days};
ghost use Rattle.gtd_hours_holidays.specs.declared.known_years.KnownYears.{KnownYears};
ghost use Rattle.gtd_hours_holidays.specs.declared.run.Run.{Run};
ghost use Rattle.gtd_hours_days.specs.Costs.{IsCost};
ghost use Rattle.gtd_hours_days.specs.Groups.{IsGrouping};
ghost use Rattle.gtd_hours_days.specs.declared.group.Group.{Group};

/// Sets of the same days are written in one way, so they take one number of basic domains.
pub fn one_grouping()
    ensures way { (a b : Days) (years : KnownYears) (xs ys : List Group) (rs ss : List Run)
        → ((n : ℤ) → IsIn a n ↔ IsIn b n) → IsGrouping a years xs rs → IsGrouping b years ys ss
        → (xs ≡ ys) × (rs ≡ ss) }
    ensures cost { (a b : Days) (years : KnownYears) (i k : ℕ) → ((n : ℤ) → IsIn a n ↔ IsIn b n)
        → IsCost a years i → IsCost b years k → i ≡ k }
{}
