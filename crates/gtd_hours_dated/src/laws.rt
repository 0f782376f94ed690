//! Laws of the definitions: calls that do nothing, whose contracts are what is proved.

ghost use Rattle.std.specs.Prelude.{◌≡◌, ◌↔◌, ◌⊎◌, ◌∷◌, ◌++◌, true, false, List, Option, ℕ, ℤ};
ghost use Rattle.std.specs.List.{list_all};
ghost use Rattle.gtd_calendar.specs.Calendar.{AreFieldsOf};
ghost use Rattle.gtd_calendar.specs.declared.day.DayFields.{DayFields};
ghost use Rattle.gtd_hours.specs.Cost.{hours_cost};
ghost use Rattle.gtd_hours.specs.Opening.{EachHolds, IsOpen, Matches, SomeHolds};
ghost use Rattle.gtd_hours.specs.Writable.{selectors};
ghost use Rattle.gtd_hours.specs.Written.{hours_text};
ghost use Rattle.gtd_hours.specs.declared.hours.Hours.{Hours};
ghost use Rattle.gtd_hours.specs.declared.hours.Kind.{Kind};
ghost use Rattle.gtd_hours.specs.declared.hours.Rule.{Rule};
ghost use Rattle.gtd_hours_dated.specs.Dated.{IsDatedHours, IsDatedRule, More, SomeMore, has_month_days, names_month_days};
ghost use Rattle.gtd_hours_dated.specs.Dated.{names_years};

/// A day matches a rule with more month days exactly if it matches the rule without them, and one of them holds on it. Where the
/// rule has month days already, they are days beside these: of all other kinds one selector must hold, and of the month days
/// one, or one more.
pub fn days_of_dates()
    ensures own { (more : More) (rule made : Rule) → has_month_days (selectors rule.kinds.items) ≡ false
        → IsDatedRule more rule made → (n : ℤ) → Matches made.kinds.items n
        ↔ ((f : DayFields) × AreFieldsOf n f × EachHolds rule.kinds.items n f × SomeMore more n f) }
    ensures joined { (more : More) (rule made : Rule) (years others : List Kind) (month_days : Kind)
        → rule.kinds.items ≡ years ++ month_days ∷ others → list_all names_years (selectors years) ≡ true
        → names_month_days month_days.selectors.items ≡ true → IsDatedRule more rule made
        → (n : ℤ) → Matches made.kinds.items n ↔ ((f : DayFields) × AreFieldsOf n f × EachHolds years n f
        × (SomeHolds month_days.selectors.items n f ⊎ SomeMore more n f) × EachHolds others n f) }
{}

/// Hours that a text stands for with the same month days are open at the same seconds, whichever of them are taken; they take
/// as many basic domains, and are written the same.
pub fn one_meaning()
    ensures open { (text : List ℕ) (more : Option More) (one other : Hours) → IsDatedHours text more one
        → IsDatedHours text more other → (s : ℤ) → IsOpen one s ↔ IsOpen other s }
    ensures cost { (text : List ℕ) (more : Option More) (one other : Hours) → IsDatedHours text more one
        → IsDatedHours text more other → hours_cost one ≡ hours_cost other }
    ensures written { (text : List ℕ) (more : Option More) (one other : Hours) → IsDatedHours text more one
        → IsDatedHours text more other → hours_text one ≡ hours_text other }
{}
