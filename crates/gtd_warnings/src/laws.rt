//! Laws of the definitions: calls that do nothing; their contracts are what is proved.

ghost use Rattle.std.specs.Prelude.{◌≡◌, ◌≤ℤ◌, ◌<ℤ◌, ◌+ℤ◌, ℕ, ℤ, Bool, List, pos};
ghost use Rattle.gtd_core.specs.Trees.{AreValid, Tree};
ghost use Rattle.gtd_core.specs.Whole.{from_day};
ghost use Rattle.gtd_core.specs.declared.duration.DurationParts.{DurationParts};
ghost use Rattle.gtd_core.specs.declared.horizon.Horizon.{Horizon};
ghost use Rattle.gtd_core.specs.declared.start.StartParts.{StartParts};
ghost use Rattle.gtd_eval.specs.Extent.{first_second};
ghost use Rattle.gtd_eval.specs.Membership.{InTree, SomeGivesYear};
ghost use Rattle.gtd_mistakes.specs.Rules.{HoldsOfBasic};
ghost use Rattle.gtd_mistakes.specs.Shapes.{EndsAfterMidnight, EndsWithinDay};
ghost use Rattle.gtd_mistakes.specs.declared.rule.Rule.TheVariants as rule;
ghost use Rattle.gtd_mistakes.specs.declared.told.Told.{Told};
ghost use Rattle.gtd_warnings.specs.Codes.{AreLoneOfFile};
ghost use Rattle.gtd_warnings.specs.Days.{HoldsOn};
ghost use Rattle.gtd_warnings.specs.Ends.{EachEnds, EndsAtTime, EndsByMidnight, EndsNextDay, EndsPastMidnight, named};
ghost use Rattle.gtd_warnings.specs.Extents.{HoldsThroughout};
ghost use Rattle.gtd_warnings.specs.Over.{EndsByItsYears, first_of_day, years_end};
ghost use Rattle.gtd_warnings.specs.RowsTold.{AreToldOfFile};
ghost use Rattle.gtd_warnings.specs.declared.codes.LoneCode.{LoneCode};
ghost use Rattle.gtd_warnings.specs.declared.file.Asked.{Asked};

/// What is told of a file is one list, and so are the codes that one row alone names.
pub fn one_answer()
    ensures told { (asked : Asked) (bytes : List ℕ) (a b : List Told) → AreToldOfFile asked bytes a → AreToldOfFile asked bytes b
        → a ≡ b }
    ensures lone { (asked : Asked) (bytes : List ℕ) (a b : List LoneCode) → AreLoneOfFile asked bytes a
        → AreLoneOfFile asked bytes b → a ≡ b }
{}

/// Where a warning says that a row never holds or is over, no second to come is in its domain, however late: from 1901-01-01,
/// from the day that is asked about, or from 30 days after it on. A domain without years that never holds has no second of all
/// time, and one that always holds has each. A domain that ends by its years has no second from 2700-01-01 on.
pub fn said_for_ever()
    ensures never { (tree : Tree) (t : ℤ) → HoldsThroughout tree rule.NeverHolds → first_second ≤ℤ t → InTree tree t → ⊥ }
    ensures never_ever { (tree : Tree) (t : ℤ) → HoldsThroughout tree rule.NeverHolds → (SomeGivesYear tree → ⊥)
        → InTree tree t → ⊥ }
    ensures always { (tree : Tree) (t : ℤ) → HoldsThroughout tree rule.AlwaysHolds → InTree tree t }
    ensures past { (days : Horizon) (tree : Tree) (t : ℤ) → HoldsOn rule.Past days tree
        → first_of_day (from_day days) ≤ℤ t → InTree tree t → ⊥ }
    ensures soon { (days : Horizon) (tree : Tree) (t : ℤ) → HoldsOn rule.EndsSoon days tree
        → first_of_day (from_day days +ℤ pos 30) ≤ℤ t → InTree tree t → ⊥ }
    ensures years { (tree : Tree) (t : ℤ) → AreValid tree → EndsByItsYears tree → InTree tree t → t <ℤ years_end }
{}

/// Where a warning names an end, each stretch of the basic domain ends at that time of the day, and `end-past-midnight` on the
/// day after its first. Each stretch of a part that stays ends on its first day, and none of a night does.
pub fn named_ends()
    ensures duration { (whole : Bool) (s : StartParts) (d : DurationParts) → HoldsOfBasic rule.EndAsDuration whole s d
        → EachEnds s d (EndsAtTime (named s d)) }
    ensures midnight { (whole : Bool) (s : StartParts) (d : DurationParts) → HoldsOfBasic rule.EndPastMidnight whole s d
        → EachEnds s d (EndsNextDay (named s d)) }
    ensures stays { (s : StartParts) (d : DurationParts) → EndsWithinDay s d → EachEnds s d EndsByMidnight }
    ensures night { (s : StartParts) (d : DurationParts) → EndsAfterMidnight s d → EachEnds s d EndsPastMidnight }
{}
