//! Laws of the definitions.

ghost use Rattle.std.specs.Prelude.{◌≡◌, ◌↔◌, List, [], ◌∷◌, ℕ, Ok, codes};
ghost use Rattle.gtd_core.specs.Parts.{domain_tree};
ghost use Rattle.gtd_core.specs.declared.domain.Domain.{Domain};
ghost use Rattle.gtd_core.specs.declared.horizon.Horizon.{Horizon};
ghost use Rattle.gtd_text.specs.Canonical.{canonical};
ghost use Rattle.gtd_roads.specs.File.{IsFile};
ghost use Rattle.gtd_roads.specs.Closing.{Restriction};
ghost use Rattle.gtd_roads.specs.Direction.{Direction};
ghost use Rattle.gtd_roads.specs.Putting.{text_of};
ghost use Rattle.gtd_roads.specs.Schedule.{IsSchedule};
ghost use Rattle.gtd_roads.specs.YearTable.{IsYearTable};
ghost use Rattle.gtd_roads.specs.Migrated.{migrated};
ghost use Rattle.gtd_tool.specs.Asked.{Asked, Canon, Check, Text};
ghost use Rattle.gtd_tool.specs.Plans.{AsksFor};
ghost use Rattle.gtd_tool.specs.Printed.{IsAnswer};
ghost use Rattle.gtd_tool.specs.Refusals.{IsRefusalOf};
ghost use Rattle.gtd_tool.specs.declared.refusal.Refusal.{Refusal};

use gtd_roads::laws::migration_changes_nothing;
use gtd_text::laws::canonical_text_of_domain;

/// A command line asks for at most one thing, or has at most one first refusal, and never both.
pub fn one_answer()
    ensures asked { (words : List Text) (a b : Asked)
        → AsksFor words a → AsksFor words b → a ≡ b }
    ensures refusal { (words : List Text) (r s : Refusal)
        → IsRefusalOf words r → IsRefusalOf words s → r ≡ s }
    ensures apart { (words : List Text) (a : Asked) (r : Refusal)
        → AsksFor words a → IsRefusalOf words r → ⊥ }
{}

/// What is asked for without a record file has at most one answer.
pub fn one_line()
    ensures answer { (asked : Asked) (a b : List ℕ) → IsAnswer asked a → IsAnswer asked b → a ≡ b }
{}

/// What `canon` prints for a domain, without the line end, is a word that stands for the same domain.
pub fn canonical_word()
    ensures check { (domain : Domain) →
        AsksFor (codes "check" ∷ canonical (domain_tree domain) ∷ []) (Check (domain_tree domain)) }
    ensures canon { (domain : Domain) →
        AsksFor (codes "canon" ∷ canonical (domain_tree domain) ∷ []) (Canon (domain_tree domain)) }
{
    canonical_text_of_domain();
}

/// A record file and its migrated file have the same schedule for each vehicle type and horizon, and the same table for
/// each year.
pub fn migrated_files_mean_the_same()
    ensures schedule { (bytes : List ℕ) (found again : List Restriction) → IsFile bytes (Ok found)
        → IsFile (text_of (migrated found)) (Ok again)
        → (vehicle : ℕ) (horizon : Horizon) (lines : List (List ℕ)) →
        IsSchedule again vehicle horizon lines ↔ IsSchedule found vehicle horizon lines }
    ensures table { (bytes : List ℕ) (found again : List Restriction) → IsFile bytes (Ok found)
        → IsFile (text_of (migrated found)) (Ok again)
        → (element : ℕ) (direction : Direction) (vehicle year : ℕ) (lines : List (List ℕ)) →
        IsYearTable again element direction vehicle year lines
        ↔ IsYearTable found element direction vehicle year lines }
{
    migration_changes_nothing();
}
