//! Laws of the definitions: calls that do nothing, whose contracts are what is proved.

ghost use Rattle.std.specs.Prelude.{◌≡◌, ◌↔◌, ℤ, List, Some};
ghost use Rattle.gtd_core.specs.Parts.{domain_tree};
ghost use Rattle.gtd_core.specs.declared.domain.Domain.{Domain};
ghost use Rattle.gtd_difference.specs.Difference.{EitherGivesYear};
ghost use Rattle.gtd_eval.specs.Membership.{InDomain};
ghost use Rattle.gtd_records.specs.Closing.{Restriction};
ghost use Rattle.gtd_repeats.specs.Findings.{AreFindings};
ghost use Rattle.gtd_repeats.specs.Sameness.{HoldSame, HoldsWithin};
ghost use Rattle.gtd_repeats.specs.Without.{CloseSame, says_either, says_same, says_within, without};
ghost use Rattle.gtd_repeats.specs.declared.findings.Finding.{Finding};

use gtd_difference::laws as difference;

/// Where no start gives a year, what is decided of the seconds from 1901-01-01 to 2699-12-31 is decided of all time.
pub fn ever()
    ensures same { (a b : Domain) → (EitherGivesYear a b → ⊥) → HoldSame (Some (domain_tree a)) (Some (domain_tree b))
        → (t : ℤ) → InDomain a t ↔ InDomain b t }
    ensures within { (a b : Domain) → (EitherGivesYear a b → ⊥) → HoldsWithin (Some (domain_tree a)) (Some (domain_tree b))
        → (t : ℤ) → InDomain a t → InDomain b t }
{
    difference::ever();
}

/// Without the rows that are said to be within others a file closes what it closes with them, and so it does without those that
/// are said to be the same as others, and without both.
pub fn needless_rows()
    ensures within { (rows : List Restriction) (findings : List Finding) → AreFindings rows findings
        → CloseSame rows (without says_within findings rows) }
    ensures same { (rows : List Restriction) (findings : List Finding) → AreFindings rows findings
        → CloseSame rows (without says_same findings rows) }
    ensures both { (rows : List Restriction) (findings : List Finding) → AreFindings rows findings
        → CloseSame rows (without says_either findings rows) }
{}
