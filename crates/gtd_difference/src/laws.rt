//! Laws of the definitions: calls that do nothing, whose contracts are what is proved.

ghost use Rattle.std.specs.Prelude.{◌≡◌, ℤ};
ghost use Rattle.gtd_core.specs.Parts.{domain_tree};
ghost use Rattle.gtd_core.specs.declared.domain.Domain.{Domain};
ghost use Rattle.gtd_eval.specs.Membership.{InDomain};
ghost use Rattle.gtd_text.specs.Canonical.{canonical};
ghost use Rattle.gtd_difference.specs.Difference.{Agree, AgreeFrom, EitherGivesYear, HasNoneAlone, IsComparison};
ghost use Rattle.gtd_difference.specs.Difference.{IsWithin, first_begin, last_end};
ghost use Rattle.gtd_difference.specs.declared.comparison.Comparison.{Comparison};

use gtd_text::laws::canonical_text_of_domain;

/// To have the same seconds is an equivalence.
pub fn equivalence()
    ensures reflexive { (a : Domain) → Agree (InDomain a) (InDomain a) }
    ensures symmetric { (a b : Domain) → Agree (InDomain a) (InDomain b) → Agree (InDomain b) (InDomain a) }
    ensures transitive { (a b c : Domain) → Agree (InDomain a) (InDomain b) → Agree (InDomain b) (InDomain c)
        → Agree (InDomain a) (InDomain c) }
{}

/// The same between two seconds.
pub fn equivalence_between()
    ensures reflexive { (a : Domain) (from until : ℤ) → AgreeFrom (InDomain a) (InDomain a) from until }
    ensures symmetric { (a b : Domain) (from until : ℤ) → AgreeFrom (InDomain a) (InDomain b) from until
        → AgreeFrom (InDomain b) (InDomain a) from until }
    ensures transitive { (a b c : Domain) (from until : ℤ) → AgreeFrom (InDomain a) (InDomain b) from until
        → AgreeFrom (InDomain b) (InDomain c) from until → AgreeFrom (InDomain a) (InDomain c) from until }
{}

/// Domains whose canonical texts are equal have the same seconds.
pub fn equal_texts_agree()
    ensures agree { (a b : Domain) → canonical (domain_tree a) ≡ canonical (domain_tree b)
        → Agree (InDomain a) (InDomain b) }
{
    canonical_text_of_domain();
}

/// Two domains compare in exactly one way from a second on.
pub fn one_comparison()
    ensures only { (a b : Domain) (from : ℤ) (x y : Comparison) → IsComparison a b from x → IsComparison a b from y → x ≡ y }
{}

/// What two domains without years say of the seconds from 1901-01-01 up to 2700-01-01 they say of all time.
pub fn ever()
    ensures same { (a b : Domain) → (EitherGivesYear a b → ⊥)
        → AgreeFrom (InDomain a) (InDomain b) first_begin last_end → Agree (InDomain a) (InDomain b) }
    ensures within { (a b : Domain) → (EitherGivesYear a b → ⊥)
        → HasNoneAlone (InDomain a) (InDomain b) first_begin last_end → IsWithin (InDomain a) (InDomain b) }
{}
