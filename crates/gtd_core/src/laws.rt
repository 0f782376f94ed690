//! Laws of the definitions.

ghost use Rattle.std.specs.Prelude.{◌≡◌, ◌≤◌, ◌↔◌, true};
ghost use Rattle.gtd_core.specs.declared.domain.Domain.{Domain};
ghost use Rattle.gtd_core.specs.declared.domain.Expr.{Expr};
ghost use Rattle.gtd_core.specs.Equality.{same_tree};
ghost use Rattle.gtd_core.specs.Limits.{most_basic_domains};
ghost use Rattle.gtd_core.specs.Parts.{domain_tree};
ghost use Rattle.gtd_core.specs.Trees.{Tree, tree_of, AreValid, leaf_count};

/// Each basic domain of an expression has a start and a duration in their ranges.
pub fn leaves_are_valid()
    ensures valid { (expr : Expr) → AreValid (tree_of expr) }
{}

/// Two expressions are equal exactly if they are the same tree.
pub fn equality_of_trees()
    ensures same { (a b : Tree) → (same_tree a b ≡ true) ↔ (a ≡ b) }
{}

/// A domain has at most 128 basic domains. Each has a start with its fields in their ranges, and a duration within its
/// bound.
pub fn domains_are_valid()
    ensures few { (domain : Domain) → leaf_count (domain_tree domain) ≤ most_basic_domains }
    ensures valid { (domain : Domain) → AreValid (domain_tree domain) }
{}
