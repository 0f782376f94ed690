//! Laws of all sets of seconds, whatever reads or makes them.

ghost use Rattle.std.specs.Prelude.{◌≡◌, ◌⊎◌, ℕ, ℤ, List};
ghost use Rattle.gtd_core.specs.Seconds.{Interval};
ghost use Rattle.gtd_spans.specs.Normal.{IsNormalFor};
ghost use Rattle.gtd_spans.specs.Counting.{IsCount};

/// A set of seconds.
pub trait SecondSet {
    ghost contains: { ℤ → Type 0 };
}

/// A set of seconds has no two normal lists between the same two whole numbers.
pub fn one_normal_list<S: SecondSet>()
    ensures one { (from until : ℤ) (xs ys : List Interval)
        → IsNormalFor S.contains from until xs → IsNormalFor S.contains from until ys → xs ≡ ys }
{}

/// A set has a normal list between any two whole numbers if each second is in it or not in it.
pub fn some_normal_list<S: SecondSet>()
    ensures some { ((t : ℤ) → S.contains t ⊎ (S.contains t → ⊥)) → (from until : ℤ)
        → (xs : List Interval) × IsNormalFor S.contains from until xs }
{}

/// There is at most one count of a set's seconds in a stretch.
pub fn one_count<S: SecondSet>()
    ensures one { (t : ℤ) (n i j : ℕ)
        → IsCount S.contains t n i → IsCount S.contains t n j → i ≡ j }
{}
