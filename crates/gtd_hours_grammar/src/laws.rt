//! Laws of the definitions: calls that do nothing, whose contracts are what is proved.

ghost use Rattle.std.specs.Prelude.{◌≡◌, ◌≤◌, ◌*◌, ◌⊎◌, ℕ, List, length};
ghost use Rattle.gtd_hours_grammar.specs.declared.fault.HoursFault.{HoursFault};
ghost use Rattle.gtd_hours_parts.specs.declared.piece.Piece.{Piece};
ghost use Rattle.gtd_hours_grammar.specs.Faults.{IsFirstFault, IsHoursText};
ghost use Rattle.gtd_hours_parts.specs.SoundPieces.{ArePieces};

use gtd_hours_tokens::laws::each_text as each_list_of_tokens;

/// A text is opening hours in one way at most.
pub fn one_reading()
    ensures { (text : List ℕ) (one other : List Piece) →
        IsHoursText text one → IsHoursText text other → one ≡ other }
{}

/// A text has one first fault at most, and none if it is opening hours.
pub fn one_first_fault()
    ensures fault { (text : List ℕ) (one other : HoursFault) →
        IsFirstFault text one → IsFirstFault text other → one ≡ other }
    ensures apart { (text : List ℕ) (p : List Piece) (bad : HoursFault) →
        IsHoursText text p → IsFirstFault text bad → ⊥ }
{}

/// Each text is opening hours, or has a first fault. The numbers and times of its pieces are in range, and there are at most
/// four pieces for each of its bytes.
pub fn each_text()
    ensures some { (text : List ℕ) →
        ((p : List Piece) × IsHoursText text p) ⊎ ((bad : HoursFault) × IsFirstFault text bad) }
    ensures in_range { (text : List ℕ) (p : List Piece) → IsHoursText text p → ArePieces p }
    ensures few { (text : List ℕ) (p : List Piece) → IsHoursText text p → length p ≤ 4 * length text }
{
    each_list_of_tokens();
}
