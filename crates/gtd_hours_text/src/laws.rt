//! Laws of the definitions: calls that do nothing, whose contracts are what is proved.

ghost use Rattle.std.specs.Prelude.{◌≡◌, ◌+◌, ◌*◌, ◌↔◌, ◌⊎◌, ℕ, ℤ, List, length};
ghost use Rattle.gtd_hours.specs.Cost.{hours_cost};
ghost use Rattle.gtd_hours.specs.Opening.{IsOpen};
ghost use Rattle.gtd_hours.specs.Written.{hours_text};
ghost use Rattle.gtd_hours.specs.declared.hours.Hours.{Hours};
ghost use Rattle.gtd_hours_grammar.specs.Faults.{IsFirstFault};
ghost use Rattle.gtd_hours_grammar.specs.declared.fault.HoursFault.{HoursFault};
ghost use Rattle.gtd_hours_text.specs.Room.{HasRoom};
ghost use Rattle.gtd_hours_text.specs.Standing.{StandsFor};

use gtd_hours_grammar::laws::each_text as each_grammar_text;

/// Hours that a text stands for are open at the same seconds, whichever of them are taken; they take as many basic domains,
/// and are written the same.
pub fn one_meaning()
    ensures open { (text : List ℕ) (one other : Hours) → StandsFor text one → StandsFor text other →
        (s : ℤ) → IsOpen one s ↔ IsOpen other s }
    ensures cost { (text : List ℕ) (one other : Hours) → StandsFor text one → StandsFor text other →
        hours_cost one ≡ hours_cost other }
    ensures written { (text : List ℕ) (one other : Hours) → StandsFor text one → StandsFor text other →
        hours_text one ≡ hours_text other }
{}

/// Each text stands for some hours, or has a first fault, where memory has room: for vectors of up to twenty elements for each
/// byte of the text, and four more.
pub fn each_text()
    ensures some { (text : List ℕ) → HasRoom (20 * length text + 4) →
        ((hours : Hours) × StandsFor text hours) ⊎ ((bad : HoursFault) × IsFirstFault text bad) }
{
    each_grammar_text();
}
