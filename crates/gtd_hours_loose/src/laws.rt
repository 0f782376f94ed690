//! Laws of the definitions: calls that do nothing, whose contracts are what is proved.

ghost use Rattle.std.specs.Prelude.{◌≡◌, ◌↔◌, List, Some, None, ℕ, ℤ};
ghost use Rattle.gtd_hours.specs.Cost.{hours_cost};
ghost use Rattle.gtd_hours.specs.Opening.{IsOpen};
ghost use Rattle.gtd_hours_text.specs.Standing.{StandsFor};
ghost use Rattle.gtd_hours_loose.specs.Manners.{IsFaultIn, IsReadingIn};
ghost use Rattle.gtd_hours_loose.specs.Reading.{IsLooseReading, IsStrict};
ghost use Rattle.gtd_hours_loose.specs.declared.manner.Manner.{Manner};
ghost use Rattle.gtd_hours_loose.specs.declared.reader.LooseFault.{LooseFault};
ghost use Rattle.gtd_hours_loose.specs.declared.reader.LooseHours.{LooseHours};
ghost use Rattle.gtd_hours_loose.specs.declared.strict.StrictForm.{StrictForm};
ghost use Rattle.gtd_hours_loose_tokens.specs.declared.token.DayNames.{DayNames};

use gtd_hours_grammar::laws::one_first_fault;
use gtd_hours_text::laws::one_meaning;

/// A text that is hours as it is written has no other strict form. The strict form of a text that is read is hours as it is
/// written, and stands for the same hours.
pub fn strict_forms()
    ensures strict { (names : DayNames) (text : List ℕ) (read : LooseHours) → IsStrict text
        → IsLooseReading names text read → (read.form ≡ None) × StandsFor text read.hours }
    ensures mended { (names : DayNames) (text : List ℕ) (read : LooseHours) (form : StrictForm)
        → IsLooseReading names text read → read.form ≡ Some form
        → IsStrict form.text.items × StandsFor form.text.items read.hours }
{}

/// Hours that are read of a text in one manner are open at the same seconds, whichever of them are taken, and take as many basic
/// domains. A text of which hours are read has no fault, and others have one first fault at most.
pub fn one_reading()
    ensures open { (manner : Manner) (text : List ℕ) (one other : LooseHours) → IsReadingIn manner text one
        → IsReadingIn manner text other → (s : ℤ) → IsOpen one.hours s ↔ IsOpen other.hours s }
    ensures cost { (manner : Manner) (text : List ℕ) (one other : LooseHours) → IsReadingIn manner text one
        → IsReadingIn manner text other → hours_cost one.hours ≡ hours_cost other.hours }
    ensures fault { (manner : Manner) (text : List ℕ) (one other : LooseFault) → IsFaultIn manner text one
        → IsFaultIn manner text other → one ≡ other }
    ensures apart { (manner : Manner) (text : List ℕ) (read : LooseHours) (bad : LooseFault) → IsReadingIn manner text read
        → IsFaultIn manner text bad → ⊥ }
{
    one_meaning();
    one_first_fault();
}
