//! Laws of the definitions: calls that do nothing, whose contracts are what is proved.

ghost use Rattle.std.specs.Prelude.{◌≡◌, List, ℕ};
ghost use Rattle.gtd_hours_loose_tokens.specs.declared.token.DayNames.{DayNames};
ghost use Rattle.gtd_hours_mended.specs.Mending.{IsMendStop, IsMendedText};
ghost use Rattle.gtd_hours_options.specs.declared.fault.OptionsFault.{OptionsFault};
ghost use Rattle.gtd_hours_options.specs.declared.fault.OptionsReadFault.TheVariants as reading;

use gtd_hours_grammar::laws::one_first_fault;
use gtd_hours_loose::laws::one_reading as one_loose_reading;
use gtd_hours_moments::laws::{one_moment_text, one_reading as one_list_of_times};
use gtd_hours_options::laws::one_way;
use gtd_hours_text::laws::one_meaning;
use gtd_hours_tokens::laws::one_reading as one_list_of_tokens;

/// A text has one mended text at most, and then no fault; others have one first fault at most.
pub fn one_mended_text()
    ensures mended { (names : DayNames) (text one other : List ℕ) → IsMendedText names text one → IsMendedText names text other
        → one ≡ other }
    ensures apart { (names : DayNames) (text mended : List ℕ) (bad : OptionsFault) → IsMendedText names text mended
        → IsMendStop names text (reading.Fault bad) → ⊥ }
    ensures fault { (names : DayNames) (text : List ℕ) (one other : OptionsFault) → IsMendStop names text (reading.Fault one)
        → IsMendStop names text (reading.Fault other) → one ≡ other }
{
    one_meaning();
    one_loose_reading();
    one_list_of_times();
    one_moment_text();
    one_way();
    one_first_fault();
    one_list_of_tokens();
}
