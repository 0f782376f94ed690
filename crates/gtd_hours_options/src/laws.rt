//! Laws of the definitions: calls that do nothing, whose contracts are what is proved.

ghost use Rattle.std.specs.Prelude.{◌≡◌, false, List, ℕ};
ghost use Rattle.gtd_hours_known.specs.Reading.{IsKnownFault, KnownStandsFor};
ghost use Rattle.gtd_hours_known.specs.declared.fault.KnownFault.{KnownFault};
ghost use Rattle.gtd_hours_known.specs.declared.known.KnownHours.{KnownHours};
ghost use Rattle.gtd_hours_moments.specs.Reading.{IsMomentText};
ghost use Rattle.gtd_hours_moments.specs.declared.text.MomentText.{MomentText};
ghost use Rattle.gtd_hours_options.specs.First.{has_times};
ghost use Rattle.gtd_hours_options.specs.Reading.{IsOptionsFault, StandsWith};
ghost use Rattle.gtd_hours_options.specs.Readings.{AreReadInOneWay, HowRead};
ghost use Rattle.gtd_hours_options.specs.declared.fault.OptionsFault.{OptionsFault};
ghost use Rattle.gtd_hours_options.specs.declared.fault.OptionsFault.TheVariants as wrong;
ghost use Rattle.gtd_hours_options.specs.declared.options.Options.{Options};

use gtd_hours_grammar::laws::one_first_fault;
use gtd_hours_holiday_rules::laws::one_holiday_text;
use gtd_hours_moments::laws::{one_moment_text, one_reading as one_list_of_times};
use gtd_hours_tokens::laws::one_reading as one_list_of_tokens;

/// A text that is read without options for times is read so whatever they are. A text without times, in which each token can
/// stand where it does, is read in no other way, and its fault is one that it has there.
pub fn readings_without_times()
    ensures known { (options : Options) (text : List ℕ) (read : KnownHours)
        → KnownStandsFor options.known text read → StandsWith options text read }
    ensures only { (options : Options) (text : List ℕ) (moments : MomentText) (read : KnownHours)
        → IsMomentText text moments → has_times moments ≡ false → StandsWith options text read
        → KnownStandsFor options.known text read }
    ensures fault { (options : Options) (text : List ℕ) (moments : MomentText) (bad : OptionsFault)
        → IsMomentText text moments → has_times moments ≡ false → IsOptionsFault options text bad
        → (first : KnownFault) × IsKnownFault options.known text first × (bad ≡ wrong.Known first) }
{
    one_list_of_times();
    one_moment_text();
}

/// Texts are read in one way, whatever is given for holidays and times.
pub fn one_way()
    ensures all { (how : HowRead) → AreReadInOneWay how }
{
    one_first_fault();
    one_holiday_text();
    one_list_of_tokens();
    one_list_of_times();
    one_moment_text();
    readings_without_times();
}
