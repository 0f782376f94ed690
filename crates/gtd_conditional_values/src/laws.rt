//! Laws of the definitions: calls that do nothing, whose contracts are what is proved.

ghost use Rattle.std.specs.Prelude.{◌≡◌, ◌↔◌, ℕ, ℤ, None, List};
ghost use Rattle.gtd_hours.specs.Opening.{IsOpen};
ghost use Rattle.gtd_hours.specs.declared.hours.Hours.{Hours};
ghost use Rattle.gtd_hours_known.specs.declared.known.KnownHours.{KnownHours};
ghost use Rattle.gtd_hours_loose.specs.declared.manner.Manner.TheVariants as manner;
ghost use Rattle.gtd_hours_options.specs.Reading.{IsOptionsFault, StandsWith};
ghost use Rattle.gtd_hours_options.specs.Readings.{HowRead};
ghost use Rattle.gtd_hours_options.specs.declared.fault.OptionsFault.{OptionsFault};
ghost use Rattle.gtd_hours_text.specs.Standing.{StandsFor};
ghost use Rattle.gtd_conditional_values.specs.Parts.{AreParts};
ghost use Rattle.gtd_conditional_values.specs.ReadTerms.{IsHours, IsHoursFault};
ghost use Rattle.gtd_conditional_values.specs.declared.hours.TermHours.{TermHours};
ghost use Rattle.gtd_conditional_values.specs.declared.term.Term.TheVariants as term;
ghost use Rattle.gtd_conditional_values.specs.declared.term.TermFault.{TermFault};
ghost use Rattle.gtd_conditional_values.specs.declared.term.TermFault.TheVariants as fault;

use gtd_hours_text::laws::one_meaning;

/// A value has its parts in one way.
pub fn parts_once()
    ensures once { (value : List ℕ) (parts others : List (List ℕ)) → AreParts value parts → AreParts value others
        → parts ≡ others }
{}

/// Where hours are read strictly, they are those that their text stands for as it is written, with the options that are given; or
/// they have the first fault of the text with these options.
pub fn strict_as_written()
    ensures hours { (how : HowRead) (place : ℕ) (text : List ℕ) (given : TermHours) → how.manner ≡ manner.Strict
        → IsHours how place text (term.Hours given)
        → (read : KnownHours) × StandsWith how.options text read × (read.form ≡ None) × (given.hours ≡ read.hours) }
    ensures fault { (how : HowRead) (place : ℕ) (text : List ℕ) (bad : TermFault) → how.manner ≡ manner.Strict
        → IsHoursFault how place text bad
        → (first : OptionsFault) × IsOptionsFault how.options text first × (bad ≡ fault.Hours place first) }
{}

/// A text that stands for plain hours as it is written is read as these, however hours are read and whatever the options are: at
/// the same seconds open, over all time. It has no fault.
pub fn plain_as_written()
    ensures hours { (how : HowRead) (place : ℕ) (text : List ℕ) (hours : Hours) (given : TermHours) → StandsFor text hours
        → IsHours how place text (term.Hours given) → StandsFor text given.hours }
    ensures open { (how : HowRead) (place : ℕ) (text : List ℕ) (hours : Hours) (given : TermHours) → StandsFor text hours
        → IsHours how place text (term.Hours given) → (second : ℤ) → IsOpen given.hours second ↔ IsOpen hours second }
    ensures fault { (how : HowRead) (place : ℕ) (text : List ℕ) (hours : Hours) (bad : TermFault) → StandsFor text hours
        → IsHoursFault how place text bad → ⊥ }
{
    one_meaning();
}
