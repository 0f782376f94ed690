//! Laws of the definitions: a call that does nothing, whose contract is what is proved.

ghost use Rattle.std.specs.Prelude.{◌≡◌, List};
ghost use Rattle.gtd_hours_grammar2.specs.Endings.{IsFirstFault, IsLongest};
ghost use Rattle.gtd_hours_grammar2.specs.declared.class.Class.{Class};
ghost use Rattle.gtd_hours_grammar2.specs.declared.step.Wrong.{Wrong};

/// The first fault of a text is where the longest beginning of any text ends.
pub fn each_beginning_goes_on()
    ensures { (before : List Class) (c : Class) (w : Wrong) → IsFirstFault before c w → IsLongest before c }
{}
