//! Laws of the definitions: a call that does nothing, whose contract is what is proved.

ghost use Rattle.std.specs.Prelude.{◌≡◌, ℕ, List, Err};
ghost use Rattle.gtd_hours_tokens2.specs.declared.token.DayNames.{DayNames};
ghost use Rattle.gtd_hours_reading2.specs.Longest.{IsWhyUnread};
ghost use Rattle.gtd_hours_reading2.specs.Reading.{read};
ghost use Rattle.gtd_hours_reading2.specs.declared.fault.HoursFault.{HoursFault};

use gtd_hours_grammar2::each_beginning_goes_on;

/// A first fault of a text is one of its tokens, a number out of range, or where the longest beginning of any text ends: the
/// tokens before it can go on, and with the token that is there nothing can.
pub fn each_reading_goes_on()
    ensures { (names : DayNames) (text : List ℕ) (why : HoursFault) → read names text ≡ Err why → IsWhyUnread names text why }
{
    each_beginning_goes_on();
}
