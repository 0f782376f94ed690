//! Laws of the definitions: calls that do nothing, whose contracts are what is proved.

ghost use Rattle.std.specs.Prelude.{◌≡◌, ℕ, List};
ghost use Rattle.gtd_hours_warnings.specs.WholeDays.{ArePlainDays, AreWholeDays};

use gtd_hours_holiday_rules::laws::one_holiday_text;
use gtd_hours_moments::laws::{one_moment_text, one_reading};

/// A text has one list of places where rules begin that say days alone, and behind which a comma begins another rule.
pub fn one_list_of_whole_days()
    ensures plain { (text : List ℕ) (one other : List ℕ) → ArePlainDays text one → ArePlainDays text other → one ≡ other }
    ensures all { (text : List ℕ) (one other : List ℕ) → AreWholeDays text one → AreWholeDays text other → one ≡ other }
{
    one_holiday_text();
    one_moment_text();
    one_reading();
}
