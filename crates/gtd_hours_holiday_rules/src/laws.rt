//! Laws of the definitions: calls that do nothing, whose contracts are what is proved.

ghost use Rattle.std.specs.Prelude.{◌≡◌, ℕ, List, length, map};
ghost use Rattle.gtd_hours_items.specs.Comments.{IsBadPlace};
ghost use Rattle.gtd_hours_holiday_rules.specs.Reading.{IsHolidayText};
ghost use Rattle.gtd_hours_holiday_rules.specs.Rules.{HavePlaces, said_by};
ghost use Rattle.gtd_hours_holiday_rules.specs.declared.text.HolidayText.{HolidayText};

use gtd_hours_moving::laws::one_moving_front;
use gtd_hours_tokens::laws::one_reading;

/// A text has one checked text at most, of its length, one list of rules, with a place for each of their holidays, all of these
/// in the order of each rule, and all its ranges that move and days of Easter in the list of its month days; one way in which
/// faults are told, and one list of rules that hold all day; and no byte then with which no token begins, nor a comment that is
/// not whole.
pub fn one_holiday_text()
    ensures checked { (text : List ℕ) (one other : HolidayText) → IsHolidayText text one → IsHolidayText text other
        → one.checked.items ≡ other.checked.items }
    ensures rules { (text : List ℕ) (one other : HolidayText) → IsHolidayText text one → IsHolidayText text other
        → map said_by one.rules.items ≡ map said_by other.rules.items }
    ensures told { (text : List ℕ) (one other : HolidayText) → IsHolidayText text one → IsHolidayText text other
        → one.told.items ≡ other.told.items }
    ensures whole_days { (text : List ℕ) (one other : HolidayText) → IsHolidayText text one → IsHolidayText text other
        → one.whole_days.items ≡ other.whole_days.items }
    ensures length { (text : List ℕ) (read : HolidayText) → IsHolidayText text read
        → length read.checked.items ≡ length text }
    ensures places { (text : List ℕ) (read : HolidayText) → IsHolidayText text read
        → HavePlaces (map said_by read.rules.items) }
    ensures apart { (text : List ℕ) (read : HolidayText) (place : ℕ) → IsHolidayText text read → IsBadPlace text place → ⊥ }
{
    one_reading();
    one_moving_front();
}
