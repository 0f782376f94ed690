//! Laws of the definitions: calls that do nothing, whose contracts are what is proved.

ghost use Rattle.std.specs.Prelude.{◌≡◌, ◌≤ℤ◌, ℕ, ℤ, pos};
ghost use Rattle.gtd_calendar.specs.Calendar.{day_number, weekday_of};
ghost use Rattle.gtd_hours_holidays.specs.Easter.{IsEaster};

/// Easter Sunday is a Sunday, from 22 March to 25 April.
pub fn easter_is_a_sunday()
    ensures sunday { (year : ℕ) (n : ℤ) → IsEaster year n → weekday_of n ≡ 1 }
    ensures between { (year : ℕ) (n : ℤ) → IsEaster year n
        → (day_number (pos year) 3 22 ≤ℤ n) × (n ≤ℤ day_number (pos year) 4 25) }
{}
