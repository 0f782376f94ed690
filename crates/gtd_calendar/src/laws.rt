//! Laws of the calendar's definitions, over all whole numbers.

ghost use Rattle.std.specs.Prelude.{◌≡◌, ◌/◌, ◌%◌, List, Result, Ok, ℤ, ℕ, pos, ◌+ℤ◌, ◌≤ℤ◌};
ghost use Rattle.gtd_core.specs.Ranges.{bound_of};
ghost use Rattle.gtd_core.specs.declared.duration.DurationParts.{DurationParts};
ghost use Rattle.gtd_core.specs.declared.second.Sec.{Sec};
ghost use Rattle.gtd_calendar.specs.Calendar.{first_day, year_length, month_length, weekday_of, IsCalendarDay, IsDateOf};
ghost use Rattle.gtd_calendar.specs.Calendar.{IsWeekOf, AreFieldsOf};
ghost use Rattle.gtd_calendar.specs.ComputedDates.{year_of, month_of, day_of_month, week_of, week_year_of};
ghost use Rattle.gtd_core.specs.Seconds.{IsMomentSecond, day_of_second};
ghost use Rattle.gtd_calendar.specs.ComputedFields.{day_fields};
ghost use Rattle.gtd_calendar.specs.declared.day.DayFields.{DayFields};
ghost use Rattle.gtd_calendar.specs.Clock.{IsStop, IsTimeOf, second_of_day};
ghost use Rattle.gtd_calendar.specs.ComputedEnds.{stop};
ghost use Rattle.gtd_calendar.specs.Read.{IsReadableDay, IsReadDate, IsReadStamp, date_in, stamp_in};
ghost use Rattle.gtd_calendar.specs.Stamp.{IsDateText, IsStampText, date_text, stamp_text};
ghost use Rattle.gtd_calendar.specs.declared.stamp.StampFault.{StampFault};

/// 1970-01-01 is day 0, and years follow one another by their lengths, forwards and backwards.
pub fn years_follow()
    ensures epoch { first_day (pos 1970) ≡ pos 0 }
    ensures next { (y : ℤ) → first_day (y +ℤ pos 1) ≡ first_day y +ℤ pos (year_length y) }
    ensures only { (first : ℤ → ℤ) → first (pos 1970) ≡ pos 0
        → ((y : ℤ) → first (y +ℤ pos 1) ≡ first y +ℤ pos (year_length y))
        → (y : ℤ) → first y ≡ first_day y }
{}

/// Each day has exactly one date: the one that is computed.
pub fn one_date()
    ensures has { (n : ℤ) → IsDateOf n (year_of n) (month_of n) (day_of_month n) }
    ensures only { (n y : ℤ) (m d : ℕ) → IsDateOf n y m d
        → (y ≡ year_of n) × (m ≡ month_of n) × (d ≡ day_of_month n) }
{}

/// Each day is in exactly one week of ISO 8601: the one that is computed.
pub fn one_week()
    ensures has { (n : ℤ) → IsWeekOf n (week_year_of n) (week_of n) }
    ensures only { (n y : ℤ) (w : ℕ) → IsWeekOf n y w → (y ≡ week_year_of n) × (w ≡ week_of n) }
{}

/// Each day has exactly one set of fields: the one that is computed.
pub fn one_day()
    ensures has { (n : ℤ) → AreFieldsOf n (day_fields n) }
    ensures only { (n : ℤ) (f : DayFields) → AreFieldsOf n f → f ≡ day_fields n }
{}

/// Each second is at exactly one hour, minute and second of one day: those that are computed from its place in its day.
pub fn one_time()
    ensures has { (s : ℤ) → IsTimeOf s (day_of_second s) (second_of_day s / 3600) (second_of_day s / 60 % 60)
        (second_of_day s % 60) }
    ensures only { (s n : ℤ) (hour minute second : ℕ) → IsTimeOf s n hour minute second → (n ≡ day_of_second s)
        × (hour ≡ second_of_day s / 3600) × (minute ≡ second_of_day s / 60 % 60)
        × (second ≡ second_of_day s % 60) }
{}

/// Each stretch has exactly one end: the one that is computed.
pub fn one_end()
    ensures has { (p : DurationParts) (b : ℤ) → IsStop p b (stop p b) }
    ensures only { (p : DurationParts) (b e : ℤ) → IsStop p b e → e ≡ stop p b }
{}

/// A stretch ends at or after its first second, and is never longer than its bound.
pub fn stretch_within_bound()
    ensures later { (p : DurationParts) (b : ℤ) → b ≤ℤ stop p b }
    ensures within { (p : DurationParts) (b : ℤ) → stop p b ≤ℤ (b +ℤ pos (bound_of p)) }
{}

/// The calendar repeats after 400 years, which are 146,097 days: the date and the week except for their years, the
/// weekday and the lengths of months, and so the places in them. A stretch that begins 146,097 days later ends 146,097
/// days later.
pub fn calendar_repeats()
    ensures dates { (n y : ℤ) (m d : ℕ) → IsDateOf n y m d
        → IsDateOf (n +ℤ pos 146_097) (y +ℤ pos 400) m d }
    ensures months { (y : ℤ) (m : ℕ) → month_length (y +ℤ pos 400) m ≡ month_length y m }
    ensures weekdays { (n : ℤ) → weekday_of (n +ℤ pos 146_097) ≡ weekday_of n }
    ensures weeks { (n y : ℤ) (w : ℕ) → IsWeekOf n y w
        → IsWeekOf (n +ℤ pos 146_097) (y +ℤ pos 400) w }
    ensures stretches { (p : DurationParts) (b : ℤ)
        → stop p (b +ℤ pos 12_622_780_800) ≡ stop p b +ℤ pos 12_622_780_800 }
{}

/// Each day and each second of the calendar has exactly one text: the one that is computed.
pub fn one_text()
    ensures date { (n : ℤ) → IsCalendarDay n → IsDateText n (date_text n) }
    ensures date_only { (n : ℤ) (text : List ℕ) → IsDateText n text → text ≡ date_text n }
    ensures stamp { (s : ℤ) → IsCalendarDay (day_of_second s) → IsStampText s (stamp_text s) }
    ensures stamp_only { (s : ℤ) (text : List ℕ) → IsStampText s text → text ≡ stamp_text s }
{}

/// A text is read in exactly one way: the one that is computed.
pub fn one_reading()
    ensures date { (text : List ℕ) → IsReadDate text (date_in text) }
    ensures date_only { (text : List ℕ) (r : Result ℤ StampFault) → IsReadDate text r → r ≡ date_in text }
    ensures stamp { (text : List ℕ) → IsReadStamp text (stamp_in text) }
    ensures stamp_only { (text : List ℕ) (r : Result Sec StampFault) → IsReadStamp text r → r ≡ stamp_in text }
{}

/// The text of a day or a second in the range that is read is read back as that day or second.
pub fn read_again()
    ensures date { (n : ℤ) → IsReadableDay n → date_in (date_text n) ≡ Ok n }
    ensures stamp { (s : ℤ) → IsMomentSecond s → stamp_in (stamp_text s) ≡ Ok (record { 0 = s }) }
{}
