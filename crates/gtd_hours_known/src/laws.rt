//! Laws of the definitions: calls that do nothing, whose contracts are what is proved.

ghost use Rattle.std.specs.Prelude.{◌≡◌, ◌↔◌, ◌⊎◌, ◌∷◌, ◌++◌, [], Bool, true, false, List, None, ℕ, ℤ};
ghost use Rattle.gtd_calendar.specs.Calendar.{AreFieldsOf};
ghost use Rattle.gtd_calendar.specs.declared.day.DayFields.{DayFields};
ghost use Rattle.gtd_hours.specs.Opening.{EachHolds, IsOpen, Matches, SomeHolds};
ghost use Rattle.gtd_hours.specs.Writable.{selectors};
ghost use Rattle.gtd_hours.specs.declared.hours.Hours.{Hours};
ghost use Rattle.gtd_hours.specs.declared.hours.Kind.{Kind};
ghost use Rattle.gtd_hours.specs.declared.hours.Link.{Link};
ghost use Rattle.gtd_hours.specs.declared.hours.Rule.{Rule};
ghost use Rattle.gtd_hours.specs.declared.hours.Selector.{Selector};
ghost use Rattle.gtd_hours_days.specs.Listed.{SomeListed};
ghost use Rattle.gtd_hours_days.specs.declared.listed.Listed.{Listed};
ghost use Rattle.gtd_hours_holidays.specs.declared.holidays.Holidays.{Holidays};
ghost use Rattle.gtd_hours_holidays.specs.declared.known_years.KnownYears.{KnownYears};
ghost use Rattle.gtd_hours_holiday_rules.specs.Reading.{IsHolidayText};
ghost use Rattle.gtd_hours_holiday_rules.specs.declared.text.HolidayText.{HolidayText};
ghost use Rattle.gtd_hours_loose.specs.Manners.{IsReadingIn};
ghost use Rattle.gtd_hours_loose.specs.Reading.{IsStrict};
ghost use Rattle.gtd_hours_loose.specs.declared.manner.Manner.{Manner};
ghost use Rattle.gtd_hours_loose.specs.declared.reader.LooseHours.{LooseHours};
ghost use Rattle.gtd_hours_known.specs.HolidayDays.{AreDaysOf};
ghost use Rattle.gtd_hours_known.specs.Joining.{IsWithDays, has_weekdays, names_weekdays};
ghost use Rattle.gtd_hours_known.specs.Manners.{IsKnownReadingIn};
ghost use Rattle.gtd_hours_known.specs.Marks.{HasMarks};
ghost use Rattle.gtd_hours_known.specs.Reading.{IsKnown};
ghost use Rattle.gtd_hours_known.specs.Said.{AreOwnRules, IsSaidOpen};
ghost use Rattle.gtd_hours_known.specs.declared.known.Known.{Known};
ghost use Rattle.gtd_hours_known.specs.declared.known.KnownHours.{KnownHours};

/// A day matches a rule whose holidays lead exactly if it matches the rule without them, and one of the holidays holds on it. So
/// it is with all holidays of a rule without weekdays. With weekdays, other holidays are days beside these: of all other kinds
/// one selector must hold, and of the weekdays or the holidays.
pub fn days_of_holidays()
    ensures led { (table : Holidays) (years : KnownYears) (listed : List Listed) (days : List Selector) (by : Link)
        (order : List Bool) (rule made : Rule) → AreDaysOf table years listed days → IsWithDays by true order days rule made
        → (n : ℤ) → Matches made.kinds.items n ↔ (Matches rule.kinds.items n × SomeListed table.rows.items years listed n) }
    ensures alone { (table : Holidays) (years : KnownYears) (listed : List Listed) (days : List Selector) (by : Link)
        (is_led : Bool) (order : List Bool) (rule made : Rule) → has_weekdays (selectors rule.kinds.items) ≡ false
        → AreDaysOf table years listed days → IsWithDays by is_led order days rule made
        → (n : ℤ) → Matches made.kinds.items n ↔ (Matches rule.kinds.items n × SomeListed table.rows.items years listed n) }
    ensures joined { (table : Holidays) (years : KnownYears) (listed : List Listed) (days : List Selector) (by : Link)
        (order : List Bool) (rule made : Rule) (others : List Kind) (weekdays : Kind) → rule.kinds.items ≡ others ++ weekdays ∷ []
        → names_weekdays weekdays.selectors.items ≡ true → AreDaysOf table years listed days
        → IsWithDays by false order days rule made
        → (n : ℤ) → Matches made.kinds.items n ↔ ((f : DayFields) × AreFieldsOf n f × EachHolds others n f
        × (SomeHolds weekdays.selectors.items n f ⊎ SomeListed table.rows.items years listed n)) }
{}

/// Hours that are read of a text without holidays, comments, unknown and fallback rules are read so whatever is known of
/// holidays. Of plain hours no others are read. Hours without a first holiday are read so whatever is known.
pub fn plain_readings()
    ensures plain { (manner : Manner) (known : Known) (text : List ℕ) (read : LooseHours) (made : KnownHours)
        → IsReadingIn manner text read → made.hours ≡ read.hours → made.form ≡ read.form → HasMarks [] made
        → IsKnownReadingIn manner known text made }
    ensures only { (manner : Manner) (known : Known) (text : List ℕ) (read : KnownHours) → IsStrict text
        → IsKnownReadingIn manner known text read → IsReadingIn manner text (record { hours = read.hours; form = read.form }) }
    ensures needless { (manner : Manner) (known other : Known) (text : List ℕ) (read : KnownHours)
        → IsKnownReadingIn manner known text read → read.first_holiday ≡ None → IsKnownReadingIn manner other text read }
{}

/// Hours that are read of a text with holidays, comments, unknown and fallback rules are open at a second exactly if its rules
/// say so, with Easter and the holidays of the table in the years: for every second over all time, and whichever own rules its
/// rules have.
pub fn said_by_rules()
    ensures seconds { (known : Known) (text : List ℕ) (found : HolidayText) (hours : Hours) (own : List Rule)
        → IsHolidayText text found → IsKnown known found hours → AreOwnRules known found.rules.items own
        → (second : ℤ) → IsOpen hours second ↔ IsSaidOpen known found.rules.items own second }
{}
