//! Laws of the definitions: calls that do nothing, whose contracts are what is proved.

ghost use Rattle.std.specs.Prelude.{◌≡◌, ◌≤◌, ◌<◌, ◌+◌, ◌++◌, ◌∷◌, ℕ, List, Some, None};
ghost use Rattle.gtd_hours.specs.Ranges.{end_of};
ghost use Rattle.gtd_hours_parts.specs.Pieces.{AreWrittenTimes};
ghost use Rattle.gtd_hours_parts.specs.Times.{minute_of};
ghost use Rattle.gtd_hours_times.specs.declared.moment.TimeForm.{TimeForm};
ghost use Rattle.gtd_hours_moments.specs.Meaning.{EachForm, IsAmong, IsDaily, IsOfDay, IsPlainRange, IsPoint};
ghost use Rattle.gtd_hours_moments.specs.Meaning.{time_at, time_text};
ghost use Rattle.gtd_hours_moments.specs.Minutes.{lasting};
ghost use Rattle.gtd_hours_moments.specs.Needs.{first_need, too_long};
ghost use Rattle.gtd_hours_moments.specs.Plain.{range_text};
ghost use Rattle.gtd_hours_moments.specs.Ranges.{step_ranges};
ghost use Rattle.gtd_hours_moments.specs.Reading.{IsMomentText, IsPlainText};
ghost use Rattle.gtd_hours_moments.specs.declared.clocks.Clocks.{Clocks};
ghost use Rattle.gtd_hours_moments.specs.declared.placed.PlacedText.{PlacedText};
ghost use Rattle.gtd_hours_moments.specs.declared.ranges.MinuteRange.{MinuteRange};
ghost use Rattle.gtd_hours_moments.specs.declared.text.MomentText.{MomentText};

pub use gtd_hours_times::laws::one_reading;

/// A text has one checked text at most, and one list of forms, of which another one breaks off or none; with some options, one
/// plain text at most.
pub fn one_moment_text()
    ensures checked { (text : List ℕ) (one other : MomentText) → IsMomentText text one → IsMomentText text other
        → one.checked.text.items ≡ other.checked.text.items }
    ensures places { (text : List ℕ) (one other : MomentText) → IsMomentText text one → IsMomentText text other
        → one.checked.places.items ≡ other.checked.places.items }
    ensures told { (text : List ℕ) (one other : MomentText) → IsMomentText text one → IsMomentText text other
        → one.told.items ≡ other.told.items }
    ensures forms { (text : List ℕ) (one other : MomentText) → IsMomentText text one → IsMomentText text other
        → one.forms.items ≡ other.forms.items }
    ensures breaks { (text : List ℕ) (one other : MomentText) → IsMomentText text one → IsMomentText text other
        → one.breaks_off ≡ other.breaks_off }
    ensures plain { (clocks : Clocks) (text : List ℕ) (one other : PlacedText) → IsPlainText clocks text one
        → IsPlainText clocks text other → one.text.items ≡ other.text.items }
{
    one_reading();
}

/// Points from one minute up to another are those that are some steps after the first, not after the second, and before 24:00,
/// and no others.
pub fn points_are_steps()
    ensures points { (begin last step point : ℕ) (range : MinuteRange) → 1 ≤ step
        → IsAmong range (step_ranges begin last step (Some point)) → IsPoint begin (lasting begin last) step point range }
    ensures all { (begin last step point : ℕ) (range : MinuteRange) → 1 ≤ step
        → IsPoint begin (lasting begin last) step point range → IsAmong range (step_ranges begin last step (Some point)) }
{}

/// Where the forms need nothing and none is too long, each that begins before 24:00 stands for some ranges, which begin before
/// 24:00 and last 1 minute to 24 hours. Ranges of times need nothing.
pub fn forms_are_ranges()
    ensures daily { (forms : List TimeForm) (clocks : Clocks) → first_need forms clocks ≡ None → too_long forms clocks ≡ None
        → EachForm (IsDaily clocks) forms }
    ensures plain { (forms : List TimeForm) (clocks : Clocks) → EachForm IsPlainRange forms → first_need forms clocks ≡ None }
{}

/// What stands for a range in a plain text are two times that plain hours have as a range, of the same minutes. A range of two
/// moments ends when the range of their times in plain hours does.
pub fn ranges_are_written()
    ensures text { (range : MinuteRange) → range_text range
        ≡ time_text (time_at range.begin) ++ 45 ∷ time_text (time_at range.end) }
    ensures fits { (range : MinuteRange) → IsOfDay range → AreWrittenTimes (time_at range.begin) (time_at range.end) }
    ensures begin { (range : MinuteRange) → IsOfDay range → minute_of (time_at range.begin) ≡ range.begin }
    ensures end { (range : MinuteRange) → IsOfDay range → minute_of (time_at range.end) ≡ range.end }
    ensures lasts { (begin end : ℕ) → begin < 1440 → begin + lasting begin end ≡ end_of begin end }
{}
