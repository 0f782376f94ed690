//! Laws of the definitions: calls that do nothing, whose contracts are what is proved.

ghost use Rattle.std.specs.Prelude.{◌≡◌, true, IfSome};
ghost use Rattle.gtd_core.specs.Ranges.{IsDuration, IsStart};
ghost use Rattle.gtd_core.specs.declared.duration.DurationParts.{DurationParts};
ghost use Rattle.gtd_core.specs.declared.start.StartParts.{StartParts};
ghost use Rattle.gtd_ends.specs.Endings.{ending, is_all_day};
ghost use Rattle.gtd_ends.specs.Ends.{AllEndAt, AllLastTheDay, IsEnd};

/// The end that is found is that of each stretch, and its numbers are in their ranges. Where the stretches are whole days that
/// the start names, the day with which each begins is all of it.
pub fn ends_are_right()
    ensures in_range { (start : StartParts) (duration : DurationParts) → IsStart start → IsDuration duration
        → IfSome (ending start duration) IsEnd }
    ensures each { (start : StartParts) (duration : DurationParts) → IsStart start → IsDuration duration
        → IfSome (ending start duration) (λ end. AllEndAt start duration end) }
    ensures whole_day { (start : StartParts) (duration : DurationParts) → is_all_day start duration ≡ true
        → AllLastTheDay start duration }
{}
