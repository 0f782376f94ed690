//! Laws of starts and basic domains, over all whole seconds.

ghost use Rattle.std.specs.Prelude.{◌≡◌, ◌≤◌, ◌≤ℤ◌, ◌<ℤ◌, ℤ, pos, ◌+ℤ◌, ◌↔◌, None, IsTrue};
ghost use Rattle.gtd_core.specs.declared.domain.Basic.{Basic};
ghost use Rattle.gtd_core.specs.declared.horizon.Horizon.{Horizon};
ghost use Rattle.gtd_core.specs.Parts.{start_parts};
ghost use Rattle.gtd_core.specs.Whole.{to_day};
ghost use Rattle.gtd_core.specs.declared.start.StartParts.{StartParts};
ghost use Rattle.gtd_core.specs.declared.duration.DurationParts.{DurationParts};
ghost use Rattle.gtd_core.specs.Seconds.{day_of_second};
ghost use Rattle.gtd_recur.specs.Ascending.{IsAscending, Has};
ghost use Rattle.gtd_recur.specs.Begins.{begins};
ghost use Rattle.gtd_recur.specs.ComputedStretches.{InComputedStretches};
ghost use Rattle.gtd_recur.specs.FieldMatches.{MatchesFields};
ghost use Rattle.gtd_recur.specs.Membership.{Matches, InStretches};
ghost use Rattle.gtd_recur.specs.Periods.{period_seconds, RepeatsAfter};
ghost use Rattle.gtd_recur.specs.declared.period.Period.{Period};
ghost use Rattle.gtd_recur.specs.Work.{starts_in, window_begin, work_of};

/// A start that gives no year matches a second exactly if it matches the one 146,097 days later.
pub fn starts_repeat()
    ensures repeats { (p : StartParts) (s : ℤ) → p.year ≡ None
        → begins p (s +ℤ pos 12_622_780_800) ≡ begins p s }
{}

/// A basic domain whose start gives no year contains a second exactly if it contains the one 146,097 days later.
pub fn domains_repeat()
    ensures repeats { (p : StartParts) (q : DurationParts) (s : ℤ) → p.year ≡ None
        → InStretches p q s ↔ InStretches p q (s +ℤ pos 12_622_780_800) }
{}

/// A basic domain whose fields let it repeat after a period contains a second exactly if it contains the one a period
/// later.
pub fn domains_repeat_after()
    ensures repeats { (period : Period) (p : StartParts) (q : DurationParts) (s : ℤ)
        → RepeatsAfter (period_seconds period) p q
        → InStretches p q s ↔ InStretches p q (s +ℤ period_seconds period) }
{}

/// The starts of a basic domain over a horizon come in order. They are exactly the seconds that its start matches on
/// the days of the horizon and of the lookback before it.
pub fn starts_of_a_window()
    ensures order { (d : Basic) (h : Horizon) → IsAscending (starts_in d h) }
    ensures members { (d : Basic) (h : Horizon) (b : ℤ) → Has (starts_in d h) b
        ↔ (IsTrue (begins (start_parts d.start) b)
        × (window_begin d h ≤ℤ day_of_second b) × (day_of_second b <ℤ to_day h)) }
{}

/// The work of a basic domain is at most 20,000,000,000: 182,698 days, and 86,400 starts on each.
pub fn work_is_bounded()
    ensures most { (d : Basic) (h : Horizon) → work_of d h ≤ 20_000_000_000 }
{}

/// A start matches a second exactly if each given field holds at it, and each level finer than all given ones is at its
/// least: by dates, and by the fields that the calendar gives of days.
pub fn matching()
    ensures matches { (p : StartParts) (s : ℤ) → IsTrue (begins p s) ↔ Matches p s }
    ensures fields { (p : StartParts) (s : ℤ) → Matches p s ↔ MatchesFields p s }
{}

/// A second is in a basic domain exactly if the start begins at that second or an earlier one from which the stretch
/// ends after it, as both are computed.
pub fn membership()
    ensures computed { (p : StartParts) (q : DurationParts) (s : ℤ) → InStretches p q s ↔ InComputedStretches p q s }
{}
