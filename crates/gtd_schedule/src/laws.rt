//! Laws of the definitions: calls that do nothing, whose contracts are what is proved.

ghost use Rattle.std.specs.Prelude.{◌≡◌, ◌≤◌, ◌++◌, ◌∷◌, ◌↔◌, ℕ, List, Ok, flat_map, length};
ghost use Rattle.std.specs.List.{All};
ghost use Rattle.std.specs.List.Sorted.{IsPermutation};
ghost use Rattle.gtd_core.specs.declared.horizon.Horizon.{Horizon};
ghost use Rattle.gtd_records.specs.File.{IsFile};
ghost use Rattle.gtd_records.specs.Closing.{Restriction};
ghost use Rattle.gtd_report.specs.Run.{IsVehicleType};
ghost use Rattle.gtd_schedule.specs.Schedule.{IsSchedule, header_line};
ghost use Rattle.gtd_schedule.specs.Shown.{ShowsOpen};
ghost use Rattle.gtd_schedule.specs.Split.{AreRanges, AreSchedules, HaveSameRows, IsSplitAt, below, not_below, of_parts};

/// Restrictions have at most one schedule for a vehicle type and a horizon.
pub fn one_schedule()
    ensures one { (found : List Restriction) (vehicle : ℕ) (horizon : Horizon) (a b : List (List ℕ)) →
        IsSchedule found vehicle horizon a → IsSchedule found vehicle horizon b → a ≡ b }
{}

/// Restrictions have a schedule for each vehicle type and each horizon.
pub fn some_schedule()
    ensures some { (found : List Restriction) (vehicle : ℕ) (horizon : Horizon) →
        (lines : List (List ℕ)) × IsSchedule found vehicle horizon lines }
{}

/// Lines show when each element is open, as the headline says it, exactly if they are a schedule.
pub fn shown_lines()
    ensures same { (found : List Restriction) (vehicle : ℕ) (horizon : Horizon) (lines : List (List ℕ)) →
        ShowsOpen found vehicle horizon lines ↔ IsSchedule found vehicle horizon lines }
{}

/// Each line of the schedule of a record file has at most 63 bytes, its end included.
pub fn short_lines()
    ensures short { (bytes : List ℕ) (found : List Restriction) (vehicle : ℕ) (horizon : Horizon)
        (lines : List (List ℕ)) → IsFile bytes (Ok found) → IsVehicleType vehicle
        → IsSchedule found vehicle horizon lines → All (λ line. length line ≤ 63) lines }
{}

/// Schedules of ascending ranges of elements, one after the other, are one schedule: the schedule of the elements below a
/// number, followed by the lines of the schedule of the others, is the schedule of all.
pub fn schedule_in_parts()
    ensures parts { (found : List Restriction) (vehicle : ℕ) (horizon : Horizon) (k : ℕ) (a b : List (List ℕ)) →
        IsSchedule (below k found) vehicle horizon (header_line ∷ a)
        → IsSchedule (not_below k found) vehicle horizon (header_line ∷ b)
        → IsSchedule found vehicle horizon (header_line ∷ (a ++ b)) }
{}

/// A schedule does not depend on the order of the rows, or on how often a row stands in the file: if two lists have the same
/// restrictions, such as a list and a permutation of it, they have the same schedule.
pub fn schedule_in_any_order()
    ensures same { (one two : List Restriction) (vehicle : ℕ) (horizon : Horizon) (lines : List (List ℕ)) →
        HaveSameRows one two → IsSchedule one vehicle horizon lines → IsSchedule two vehicle horizon lines }
    ensures permuted { (one two : List Restriction) (vehicle : ℕ) (horizon : Horizon) (lines : List (List ℕ)) →
        IsPermutation one two → IsSchedule one vehicle horizon lines ↔ IsSchedule two vehicle horizon lines }
{}

/// Rows that are sorted by their elements and cut into ascending ranges of them, all rows of an element in one part, have one
/// schedule: the lines of the parts' schedules, one part after the other. The rows may stand in the parts in any order.
pub fn schedule_of_ranges()
    ensures two { (found one two : List Restriction) (vehicle : ℕ) (horizon : Horizon) (k : ℕ) (a b : List (List ℕ)) →
        HaveSameRows found (one ++ two) → IsSplitAt k one two → IsSchedule one vehicle horizon (header_line ∷ a)
        → IsSchedule two vehicle horizon (header_line ∷ b) → IsSchedule found vehicle horizon (header_line ∷ (a ++ b)) }
    ensures many { (found : List Restriction) (parts : List (List Restriction)) (vehicle : ℕ) (horizon : Horizon)
        (texts : List (List (List ℕ))) → HaveSameRows found (of_parts parts) → AreRanges parts
        → AreSchedules parts vehicle horizon texts
        → IsSchedule found vehicle horizon (header_line ∷ flat_map (λ lines. lines) texts) }
{}
