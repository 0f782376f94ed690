//! From the words of a command line to a plan.

ghost use Rattle.std.specs.Prelude.{◌≡◌, ◌≢◌, ◌⊎◌, IfErr, IfOk, MatchResult, map, string_bytes};
ghost use Rattle.gtd_core.specs.declared.fault.TextFault.{TextFault};
ghost use Rattle.gtd_tool.specs.Asked.{Asked};
ghost use Rattle.gtd_tool.specs.Plans.{AsksFor, asked_by};
ghost use Rattle.gtd_tool.specs.Refusals.{IsRefusalOf};

use crate::arguments::plan_words;
use crate::plans::Plan;
use crate::refusal::Refusal;
use gtd_core::{Fault, TextFault};
use std::alloc::Global;

/// What the words after the program's name ask for, or their first refusal.
///
/// In order: `Usage` if they are not a command and as many words as it takes, or if a word for a number or a direction
/// does not stand for one; then the first fault of the words for a domain (`Text`), a moment (`Moment`) and a date
/// (`Date`), from left to right; then `Horizon` if the days that are asked for are not a horizon. If memory was refused,
/// `Memory` is the answer in place of these. A vehicle type above 255 is taken as 255 and a year above 65,535 as 65,535;
/// [`perform`](crate::perform) checks their ranges. The file is not opened.
pub fn plan(alloc: Global, words: Vec<String>) -> Result<Plan, Refusal>
    // The plan is what the words ask for.
    ensures asked { IfOk result (λ plan. AsksFor (map string_bytes words.items) (asked_by plan)) }
    // What the words ask for is planned, unless memory is refused.
    ensures only { (asked : Asked) → AsksFor (map string_bytes words.items) asked
        → MatchResult result (λ plan. asked_by plan ≡ asked) (λ r. r ≡ Refusal.Memory) }
    // The refusal is the first refusal of the words, unless memory was refused.
    ensures refused { IfErr result (λ r.
        (r ≡ Refusal.Memory) ⊎ IsRefusalOf (map string_bytes words.items) r) }
    // Words that have a refusal are refused with it, unless memory is refused.
    ensures first { (refusal : Refusal) → IsRefusalOf (map string_bytes words.items) refusal
        → MatchResult result (λ plan. ⊥) (λ r. (r ≡ Refusal.Memory) ⊎ (r ≡ refusal)) }
    // A refusal of memory while a domain is read is not a fault of its text.
    ensures memory { IfErr result (λ r. (fault : TextFault)
        → r ≡ Refusal.Text fault → fault.kind ≢ Fault.NoMemory) }
{
    plan_words(alloc, words.as_slice())
}
