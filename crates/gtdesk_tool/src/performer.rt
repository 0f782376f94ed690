//! Carrying a plan out.

ghost use Rattle.std.specs.Prelude.{◌≡◌, ◌<◌};
ghost use Rattle.std.proofs.Props.{props};
ghost use Rattle.gtd_core.specs.Parts.{domain_tree};
ghost use Rattle.gtd_core.specs.Seconds.{IsHorizonSecond};
ghost use Rattle.gtd_words.specs.Words.{words_in};
ghost use Rattle.gtdesk_tool.specs.GivenOptions.{AreOptionsIn, options_of};
ghost use Rattle.gtdesk_tool.specs.Running.{HasRunPlan, IsQuiet, PutText, ReadsNone, RanFaults, failures_after_read};
ghost use Rattle.gtdesk_tool.specs.Running.{failures_after_write, listing_outcome, outcome_of, refusal_for};
ghost use Rattle.gtdesk_tool.specs.Telling.{telling};

use crate::domain_hours::print_hours_of;
use crate::ending::Ending;
use crate::hours_records::{RecordsTurn, print_records};
use crate::loose_hours::manner_of;
use crate::mended::print_mended;
use crate::mended_hours::print_mended_hours;
use crate::now::{NowTurn, form_of, print_now};
use crate::picture::{print_domain, print_picture};
use crate::plan_options::PlanOptions;
use crate::refusal::RunRefusal;
use crate::repeats::print_repeats;
use crate::same::print_comparison;
use crate::text_hours::{HoursTurn, print_hours};
use gtd_devices::{Input, Output};
use gtd_faults::{ListFault, run_faults};
use gtd_hours_options::HoursReading;
use gtd_now::Asked;
use gtd_records::RecordFault;
use gtd_report::{Progress, RunFault, finish, put_line};
use gtd_warnings::Asked as Warned;
use gtd_words::write_words_in;
use gtdesk_plans::{OnePlan, WordsPlan};
use gtdesk_words::{Reason, WordFault, WordName};
use std::alloc::Global;

/// The refusal for a fault of a run.
pub(crate) fn run_refusal(fault: RunFault) -> RunRefusal
    ensures value { result ≡ refusal_for fault }
{
    match fault {
        RunFault::Records(why) => match why {
            RecordFault::NoMemory => RunRefusal::Memory,
            _ => RunRefusal::Records(why),
        },
        RunFault::WriteFault { .. } => RunRefusal::Write,
        RunFault::NoMemory { .. } => RunRefusal::Memory,
        RunFault::VehicleRange => RunRefusal::Word(WordFault {
            word: WordName::Vehicle,
            why: Reason::Vehicle,
        }),
        RunFault::YearRange => RunRefusal::Word(WordFault {
            word: WordName::Year,
            why: Reason::Year,
        }),
        RunFault::NoElement => RunRefusal::NoElement,
    }
}

/// The answer of a command, from that of its run.
pub(crate) fn outcome(answer: Result<u64, RunFault>) -> Result<Ending, RunRefusal>
    ensures value { result ≡ outcome_of answer }
{
    match answer {
        Ok(_) => Ok(Ending::Done),
        Err(fault) => Err(run_refusal(fault)),
    }
}

// The answer of `faults`, from that of its list.
fn listing_outcome(answer: Result<usize, ListFault>) -> Result<Ending, RunRefusal>
    ensures value { result ≡ listing_outcome answer }
{
    match answer {
        Ok(0) => Ok(Ending::Done),
        Ok(_) => Ok(Ending::FaultsListed),
        Err(ListFault::ReadFault) => Err(RunRefusal::Records(RecordFault::ReadFault)),
        Err(ListFault::Endless) => Err(RunRefusal::Records(RecordFault::Endless)),
        Err(ListFault::WriteFault) => Err(RunRefusal::Write),
        Err(ListFault::NoMemory) => Err(RunRefusal::Memory),
    }
}

// Lists the faults of the record file with this path, whose bytes the input brings.
fn list_faults<I: Input, O: Output>(
    alloc: Global,
    input: &mut I,
    output: &mut O,
    path: &str,
    asked: &Option<Warned>,
) -> Result<Ending, RunRefusal>
    requires readable { I.failure_count input.old < u64.MAX }
    requires writable { O.failure_count output.old < u64.MAX }
    ensures ran { RanFaults path.now asked.now (I.to_come input.old) (O.taken output.old) (O.taken output.new)
        (I.may_fall_silent input.old) (O.is_ended output.new) result }
    ensures read_faults { I.failure_count input.new
        ≡ failures_after_read result (I.failure_count input.old) }
    ensures write_faults { O.failure_count output.new
        ≡ failures_after_write result (O.failure_count output.old) }
{
    listing_outcome(run_faults(alloc, input, output, path, asked))
}

/// Puts a text, and ends the output.
pub(crate) fn print_text<O: Output>(output: &mut O, text: &str) -> Result<Ending, RunRefusal>
    requires writable { O.failure_count output.old < u64.MAX }
    ensures put { PutText (λ t. t ≡ text.now) (λ r. ⊥) (O.taken output.old) (O.taken output.new)
        (O.is_ended output.new) result }
    ensures write_faults { O.failure_count output.new
        ≡ failures_after_write result (O.failure_count output.old) }
{
    print_bytes(output, text.as_bytes())
}

/// The same of the bytes of a text.
pub(crate) fn print_bytes<O: Output>(output: &mut O, text: &[u8]) -> Result<Ending, RunRefusal>
    requires writable { O.failure_count output.old < u64.MAX }
    ensures put { PutText (λ t. t ≡ text.now) (λ r. ⊥) (O.taken output.old) (O.taken output.new)
        (O.is_ended output.new) result }
    ensures write_faults { O.failure_count output.new
        ≡ failures_after_write result (O.failure_count output.old) }
{
    let mut progress = Progress::new();
    match put_line(output, &mut progress, text) {
        Ok(()) => match finish(output) {
            Ok(()) => Ok(Ending::Done),
            Err(_) => Err(RunRefusal::Write),
        },
        Err(_) => Err(RunRefusal::Write),
    }
}

// Puts the words of a domain, and ends the output.
fn print_words<O: Output>(
    alloc: Global,
    output: &mut O,
    plan: &WordsPlan,
) -> Result<Ending, RunRefusal>
    requires writable { O.failure_count output.old < u64.MAX }
    ensures put { PutText (λ t. t ≡ words_in plan.now.language (domain_tree plan.now.domain)) (λ r. r ≡ RunRefusal.Memory)
        (O.taken output.old) (O.taken output.new) (O.is_ended output.new) result }
    ensures write_faults { O.failure_count output.new
        ≡ failures_after_write result (O.failure_count output.old) }
{
    match write_words_in(alloc, plan.language, &plan.domain) {
        Ok(text) => print_text(output, text.as_str()),
        Err(_) => Err(RunRefusal::Memory),
    }
}

/// A plan, the path of the one of its files whose bytes the input brings, and the options with which its texts are read.
#[derive(Clone, Copy)]
pub struct Turn<'a> {
    /// The plan.
    pub plan: &'a OnePlan,
    /// The path; any, if the plan reads no file.
    pub path: &'a str,
    /// The options; any, if the file is none of opening hours.
    pub options: &'a PlanOptions<'a>,
    // For a file of opening hours, the plan gives these options. If it names a table of holidays, their table was read from that
    // path; else they have none.
    pub ghost given: { AreOptionsIn plan.now options.now } by { Prim.hlevel props },
}

/// Carries a plan out for one of its files, whose bytes the input brings: puts what it asks for, and ends the output. If the
/// plan reads none, nothing is pulled. Four plans put something to the output for errors: `now` a note, if no row of the file
/// is for the vehicle type; `records` warnings of a file of hours, or all its faults; `mend` what it changed; and `hours`
/// warnings of its text, or all faults of its table of holidays. If that output fails, a first part of this stands, and the
/// answer is the same.
///
/// `Records` is the file's first fault, or why the input failed; `NoHours` is answered if no opening hours are found for a
/// domain, and `NoDomain` if a text is no opening hours or the domain of these is too large. `Write` is answered exactly if the
/// output failed, which has then taken a first part of what was to be put; `Memory` if memory was refused. Before the call, the
/// failures of each device must be below `u64::MAX`.
pub fn perform<I: Input, O: Output, E: Output>(
    alloc: Global,
    turn: Turn<'_>,
    input: &mut I,
    output: &mut O,
    errors: &mut E,
) -> Result<Ending, RunRefusal>
    requires readable { I.failure_count input.old < u64.MAX }
    requires writable { O.failure_count output.old < u64.MAX }
    requires tellable { E.failure_count errors.old < u64.MAX }
    // What the output took, by the answer; of some plans, what the output for errors took, too.
    ensures ran { HasRunPlan turn.entry.plan.now (options_of turn.entry.options.now) turn.entry.path.now (I.to_come input.old)
        (O.taken output.old) (O.taken output.new) (I.may_fall_silent input.old) (O.is_ended output.new)
        (telling (E.taken errors.old) (E.taken errors.new) (E.failure_count errors.old) (E.failure_count errors.new)) result }
    // Each failure of the input or of the output is told, and nothing else is told as one.
    ensures read_faults { I.failure_count input.new
        ≡ failures_after_read result (I.failure_count input.old) }
    ensures write_faults { O.failure_count output.new
        ≡ failures_after_write result (O.failure_count output.old) }
    // A plan without a file leaves the input as it was, and a quiet plan the output for errors.
    ensures untouched { ReadsNone turn.entry.plan.now → input.new ≡ input.old }
    ensures quiet { IsQuiet turn.entry.plan.now → errors.new ≡ errors.old }
{
    let path = turn.path;
    match turn.plan {
        OnePlan::Now(plan) => {
            let asked = Asked {
                vehicle: plan.view.vehicle,
                second: plan.moment.second,
                closed: plan.view.closed,
                elements: plan.view.elements.as_slice(),
                form: form_of(&plan.view),
                why: plan.view.why,
            };
            print_now(alloc, input, output, errors, NowTurn { path, asked })
        }
        OnePlan::Faults(plan) => list_faults(alloc, input, output, path, &plan.asked),
        OnePlan::Picture(plan) => print_picture(
            alloc,
            input,
            output,
            plan.title.as_str(),
            plan.subject,
        ),
        OnePlan::DomainPicture(plan) => print_domain(
            alloc,
            output,
            &plan.domain,
            plan.title.as_str(),
            plan.year,
        ),
        OnePlan::Words(plan) => print_words(alloc, output, plan),
        OnePlan::HoursOf(domain) => print_hours_of(alloc, output, domain),
        OnePlan::DomainOf(plan) => {
            print_hours(alloc, input, output, errors, HoursTurn { path, plan })
        }
        OnePlan::Same(plan) => {
            print_comparison(alloc, output, &plan.first, &plan.second, plan.from)
        }
        OnePlan::SameRows(_) => print_repeats(alloc, input, output, path),
        OnePlan::Records(plan) => {
            let reading = HoursReading {
                manner: manner_of(plan.options.strict, plan.options.names),
                options: &turn.options.options,
            };
            print_records(alloc, input, output, errors, RecordsTurn { path, reading })
        }
        OnePlan::Mend(_) => print_mended(alloc, input, output, errors, path),
        OnePlan::MendHours(plan) => {
            print_mended_hours(alloc, output, plan.text.as_str(), plan.names)
        }
        OnePlan::Show(text) => print_text(output, text.as_str()),
    }
}
