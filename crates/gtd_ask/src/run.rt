//! The run that answers questions.

ghost use Rattle.std.specs.Prelude.{◌≡◌, ◌<◌, ◌≤◌, None, IsErrOf, IsTrue, OnOk, length};
ghost use Rattle.std.specs.List.{All};
ghost use Rattle.gtd_core.specs.Seconds.{IsMomentSecond};
ghost use Rattle.gtd_ask.specs.Answers.{IsText};
ghost use Rattle.gtd_ask.specs.Questions.{most_questions};
ghost use Rattle.gtd_ask.specs.Run.{HasAnswered, HeadlineOf, KeepsRefused, answer_for, failures_after_asking};
ghost use Rattle.gtd_ask.specs.Run.{failures_after_read, failures_after_write};

use crate::fault::{AskFault, QuestionFault};
use crate::put::put_text;
use crate::question::Question;
use crate::reader::read_questions;
use gtd_devices::{Input, Output};
use gtd_records::{RecordFault, Records};
use gtd_report::{Printer, Report, RunFault, Stop, Subject, run_report};
use std::alloc::Global;

// The answers to questions.
#[derive(Clone, Copy)]
struct Answers<'a> {
    questions: &'a [Question],
    ghost few: { length questions.now ≤ most_questions },
    ghost in_range: { All (λ q. IsMomentSecond q.second.0) questions.now },
}

impl Report for Answers<'_> {
    ghost subject = { λ report. record { vehicle = None; year = None; element = None } };

    ghost is_text = { λ report found lines. IsText found report.questions.now lines };

    fn subject(&self) -> Subject {
        Subject {
            vehicle: None,
            year: None,
            element: None,
        }
    }

    fn put<O: Output>(
        &self,
        output: &mut O,
        printer: &mut Printer,
        found: &Records,
    ) -> Result<(), Stop> {
        put_text(output, printer, found, self.questions)
    }
}

// The answer for that of the run over the record file.
fn answer_for(answer: Result<u64, RunFault>) -> Result<u64, AskFault>
    ensures value { result ≡ answer_for answer }
{
    match answer {
        Ok(lines) => Ok(lines),
        Err(why) => Err(AskFault::Run(why)),
    }
}

/// Answers the questions that one input brings about the record file that another brings: puts a header, and for each question,
/// in their order, a line with the question, whether the element is open at its second, and until when. An element that no
/// record names is open throughout. Answers the number of lines, the header included.
///
/// In order: the first fault of reading the questions (`Questions`), of which the records are not read; then that of reading the
/// records (`Run` of `Records`); then `WriteFault` or `NoMemory`, whichever happens first. Nothing is put until both files have
/// been read and accepted. Before the call, the failures of all three devices must be below `u64::MAX`.
pub fn run_ask<I: Input, J: Input, O: Output>(
    alloc: Global,
    questions: &mut I,
    records: &mut J,
    output: &mut O,
) -> Result<u64, AskFault>
    requires questions_readable { I.failure_count questions.old < u64.MAX }
    requires records_readable { J.failure_count records.old < u64.MAX }
    requires writable { O.failure_count output.old < u64.MAX }
    // The headline. If no device counted a failure, and there was memory and input: of questions and records the output took
    // the answers, and the answer is the number of their lines; otherwise it took nothing, and the answer is the first fault of
    // the questions, or else of the records.
    ensures headline { I.failure_count questions.new ≡ I.failure_count questions.old
        → J.failure_count records.new ≡ J.failure_count records.old
        → O.failure_count output.new ≡ O.failure_count output.old → HeadlineOf (I.to_come questions.old) (J.to_come records.old)
        (O.taken output.old) (O.taken output.new) result }
    // What each answer means: after a failure or a refusal of memory, the first bytes of the same text.
    ensures stands { HasAnswered (I.to_come questions.old) (J.to_come records.old)
        (O.taken output.old) (O.taken output.new) result }
    // Nothing is put for files that are refused, even if an input does not tell its bytes.
    ensures kept { KeepsRefused (O.taken output.old) (O.taken output.new) result }
    // An output that took the whole text was then ended, last of all.
    ensures ended { OnOk result (IsTrue (O.is_ended output.new)) }
    ensures vehicle { IsErrOf result (AskFault.Run RunFault.VehicleRange) → ⊥ }
    ensures year { IsErrOf result (AskFault.Run RunFault.YearRange) → ⊥ }
    ensures element { IsErrOf result (AskFault.Run RunFault.NoElement) → ⊥ }
    ensures questions_endless { IsErrOf result (AskFault.Questions QuestionFault.Endless)
        → IsTrue (I.may_fall_silent questions.old) }
    ensures records_endless { IsErrOf result (AskFault.Run (RunFault.Records RecordFault.Endless))
        → IsTrue (J.may_fall_silent records.old) }
    ensures questions_faults { I.failure_count questions.new
        ≡ failures_after_asking result (I.failure_count questions.old) }
    ensures records_faults { J.failure_count records.new ≡ failures_after_read result (J.failure_count records.old) }
    ensures write_faults { O.failure_count output.new ≡ failures_after_write result (O.failure_count output.old) }
{
    let asked = match read_questions(alloc, questions) {
        Ok(asked) => asked,
        Err(why) => return Err(AskFault::Questions(why)),
    };
    let report = Answers {
        questions: asked.as_slice(),
    };
    answer_for(run_report(alloc, records, output, &report))
}
