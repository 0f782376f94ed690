//! Putting answers.

ghost use Rattle.std.specs.Prelude.{◌≡◌, ◌+◌, ◌<◌, ◌≤◌, length, IsTrue, OnOk};
ghost use Rattle.std.specs.List.{All};
ghost use Rattle.gtd_core.specs.Seconds.{IsMomentSecond};
ghost use Rattle.gtd_report.specs.Putting.{PutsText, failures_after_stop, nothing_put};
ghost use Rattle.gtd_ask.specs.Answers.{AreAnswers, IsAnswer, IsText};
ghost use Rattle.gtd_ask.specs.Questions.{most_questions};
ghost use Rattle.gtd_ask.specs.Known.{IsHeld};
ghost use Rattle.gtd_ask.specs.Putting.{IsOnly};

use crate::answer::write_answer;
use crate::held::Held;
use crate::question::Question;
use crate::shared::held_of;
use gtd_devices::Output;
use gtd_records::Records;
use gtd_report::{Printer, Stop, finish, put_line};

// Puts the line of a question.
fn put_answer<O: Output>(
    output: &mut O,
    printer: &mut Printer,
    found: &Records,
    held: &[Held],
    question: &Question,
) -> Result<(), Stop>
    requires countable { O.failure_count output.old < u64.MAX }
    requires in_range { IsMomentSecond question.now.second.0 }
    requires held { All (IsHeld found.now) held.now }
    requires written { printer.old.progress.written ≤ 1_000_000_000 }
    requires lines { printer.old.progress.lines ≤ most_questions + 1 }
    ensures puts { PutsText (IsOnly (IsAnswer found.now question.now)) result
        (O.taken output.old) (O.taken output.new) printer.old.progress printer.new.progress }
    ensures near { OnOk result ((printer.new.progress.written ≤ printer.old.progress.written + 100)
        × (printer.new.progress.lines ≤ printer.old.progress.lines + 1)) }
    ensures failures { O.failure_count output.new ≡ failures_after_stop result (O.failure_count output.old) }
{
    write_answer(printer.alloc, &mut printer.line, found, held, question)?;
    put_line(output, &mut printer.progress, printer.line.as_slice())?;
    Ok(())
}

// Puts the lines of questions, in their order.
fn put_answers<O: Output>(
    output: &mut O,
    printer: &mut Printer,
    found: &Records,
    held: &[Held],
    questions: &[Question],
) -> Result<(), Stop>
    requires countable { O.failure_count output.old < u64.MAX }
    requires held { All (IsHeld found.now) held.now }
    requires few { length questions.now ≤ most_questions }
    requires in_range { All (λ q. IsMomentSecond q.second.0) questions.now }
    requires written { printer.old.progress.written ≤ 1000 }
    requires lines { printer.old.progress.lines ≤ 1 }
    ensures puts { PutsText (AreAnswers found.now questions.now) result
        (O.taken output.old) (O.taken output.new) printer.old.progress printer.new.progress }
    ensures failures { O.failure_count output.new ≡ failures_after_stop result (O.failure_count output.old) }
{
    for question in questions {
        put_answer(output, printer, found, held, question)?;
    }
    Ok(())
}

/// Puts the header and the lines of questions, in their order; then ends the output.
pub(crate) fn put_text<O: Output>(
    output: &mut O,
    printer: &mut Printer,
    found: &Records,
    questions: &[Question],
) -> Result<(), Stop>
    requires countable { O.failure_count output.old < u64.MAX }
    requires begins { printer.old.progress ≡ nothing_put }
    requires few { length questions.now ≤ most_questions }
    requires in_range { All (λ q. IsMomentSecond q.second.0) questions.now }
    ensures puts { PutsText (IsText found.now questions.now) result
        (O.taken output.old) (O.taken output.new) printer.old.progress printer.new.progress }
    ensures ended { OnOk result (IsTrue (O.is_ended output.new)) }
    ensures failures { O.failure_count output.new ≡ failures_after_stop result (O.failure_count output.old) }
{
    let held = held_of(printer.alloc, found, questions)?;
    put_line(
        output,
        &mut printer.progress,
        b"element,direction,vehicle,moment,state,until\n",
    )?;
    put_answers(output, printer, found, held.as_slice(), questions)?;
    finish(output)
}
