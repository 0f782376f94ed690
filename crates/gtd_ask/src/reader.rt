//! Reading a file of questions.

ghost use Rattle.std.specs.Prelude.{◌≡◌, ◌≢◌, ◌<◌, ◌≤◌, ◌↔◌, List, Ok, Err, Some, MatchResult, IfOk, IfSome, IsErrOf};
ghost use Rattle.std.specs.Prelude.{IsTrue, length};
ghost use Rattle.std.specs.List.{All};
ghost use Rattle.csv.specs.Reading.{default_config, strip_bom, records};
ghost use Rattle.csv.specs.Records.{fields_of};
ghost use Rattle.gtd_rows.specs.Columns.{Fields};
ghost use Rattle.gtd_rows.specs.Table.{HasLeft};
ghost use Rattle.gtd_core.specs.Seconds.{IsMomentSecond};
ghost use Rattle.gtd_ask.specs.Questions.{AreRows, IsFile, IsOfFile, IsTable, header, most_questions};
ghost use Rattle.gtd_ask.specs.Run.{failures_after_questions};

use crate::fault::QuestionFault;
use crate::question::{Question, read_question};
use csv::{ByteRecord, Reader};
use gtd_devices::{Input, read_whole};
use gtd_rows::{four_columns, next_row, table};
use std::alloc::Global;

// The most bytes and the most rows of a file of questions.
const MOST_BYTES: usize = 134_217_728;

const MOST_QUESTIONS: u32 = 2_000_000;

// Whether a row is the header.
fn is_header(row: &ByteRecord) -> bool
    ensures { IsTrue result ↔ (fields_of row.now ≡ header) }
{
    let Some(columns) = four_columns(row) else {
        return false;
    };
    columns.element == b"element".as_slice()
        && columns.closed == b"direction".as_slice()
        && columns.vehicles == b"vehicle".as_slice()
        && columns.last == b"moment".as_slice()
}

// The questions of the rows that a reader still has to give, or their first fault.
fn read_rows(
    alloc: Global,
    reader: &mut Reader<&[u8]>,
    row: &mut ByteRecord,
) -> Result<Vec<Question>, QuestionFault>
    ensures rows { (rows : List Fields) → HasLeft (λ source. Some source.now) reader.old rows → MatchResult result
        (λ found. AreRows rows (Ok found.items))
        (λ why. why ≢ QuestionFault.NoMemory → AreRows rows (Err why)) }
    ensures few { IfOk result (λ found. length found.items ≤ most_questions) }
    ensures range { IfOk result (λ found. All (λ q. IsMomentSecond q.second.0) found.items) }
{
    let mut found = Vec::new(alloc);
    for number in 1..MOST_QUESTIONS + 1 {
        if !next_row(reader, row)? {
            return Ok(found);
        }
        let question = read_question(number, row)?;
        found.push(question)?;
    }
    if next_row(reader, row)? {
        return Err(QuestionFault::TooManyRows);
    }
    Ok(found)
}

// The questions of a file's bytes, or its first fault.
fn read_table(alloc: Global, bytes: &[u8]) -> Result<Vec<Question>, QuestionFault>
    ensures table { MatchResult result
        (λ found. IsTable (records default_config (strip_bom bytes.now)) (Ok found.items))
        (λ why. why ≢ QuestionFault.NoMemory → IsTable (records default_config (strip_bom bytes.now)) (Err why)) }
    ensures few { IfOk result (λ found. length found.items ≤ most_questions) }
    ensures range { IfOk result (λ found. All (λ q. IsMomentSecond q.second.0) found.items) }
{
    let mut reader = table(alloc, bytes);
    let mut row = ByteRecord::new(alloc);
    if !next_row(&mut reader, &mut row)? {
        return Err(QuestionFault::Header);
    }
    if is_header(&row) {
        read_rows(alloc, &mut reader, &mut row)
    } else {
        Err(QuestionFault::Header)
    }
}

/// The questions of the file that an input brings, or its first fault.
///
/// In order: `ReadFault`, `TooLarge`, `Endless` or `NoMemory` if the input is not read whole; `Header`; then the first row
/// that has a fault, or `TooManyRows` for the first that is one too many. `NoMemory` is answered only if memory was refused.
/// Before the call, the input's failures must be below `u64::MAX`.
pub(crate) fn read_questions<I: Input>(
    alloc: Global,
    input: &mut I,
) -> Result<Vec<Question>, QuestionFault>
    requires countable { I.failure_count input.old < u64.MAX }
    ensures file { MatchResult result
        (λ found. IfSome (I.to_come input.old) (λ bytes. IsFile bytes (Ok found.items)))
        (λ why. IsOfFile why → IfSome (I.to_come input.old) (λ bytes. IsFile bytes (Err why))) }
    ensures few { IfOk result (λ found. length found.items ≤ most_questions) }
    ensures range { IfOk result (λ found. All (λ q. IsMomentSecond q.second.0) found.items) }
    ensures endless { IsErrOf result QuestionFault.Endless → IsTrue (I.may_fall_silent input.old) }
    ensures failures { I.failure_count input.new ≡ failures_after_questions result (I.failure_count input.old) }
{
    let bytes = read_whole(alloc, input, MOST_BYTES)?;
    read_table(alloc, bytes.as_slice())
}
