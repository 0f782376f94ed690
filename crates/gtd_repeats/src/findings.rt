//! What is said of the rows of a file that say nothing new.

ghost use Rattle.std.specs.Prelude.{◌≡◌, ◌<◌, ◌≤◌, ◌+◌, ℕ, List, IfOk, OnOk, get_or, length};
ghost use Rattle.gtd_core.specs.Limits.{most_rows};
ghost use Rattle.gtd_repeats.specs.Answers.{AreRight};
ghost use Rattle.gtd_repeats.specs.Findings.{AreFindings, AreGrouped, IsFirstMeaning, IsFirstText, IsSaidOfRow, IsSaidOfText};
ghost use Rattle.gtd_repeats.specs.Findings.{with_finding};
ghost use Rattle.gtd_repeats.specs.Firsts.{AreFirsts};
ghost use Rattle.gtd_repeats.specs.Kin.{AreAllKin, AreElementBuckets, AreKin};
ghost use Rattle.gtd_repeats.specs.Known.{AreKnown};
ghost use Rattle.gtd_repeats.specs.Sameness.{AreAlikeIn, row_at};
ghost use Rattle.gtd_repeats.specs.declared.alike.Kind.TheVariants as declared;

use crate::alike::{Compared, Kind};
use crate::answers::{Answer, first_answers};
use crate::buckets::{Entry, entries_of};
use crate::finer::{KnownTexts, finer_by_years};
use crate::firsts::firsts_of;
use crate::kin::{Grouped, element_buckets, kin_of, within_of};
use crate::known::known_rows;
use crate::numbers::{joint_numbers, numbers_of};
use crate::spans::spans_of;
use gtd_records::Record;
use std::alloc::{AllocError, Global};

/// What is said of a row. Rows are numbered from 1, after the header.
#[derive(Clone, Copy, Debug, PartialEq, Eq)]
pub enum Finding {
    /// An earlier row says the same.
    SameRow { row: u32, of: u32 },
    /// Another row of the element closes all that this one closes.
    WithinRow { row: u32, of: u32 },
    /// The row is the first with its text, and an earlier one has another text that means the same.
    SameMeaning { row: u32, of: u32 },
}

// For each row itself.
fn themselves(alloc: Global, rows: &[Record]) -> Result<Vec<usize>, AllocError>
    ensures many { IfOk result (λ own. length own.items ≡ length rows.now) }
    ensures each { IfOk result (λ own. (row : ℕ) → row < length rows.now → get_or own.items row 0 ≡ row) }
{
    let mut own = Vec::new(alloc);
    for row in 0..rows.len() {
        own.push(row)?;
    }
    Ok(own)
}

// For each row the first whose domain has the same canonical text, and the first that closes at the same seconds.
fn meanings_of(alloc: Global, rows: &[Record]) -> Result<(Vec<usize>, Vec<usize>), AllocError>
    ensures texts { IfOk result (λ found. AreFirsts (AreAlikeIn rows.now declared.Text) (length rows.now) found.0.items) }
    ensures meanings { IfOk result (λ found. AreFirsts (AreAlikeIn rows.now declared.Seconds) (length rows.now) found.1.items) }
{
    let known = known_rows(alloc, rows)?;
    let numbers = numbers_of(alloc, rows, known.as_slice())?;
    let by_text = Compared {
        rows,
        kind: Kind::Text,
    };
    let texts = firsts_of(alloc, &by_text, numbers.as_slice(), known.as_slice())?;
    let finer = finer_by_years(
        alloc,
        KnownTexts {
            rows,
            known: known.as_slice(),
        },
        numbers,
    )?;
    let by_seconds = Compared {
        rows,
        kind: Kind::Seconds,
    };
    let meanings = firsts_of(alloc, &by_seconds, finer.as_slice(), texts.as_slice())?;
    Ok((texts, meanings))
}

// For each row the first that says the same.
fn sames_of(alloc: Global, rows: &[Record], meanings: &[usize]) -> Result<Vec<usize>, AllocError>
    requires meanings { AreFirsts (AreAlikeIn rows.now declared.Seconds) (length rows.now) meanings.now }
    ensures sames { IfOk result (λ sames. AreFirsts (AreAlikeIn rows.now declared.Row) (length rows.now) sames.items) }
{
    let numbers = joint_numbers(alloc, rows, meanings)?;
    let own = themselves(alloc, rows)?;
    let by_row = Compared {
        rows,
        kind: Kind::Row,
    };
    firsts_of(alloc, &by_row, numbers.as_slice(), own.as_slice())
}

// The number of the row with so many before it.
fn row_number(before: usize) -> u32
    requires few { before < most_rows }
    ensures value { result ≡ before + 1 }
{
    before as u32 + 1
}

// What is said of a row.
fn said_of_row(
    alloc: Global,
    all: &Grouped<'_>,
    answers: &mut Vec<Answer>,
    entries: &[Entry],
    row: usize,
) -> Result<Option<Finding>, AllocError>
    requires few { length all.now.rows.now ≤ most_rows }
    requires grouped { AreGrouped all.now.rows.now all.now.meanings.now all.now.sames.now all.now.spans.now }
    requires inside { row < length all.now.rows.now }
    requires right { AreRight all.now.rows.now answers.old.items }
    requires kin { AreKin all.now.rows.now (length all.now.rows.now) (row_at all.now.rows.now row).element entries.now }
    ensures right { AreRight all.now.rows.now answers.new.items }
    ensures said { IfOk result (IsSaidOfRow all.now.rows.now row) }
{
    let number = row_number(row);
    let same = all.sames[row];
    if same < row {
        let of = row_number(same);
        return Ok(Some(Finding::SameRow { row: number, of }));
    }
    match within_of(alloc, all, answers, entries, row)? {
        Some(other) => {
            let of = row_number(other);
            Ok(Some(Finding::WithinRow { row: number, of }))
        }
        None => Ok(None),
    }
}

// What is said of a row's text, of which the first row with this text and the first with its seconds are known.
fn said_of_text(rows: &[Record], text: usize, meaning: usize, row: usize) -> Option<Finding>
    requires few { length rows.now ≤ most_rows }
    requires inside { row < length rows.now }
    ensures said { IsFirstText rows.now row text → IsFirstMeaning rows.now row meaning → IsSaidOfText rows.now row result }
{
    if text < row || row <= meaning {
        return None;
    }
    Some(Finding::SameMeaning {
        row: row_number(row),
        of: row_number(meaning),
    })
}

// Adds a finding, if there is one.
fn push_finding(findings: &mut Vec<Finding>, finding: Option<Finding>) -> Result<(), AllocError>
    ensures pushed { OnOk result (findings.new.items ≡ with_finding findings.old.items finding) }
{
    if let Some(finding) = finding {
        findings.push(finding)?;
    }
    Ok(())
}

// What is said of the rows, row by row.
fn findings_by(
    alloc: Global,
    all: &Grouped<'_>,
    texts: &[usize],
    indices: &[usize],
    kin: &[Vec<Entry>],
) -> Result<Vec<Finding>, AllocError>
    requires few { length all.now.rows.now ≤ most_rows }
    requires grouped { AreGrouped all.now.rows.now all.now.meanings.now all.now.sames.now all.now.spans.now }
    requires texts { AreFirsts (AreAlikeIn all.now.rows.now declared.Text) (length all.now.rows.now) texts.now }
    requires buckets { AreElementBuckets all.now.rows.now indices.now }
    requires many { length kin.now ≡ length all.now.rows.now }
    requires kin { AreAllKin all.now.rows.now indices.now (length all.now.rows.now) kin.now }
    ensures findings { IfOk result (λ findings. AreFindings all.now.rows.now findings.items) }
{
    let mut findings = Vec::new(alloc);
    let mut answers = first_answers(alloc)?;
    for row in 0..all.rows.len() {
        let entries = entries_of(kin, indices[row]);
        let of_row = said_of_row(alloc, all, &mut answers, entries, row)?;
        let of_text = said_of_text(all.rows, texts[row], all.meanings[row], row);
        push_finding(&mut findings, of_row)?;
        push_finding(&mut findings, of_text)?;
    }
    Ok(findings)
}

/// What is said of the rows of a file that say nothing new, row by row. Each is compared with the first 64 rows of its element.
pub(crate) fn findings_of(alloc: Global, rows: &[Record]) -> Result<Vec<Finding>, AllocError>
    requires few { length rows.now ≤ most_rows }
    ensures findings { IfOk result (λ findings. AreFindings rows.now findings.items) }
{
    let (texts, meanings) = meanings_of(alloc, rows)?;
    let sames = sames_of(alloc, rows, meanings.as_slice())?;
    let indices = element_buckets(alloc, rows)?;
    let kin = kin_of(alloc, rows, indices.as_slice())?;
    let spans = spans_of(alloc, rows, meanings.as_slice())?;
    let all = Grouped {
        rows,
        meanings: meanings.as_slice(),
        sames: sames.as_slice(),
        spans: spans.as_slice(),
    };
    findings_by(
        alloc,
        &all,
        texts.as_slice(),
        indices.as_slice(),
        kin.as_slice(),
    )
}
