//! Printing answers.

ghost use Rattle.std.specs.Prelude.{◌≡◌, ◌++◌, codes, IfErr, IfSome, OnErr, OnOk};
ghost use Rattle.std.specs.Io.KnownBytes.{Appends};
ghost use Rattle.gtd_core.specs.Parts.{domain_tree};
ghost use Rattle.gtd_core.specs.Seconds.{IsHorizonSecond};
ghost use Rattle.gtd_tool.specs.Answers.{IsChangeOr, IsState};
ghost use Rattle.gtd_tool.specs.Printed.{AppendsLine, AppendsPartOfLine};
ghost use Rattle.gtd_tool.specs.Writing.{AppendsPart, joined};

use crate::refusal::Refusal;
use crate::writer::{put, put_texts};
use gtd_calendar::write_stamp;
use gtd_core::{Domain, Sec};
use gtd_eval::holds;
use std::io;
use std::io::Write;

/// Prints the change and the state from then on, or the word for none.
pub fn print_change<W: Write>(
    domain: &Domain,
    change: Option<Sec>,
    none: &str,
    out: &mut W,
) -> Result<(), Refusal>
    requires in_range { IfSome change (λ t. IsHorizonSecond t.0) }
    ensures printed { OnOk result (AppendsLine (IsChangeOr none.now (domain_tree domain.now) change)
        (W.contents out.old) (W.contents out.new)) }
    ensures part { OnErr result (AppendsPartOfLine
        (IsChangeOr none.now (domain_tree domain.now) change)
        (W.contents out.old) (W.contents out.new)) }
    ensures cause { IfErr result (λ r. r ≡ Refusal.Write) }
{
    match change {
        None => print_texts(&[none, "\n"], out),
        Some(second) => print_stamped(&write_stamp(second), state_of(domain, second), out),
    }
}

/// The state of the domain at the second.
pub fn state_of(domain: &Domain, second: Sec) -> &'static str
    requires in_range { IsHorizonSecond second.0 }
    ensures state { IsState (domain_tree domain.now) second.0 result.now }
{
    if holds(domain, second) { "in" } else { "out" }
}

/// Writes the texts and flushes.
pub fn print_texts<W: Write>(texts: &[&str], out: &mut W) -> Result<(), Refusal>
    ensures printed { OnOk result (Appends (W.contents out.old) (W.contents out.new) (joined texts.now)) }
    ensures part { OnErr result (AppendsPart (W.contents out.old) (W.contents out.new) (joined texts.now)) }
    ensures cause { IfErr result (λ r. r ≡ Refusal.Write) }
{
    put_and_flush(texts, out).map_err(|_| Refusal::Write)
}

fn put_and_flush<W: Write>(texts: &[&str], out: &mut W) -> io::Result<()>
    ensures whole { OnOk result (Appends (W.contents out.old) (W.contents out.new) (joined texts.now)) }
    ensures part { OnErr result (AppendsPart (W.contents out.old) (W.contents out.new) (joined texts.now)) }
{
    put_texts(texts, out)?;
    out.flush()
}

// Writes a line with a stamp and a state, and flushes.
fn print_stamped<W: Write>(stamp: &[u8], state: &str, out: &mut W) -> Result<(), Refusal>
    ensures printed { OnOk result (Appends (W.contents out.old) (W.contents out.new)
        (stamp.now ++ (codes " " ++ (state.now ++ codes "\n")))) }
    ensures part { OnErr result (AppendsPart (W.contents out.old) (W.contents out.new)
        (stamp.now ++ (codes " " ++ (state.now ++ codes "\n")))) }
    ensures cause { IfErr result (λ r. r ≡ Refusal.Write) }
{
    put_stamped(stamp, state, out).map_err(|_| Refusal::Write)
}

fn put_stamped<W: Write>(stamp: &[u8], state: &str, out: &mut W) -> io::Result<()>
    ensures whole { OnOk result (Appends (W.contents out.old) (W.contents out.new)
        (stamp.now ++ (codes " " ++ (state.now ++ codes "\n")))) }
    ensures part { OnErr result (AppendsPart (W.contents out.old) (W.contents out.new)
        (stamp.now ++ (codes " " ++ (state.now ++ codes "\n")))) }
{
    put(stamp, out)?;
    put_and_flush(&[" ", state, "\n"], out)
}
