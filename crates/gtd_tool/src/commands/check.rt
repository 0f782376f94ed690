//! `check DOMAIN`: whether the word is a domain.

ghost use Rattle.std.specs.Prelude.{◌≡◌, codes, IfErr, OnErr, OnOk};
ghost use Rattle.gtd_tool.specs.Asked.{texts};
ghost use Rattle.gtd_tool.specs.Commands.Check.{reading};
ghost use Rattle.gtd_tool.specs.Plans.{IsReadTo};
ghost use Rattle.gtd_tool.specs.Printed.{AppendsLine, AppendsPartOfLine};

use crate::plans::Plan;
use crate::printer::print_texts;
use crate::refusal::Refusal;
use crate::words::domain_of;
use std::alloc::Global;
use std::io::Write;

/// The plan of the words.
pub fn read(alloc: Global, words: &[&str]) -> Result<Plan, Refusal>
    ensures read { IsReadTo (reading (texts words.now)) result }
{
    let [domain] = words else {
        return Err(Refusal::Usage);
    };
    Ok(Plan::Check(domain_of(alloc, domain)?))
}

/// Prints that the word is a domain.
pub fn print<W: Write>(out: &mut W) -> Result<(), Refusal>
    ensures printed { OnOk result (AppendsLine (λ answer. answer ≡ codes "ok")
        (W.contents out.old) (W.contents out.new)) }
    ensures part { OnErr result (AppendsPartOfLine (λ answer. answer ≡ codes "ok")
        (W.contents out.old) (W.contents out.new)) }
    ensures cause { IfErr result (λ r. r ≡ Refusal.Write) }
{
    print_texts(&["ok", "\n"], out)
}
