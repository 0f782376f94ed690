//! `canon DOMAIN`: the domain's canonical text.

ghost use Rattle.std.specs.Prelude.{◌≡◌, IfErr, OnOk};
ghost use Rattle.gtd_core.specs.Parts.{domain_tree};
ghost use Rattle.gtd_tool.specs.Asked as asked;
ghost use Rattle.gtd_tool.specs.Asked.{texts};
ghost use Rattle.gtd_tool.specs.Commands.Canon.{reading};
ghost use Rattle.gtd_tool.specs.CutShort.{IsCutShort};
ghost use Rattle.gtd_tool.specs.Plans.{IsReadTo};
ghost use Rattle.gtd_tool.specs.Printed.{AppendsLine, IsAnswer};

use crate::plans::Plan;
use crate::printer::print_texts;
use crate::refusal::Refusal;
use crate::words::domain_of;
use gtd_core::Domain;
use gtd_text::print_domain;
use std::alloc::Global;
use std::io::Write;

/// The plan of the words.
pub fn read(alloc: Global, words: &[&str]) -> Result<Plan, Refusal>
    ensures read { IsReadTo (reading (texts words.now)) result }
{
    let [domain] = words else {
        return Err(Refusal::Usage);
    };
    Ok(Plan::Canon(domain_of(alloc, domain)?))
}

/// Prints the canonical text.
pub fn print<W: Write>(alloc: Global, domain: &Domain, out: &mut W) -> Result<(), Refusal>
    ensures printed { OnOk result (AppendsLine (IsAnswer (asked.Canon (domain_tree domain.now)))
        (W.contents out.old) (W.contents out.new)) }
    ensures stopped { IfErr result (IsCutShort (asked.Canon (domain_tree domain.now))
        (W.contents out.old) (W.contents out.new) (out.new ≡ out.old)) }
{
    let text = print_domain(alloc, domain).map_err(|_| Refusal::Memory)?;
    print_texts(&[text.as_str(), "\n"], out)
}
