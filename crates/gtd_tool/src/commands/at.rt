//! `at DOMAIN MOMENT`: whether the domain contains the moment.

ghost use Rattle.std.specs.Prelude.{◌≡◌, IfErr, OnErr, OnOk};
ghost use Rattle.gtd_core.specs.Parts.{domain_tree};
ghost use Rattle.gtd_tool.specs.Answers.{IsState};
ghost use Rattle.gtd_tool.specs.Asked.{texts};
ghost use Rattle.gtd_tool.specs.Commands.At.{reading};
ghost use Rattle.gtd_tool.specs.Plans.{IsReadTo};
ghost use Rattle.gtd_tool.specs.Printed.{AppendsLine, AppendsPartOfLine};

use crate::plans::{Moment, Plan};
use crate::printer::{print_texts, state_of};
use crate::refusal::Refusal;
use crate::words::domain_and_moment;
use gtd_core::Domain;
use std::alloc::Global;
use std::io::Write;

/// The plan of the words.
pub fn read(alloc: Global, words: &[&str]) -> Result<Plan, Refusal>
    ensures read { IsReadTo (reading (texts words.now)) result }
{
    let [domain, moment] = words else {
        return Err(Refusal::Usage);
    };
    let (domain, moment) = domain_and_moment(alloc, domain, moment)?;
    Ok(Plan::At { domain, moment })
}

/// Prints the state at the moment.
pub fn print<W: Write>(domain: &Domain, moment: Moment, out: &mut W) -> Result<(), Refusal>
    ensures printed { OnOk result (AppendsLine (IsState (domain_tree domain.now) moment.second.0)
        (W.contents out.old) (W.contents out.new)) }
    ensures part { OnErr result (AppendsPartOfLine (IsState (domain_tree domain.now) moment.second.0)
        (W.contents out.old) (W.contents out.new)) }
    ensures cause { IfErr result (λ r. r ≡ Refusal.Write) }
{
    print_texts(&[state_of(domain, moment.second), "\n"], out)
}
