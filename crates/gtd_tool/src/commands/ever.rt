//! `ever DOMAIN MOMENT`: the domain's first change after the moment, however late.

ghost use Rattle.std.specs.Prelude.{◌≡◌, ◌⊎◌, Err, IfErr, OnOk};
ghost use Rattle.gtd_core.specs.Parts.{domain_tree};
ghost use Rattle.gtd_eval.specs.Membership.{SomeGivesYear};
ghost use Rattle.gtd_tool.specs.Asked as asked;
ghost use Rattle.gtd_tool.specs.Asked.{texts};
ghost use Rattle.gtd_tool.specs.Commands.Ever.{reading};
ghost use Rattle.gtd_tool.specs.CutShort.{IsCutShort};
ghost use Rattle.gtd_tool.specs.Plans.{IsReadTo};
ghost use Rattle.gtd_tool.specs.Printed.{AppendsLine, IsAnswer};

use crate::plans::{Moment, Plan};
use crate::printer::print_change;
use crate::refusal::Refusal;
use crate::words::domain_and_moment;
use gtd_core::Domain;
use gtd_eval::{EverFault, next_change_ever};
use std::alloc::Global;
use std::io::Write;

/// The plan of the words.
pub fn read(alloc: Global, words: &[&str]) -> Result<Plan, Refusal>
    ensures read { IsReadTo (reading (texts words.now)) result }
{
    let [domain, moment] = words else {
        return Err(Refusal::Usage);
    };
    let (domain, moment) = domain_and_moment(alloc, domain, moment)?;
    Ok(Plan::Ever { domain, moment })
}

/// Prints the first change after the moment, however late.
pub fn print<W: Write>(
    alloc: Global,
    domain: &Domain,
    moment: Moment,
    out: &mut W,
) -> Result<(), Refusal>
    ensures printed { OnOk result (AppendsLine
        (IsAnswer (asked.Ever (domain_tree domain.now) moment.second))
        (W.contents out.old) (W.contents out.new)) }
    ensures stopped { IfErr result (IsCutShort (asked.Ever (domain_tree domain.now) moment.second)
        (W.contents out.old) (W.contents out.new) (out.new ≡ out.old)) }
    ensures year { SomeGivesYear (domain_tree domain.now) → result ≡ Err Refusal.HasYear }
{
    match next_change_ever(alloc, domain, moment.second) {
        Ok(change) => print_change(domain, change, "never", out),
        Err(fault) => Err(ever_refusal(fault)),
    }
}

fn ever_refusal(fault: EverFault) -> Refusal
    ensures { ((fault ≡ EverFault.HasYear) × (result ≡ Refusal.HasYear))
        ⊎ ((fault ≡ EverFault.NoMemory) × (result ≡ Refusal.Memory)) }
{
    match fault {
        EverFault::HasYear => Refusal::HasYear,
        EverFault::NoMemory => Refusal::Memory,
    }
}
