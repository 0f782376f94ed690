//! `next DOMAIN MOMENT TO`: the domain's first change after the moment and before the day `TO`.

ghost use Rattle.std.specs.Prelude.{◌≡◌, IfErr, OnOk};
ghost use Rattle.std.specs.Prelude.{[], ◌∷◌};
ghost use Rattle.gtd_core.specs.Parts.{domain_tree};
ghost use Rattle.gtd_core.specs.Whole.{to_day};
ghost use Rattle.gtd_tool.specs.Asked as asked;
ghost use Rattle.gtd_tool.specs.Asked.{texts};
ghost use Rattle.gtd_tool.specs.Commands.Next.{reading};
ghost use Rattle.gtd_tool.specs.CutShort.{IsCutShort};
ghost use Rattle.gtd_tool.specs.Plans.{IsReadTo};
ghost use Rattle.gtd_tool.specs.Printed.{AppendsLine, IsAnswer};

use crate::plans::{MomentInHorizon, Plan};
use crate::printer::print_change;
use crate::refusal::Refusal;
use crate::words::{date_of, domain_and_moment, in_horizon};
use gtd_core::Domain;
use gtd_eval::next_change;
use std::alloc::Global;
use std::io::Write;

/// The plan of the words.
pub fn read(alloc: Global, words: &[&str]) -> Result<Plan, Refusal>
    ensures read { IsReadTo (reading (texts words.now)) result }
{
    let [domain, moment, to] = words else {
        return Err(Refusal::Usage);
    };
    read_words(alloc, domain, moment, to)
}

fn read_words(alloc: Global, domain: &str, moment: &str, to: &str) -> Result<Plan, Refusal>
    ensures { IsReadTo (reading (domain.now ∷ moment.now ∷ to.now ∷ [])) result }
{
    let (domain, moment) = domain_and_moment(alloc, domain, moment)?;
    let to = date_of(to)?;
    let moment = in_horizon(moment, to)?;
    Ok(Plan::Next { domain, moment })
}

/// Prints the first change after the moment, in the horizon.
pub fn print<W: Write>(
    alloc: Global,
    domain: &Domain,
    moment: MomentInHorizon,
    out: &mut W,
) -> Result<(), Refusal>
    ensures printed { OnOk result (AppendsLine
        (IsAnswer (asked.Next (domain_tree domain.now) moment.second (to_day moment.horizon)))
        (W.contents out.old) (W.contents out.new)) }
    ensures stopped { IfErr result (IsCutShort
        (asked.Next (domain_tree domain.now) moment.second (to_day moment.horizon))
        (W.contents out.old) (W.contents out.new) (out.new ≡ out.old)) }
{
    match next_change(alloc, domain, moment.second, moment.horizon) {
        Ok(change) => print_change(domain, change, "none", out),
        Err(_) => Err(Refusal::Memory),
    }
}
