//! How a plan ended that was carried out.

ghost use Rattle.std.specs.Prelude.{◌≡◌};
ghost use Rattle.gtdesk_tool.specs.Running.{ending_status, joined};

use crate::refusal::RunRefusal;

/// How a plan ended that was carried out.
#[derive(Clone, Copy, Debug, PartialEq, Eq)]
pub enum Ending {
    /// What was asked for was put.
    Done,
    /// A file's faults were put.
    FaultsListed,
    /// A difference was put.
    Differ,
}

impl Ending {
    /// The exit status: 1 if faults were listed, 4 if there is a difference, otherwise 0.
    pub fn status(&self) -> u8
        ensures value { result ≡ ending_status self.now }
    {
        match self {
            Ending::Done => 0,
            Ending::FaultsListed => 1,
            Ending::Differ => 4,
        }
    }
}

/// How a plan ended for several files, from how it ended for the first of them and for those that come next: refused as the first
/// file that is refused; or else as the first ending that is not [`Ending::Done`].
pub fn joined(
    first: Result<Ending, RunRefusal>,
    next: Result<Ending, RunRefusal>,
) -> Result<Ending, RunRefusal>
    ensures value { result ≡ joined first next }
{
    match first {
        Err(_) => first,
        Ok(Ending::Done) => next,
        Ok(_) => match next {
            Err(_) => next,
            Ok(_) => first,
        },
    }
}
