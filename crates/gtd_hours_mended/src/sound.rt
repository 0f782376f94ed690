//! Whether a text is at fault itself, or only asks for options.

ghost use Rattle.std.specs.Prelude.{◌≡◌, IfErr, IfOk, false, true};
ghost use Rattle.gtd_hours_mended.specs.Mending.{GivesNothing, IsFaultyStop, IsSound, is_known_need, is_missing, is_need};
ghost use Rattle.gtd_hours_options.specs.declared.fault.OptionsReadFault.TheVariants as reading;

use gtd_hours_known::{Known, KnownFault};
use gtd_hours_moments::{Clocks, NeedKind};
use gtd_hours_options::{Options, OptionsFault, OptionsReadFault, read_hours_with};
use std::alloc::Global;

// The options with which nothing is given.
fn no_options() -> Options
    ensures { GivesNothing result }
{
    Options {
        known: Known {
            holidays: None,
            years: None,
        },
        clocks: Clocks {
            open_end: None,
            points: None,
            sunrise: None,
            sunset: None,
            dawn: None,
            dusk: None,
        },
    }
}

// Whether something is not given for a time.
fn is_missing(kind: NeedKind) -> bool
    ensures { result ≡ is_missing kind }
{
    !matches!(kind, NeedKind::Range)
}

// Whether something is not given or known, and the text itself is not at fault.
fn is_known_need(bad: KnownFault) -> bool
    ensures { result ≡ is_known_need bad }
{
    match bad {
        KnownFault::Hours(_) => false,
        KnownFault::Ambiguous { .. } => false,
        _ => true,
    }
}

fn is_need(bad: OptionsFault) -> bool
    ensures { result ≡ is_need bad }
{
    match bad {
        OptionsFault::Known(bad) => is_known_need(bad),
        OptionsFault::Time(need) => is_missing(need.kind),
    }
}

// Whether a text that has this fault without options is not at fault itself.
fn check_fault(bad: OptionsFault) -> Result<(), OptionsReadFault>
    ensures need { IfOk result (λ done. is_need bad ≡ true) }
    ensures fault { IfErr result (λ why. (why ≡ reading.Fault bad) × (is_need bad ≡ false)) }
{
    if is_need(bad) {
        Ok(())
    } else {
        Err(OptionsReadFault::Fault(bad))
    }
}

/// Whether a text as it is written is not at fault: without options it is read, or they are what is missing, or it is not known
/// whether a rule is open. Else its first fault; or that there is no memory.
pub(crate) fn check_sound(alloc: Global, text: &[u8]) -> Result<(), OptionsReadFault>
    ensures sound { IfOk result (λ done. IsSound text.now) }
    ensures fault { IfErr result (IsFaultyStop text.now) }
{
    let nothing = no_options();
    match read_hours_with(alloc, text, &nothing) {
        Ok(_) => Ok(()),
        Err(OptionsReadFault::NoMemory) => Err(OptionsReadFault::NoMemory),
        Err(OptionsReadFault::Fault(bad)) => check_fault(bad),
    }
}
