//! Which of the faults of a text is the first.

ghost use Rattle.std.specs.Prelude.{◌≡◌};
ghost use Rattle.gtd_hours_options.specs.First.{checked_fault, earlier, first_of, has_times, needed, or_known};
ghost use Rattle.gtd_hours_options.specs.First.{as_time, has_forms, time_fault};

use crate::fault::OptionsFault;
use crate::misfits::{first_misfit, with_misfits};
use crate::told::told;
use gtd_hours_known::KnownFault;
use gtd_hours_moments::{Clocks, MomentText, Need, TimeForm, first_need, too_long};

// Whether there are forms of times.
fn has_forms(forms: &[TimeForm]) -> bool
    ensures { result ≡ has_forms forms.now }
{
    match forms.split_first() {
        None => false,
        Some(_) => true,
    }
}

/// Whether there are times, of which the last one may break off, or tokens that cannot stand where they do.
pub(crate) fn has_times(moments: &MomentText) -> bool
    ensures { result ≡ has_times moments.now }
{
    has_forms(moments.forms.as_slice())
        || first_misfit(moments.told.as_slice()).is_some()
        || moments.breaks_off
}

// The first thing that times need, or else the first that lasts too long.
fn needed(forms: &[TimeForm], clocks: &Clocks) -> Option<Need>
    ensures { result ≡ needed forms.now clocks.now }
{
    match first_need(forms, clocks) {
        Some(need) => Some(need),
        None => too_long(forms, clocks),
    }
}

// What is needed, if it stands before this place, or else what is not given there.
fn earlier(need: Option<Need>, place: usize, bad: KnownFault) -> OptionsFault
    ensures { result ≡ earlier need place bad }
{
    match need {
        None => OptionsFault::Known(bad),
        Some(need) => {
            if need.place < place {
                OptionsFault::Time(need)
            } else {
                OptionsFault::Known(bad)
            }
        }
    }
}

// What is needed or too long, or else this fault.
fn or_known(need: Option<Need>, bad: KnownFault) -> OptionsFault
    ensures { result ≡ or_known need bad }
{
    match need {
        None => OptionsFault::Known(bad),
        Some(need) => OptionsFault::Time(need),
    }
}

// The first of a fault as it is told of the text, and what its times need.
fn first_of(forms: &[TimeForm], clocks: &Clocks, bad: KnownFault) -> OptionsFault
    ensures { result ≡ first_of forms.now clocks.now bad }
{
    match bad {
        KnownFault::Hours(_) => OptionsFault::Known(bad),
        KnownFault::Ambiguous { place: _ } => OptionsFault::Known(bad),
        KnownFault::Holidays { place } => earlier(first_need(forms, clocks), place, bad),
        KnownFault::Years { place } => earlier(first_need(forms, clocks), place, bad),
        KnownFault::Unknown { place } => earlier(first_need(forms, clocks), place, bad),
        KnownFault::Uncovered { place: _, day: _ } => or_known(needed(forms, clocks), bad),
    }
}

/// The first fault of a text with so many bytes, whose checked text has this one.
pub(crate) fn checked_fault(
    end: usize,
    moments: &MomentText,
    clocks: &Clocks,
    bad: KnownFault,
) -> OptionsFault
    ensures { result ≡ checked_fault end moments.now clocks.now bad }
{
    let own = with_misfits(moments.told.as_slice(), told(end, moments, bad));
    first_of(moments.forms.as_slice(), clocks, own)
}

// What is needed or too long, as a fault.
fn as_time(need: Option<Need>) -> Option<OptionsFault>
    ensures { result ≡ as_time need }
{
    match need {
        None => None,
        Some(need) => Some(OptionsFault::Time(need)),
    }
}

/// The first fault of a text whose checked text has none: a token that cannot stand where it does, or what its times need.
pub(crate) fn time_fault(moments: &MomentText, clocks: &Clocks) -> Option<OptionsFault>
    ensures { result ≡ time_fault moments.now clocks.now }
{
    match first_misfit(moments.told.as_slice()) {
        Some(bad) => Some(OptionsFault::Known(bad)),
        None => as_time(needed(moments.forms.as_slice(), clocks)),
    }
}
