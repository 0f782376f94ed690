//! The tokens of a text that cannot stand where they do.
//!
//! In the checked text `PH` stands for them, which is a holiday here. So the first of them is a fault, unless a fault of the text
//! itself stands before it.

ghost use Rattle.std.specs.Prelude.{◌≡◌};
ghost use Rattle.gtd_hours_options.specs.Misfits.{first_misfit, is_bad_token, is_before, misfit, with_misfits};

use gtd_hours_grammar::{FaultKind, HoursFault};
use gtd_hours_known::KnownFault;
use gtd_hours_moments::Told;

// Such a token, as a fault.
fn misfit(token: Told) -> KnownFault
    ensures { result ≡ misfit token }
{
    KnownFault::Hours(HoursFault {
        kind: token.kind,
        place: token.place,
    })
}

/// The first of these tokens, as a fault.
pub(crate) fn first_misfit(misfits: &[Told]) -> Option<KnownFault>
    ensures { result ≡ first_misfit misfits.now }
{
    match misfits.split_first() {
        None => None,
        Some((token, _)) => Some(misfit(*token)),
    }
}

// Whether it is a byte with which no token begins, or a comment that is not whole.
fn is_bad_token(kind: FaultKind) -> bool
    ensures { result ≡ is_bad_token kind }
{
    match kind {
        FaultKind::BadToken => true,
        _ => false,
    }
}

// Whether it is a fault of the text itself that comes first: one of its tokens, or one that stands before a place.
fn is_before(bad: KnownFault, place: usize) -> bool
    ensures { result ≡ is_before bad place }
{
    match bad {
        KnownFault::Hours(bad) => is_bad_token(bad.kind) || bad.place < place,
        KnownFault::Ambiguous { place: at } => at < place,
        _ => false,
    }
}

/// The first of this fault and of these tokens.
pub(crate) fn with_misfits(misfits: &[Told], bad: KnownFault) -> KnownFault
    ensures { result ≡ with_misfits misfits.now bad }
{
    match misfits.split_first() {
        None => bad,
        Some((token, _)) => {
            if is_before(bad, token.place) {
                bad
            } else {
                misfit(*token)
            }
        }
    }
}
