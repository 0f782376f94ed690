//! Ends of a range that are of Easter, as they are read, and all ends.

ghost use Rattle.std.specs.Prelude.{◌≡◌};
ghost use Rattle.gtd_hours_moving.specs.Reading.{easter_end, easter_offset, end_front, is_easter_moved};

use crate::begins::begins_offset;
use crate::ends::{dated_end, moved_end};
use crate::kinds::{begins_dash, begins_plus, begins_sign, begins_weekday, is_dash, later};
use crate::read::ReadEnd;
use crate::reading::{easter_days_front, misfit};
use crate::words::begins_easter;
use gtd_hours_grammar::HoursFault;
use gtd_hours_ranges::WrittenEnd;
use gtd_hours_tokens::Token;

// `+1 day` behind `easter`, which stands there.
fn easter_offset(from: usize, tokens: &[Token], end: usize) -> Result<ReadEnd, HoursFault>
    ensures { result ≡ easter_offset from tokens.now end }
{
    match tokens {
        [] => Err(misfit(tokens, end)),
        [sign, rest @ ..] => {
            let days = easter_days_front(rest, end)?;
            let moved = WrittenEnd::Easter {
                days,
                is_before: is_dash(sign.kind),
                from,
            };
            moved_end(moved, later(rest), end)
        }
    }
}

// Whether an offset comes behind `easter` as a first end, or as a last one.
fn is_easter_moved(is_first: bool, tokens: &[Token]) -> bool
    ensures { result ≡ is_easter_moved is_first tokens.now }
{
    if is_first {
        begins_offset(tokens)
            || begins_plus(tokens)
            || (begins_dash(tokens) && begins_weekday(later(tokens)))
    } else {
        begins_sign(tokens)
    }
}

// `easter +1 day`
fn easter_end(is_first: bool, tokens: &[Token], end: usize) -> Result<ReadEnd, HoursFault>
    ensures { result ≡ easter_end is_first tokens.now end }
{
    match tokens {
        [] => Err(misfit(tokens, end)),
        [token, rest @ ..] => {
            if is_easter_moved(is_first, rest) {
                easter_offset(token.from, rest, end)
            } else {
                Ok(ReadEnd {
                    end: WrittenEnd::Easter {
                        days: 0,
                        is_before: false,
                        from: token.from,
                    },
                    last: *token,
                })
            }
        }
    }
}

/// The first end of a range, or the last one. A year, if there is one, has been read before it.
pub fn end_front(
    is_first: bool,
    year: Option<u16>,
    text: &[u8],
    tokens: &[Token],
) -> Result<ReadEnd, HoursFault>
    ensures { result ≡ end_front is_first year text.now tokens.now }
{
    if begins_easter(text, tokens) {
        easter_end(is_first, tokens, text.len())
    } else {
        dated_end(is_first, year, tokens, text.len())
    }
}
