//! From the tokens of a part to its value: weekdays and holidays.

ghost use Rattle.std.specs.Prelude.{◌≡◌};
ghost use Rattle.gtd_hours_text2.specs.Parts.{Gives, none, one_day, public_at, weekday_range};

use crate::ends::weekday;
use crate::times::offset;
use crate::years::{after, is};
use gtd_hours_grammar2::Class;
use gtd_hours_tokens2::Token;
use gtd_hours2::{DayOffset, HolidayKind, RulePart};

// `Mo`, `Mo-Fr`
fn weekday_range(tokens: &[Token]) -> RulePart
    ensures { result ≡ weekday_range tokens.now }
{
    let first = weekday(tokens);
    if is(Class::Dash, after(tokens)) {
        return RulePart::Weekdays {
            first,
            last: weekday(after(after(tokens))),
        };
    }
    RulePart::Weekdays { first, last: first }
}

// `PH -1 day`, after its first token.
fn public_at(tokens: &[Token]) -> Result<RulePart, u16>
    ensures { Gives (λ x. x) result (public_at tokens.now) }
{
    let (offset, _) = offset(366, tokens)?;
    Ok(RulePart::Holidays {
        kind: HolidayKind::Public,
        offset,
    })
}

fn no_offset() -> DayOffset
    ensures { result ≡ none }
{
    DayOffset {
        days: 0,
        is_before: false,
    }
}

/// `PH -1 day`, `SH`, `Mo`, `Mo-Fr`
pub(crate) fn one_day(tokens: &[Token]) -> Result<RulePart, u16>
    ensures { Gives (λ x. x) result (one_day tokens.now) }
{
    if is(Class::PublicHoliday, tokens) {
        return public_at(after(tokens));
    }
    if is(Class::SchoolHoliday, tokens) {
        return Ok(RulePart::Holidays {
            kind: HolidayKind::School,
            offset: no_offset(),
        });
    }
    Ok(weekday_range(tokens))
}
