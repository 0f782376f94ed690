//! Whether each second of one domain is in another.

ghost use Rattle.std.specs.Prelude.{◌↔◌, IfOk, IfSome, IsTrue};
ghost use Rattle.gtd_core.specs.Whole.{whole};
ghost use Rattle.gtd_eval.specs.Membership.{InDomain};
ghost use Rattle.gtd_difference.specs.Difference.{EitherGivesYear, HasNoneAlone, IsFirstSpan, IsHeldSpan, first_begin, last_end};

use crate::basics::{have_few_parts, is_shown_within};
use crate::comparison::{NEAR_DAYS, days_between, days_to_repeat, gives_year};
use crate::first::first_alone;
use crate::week::is_shown_by_week;
use gtd_core::limits::{FIRST_HORIZON_DAY, HORIZONS_END, MOST_HORIZON_DAYS};
use gtd_core::{Domain, Expr, Horizon, Sec, Span};
use gtd_eval::{Cursor, holds, is_weekly};
use gtd_spans::SpanSource;
use std::alloc::{AllocError, Global};

// The days of 2016-01-01 and of 2044-01-01, from which the first span of a domain is taken.
const SEEN_FROM: i64 = 16_801;

const SEEN_UNTIL: i64 = 27_028;

// Whether each second of the days that the domain has is in the other, too.
fn is_within_days(
    alloc: Global,
    domain: &Domain,
    other: &Domain,
    days: Horizon,
) -> Result<bool, AllocError>
    ensures within { IfOk result (λ within. IsTrue within
        ↔ HasNoneAlone (InDomain domain.now) (InDomain other.now) (whole days).from (whole days).until) }
{
    let alone = first_alone(alloc, domain, other, days.from(), days)?;
    Ok(alone.is_none())
}

// The same of all seconds from 1901-01-01 up to 2700-01-01, for domains without years.
fn is_within_ever(alloc: Global, domain: &Domain, other: &Domain) -> Result<bool, AllocError>
    requires no_year { EitherGivesYear domain.now other.now → ⊥ }
    ensures within { IfOk result (λ within. IsTrue within
        ↔ HasNoneAlone (InDomain domain.now) (InDomain other.now) first_begin last_end) }
{
    let repeated = FIRST_HORIZON_DAY + days_to_repeat(domain, other);
    is_within_days(
        alloc,
        domain,
        other,
        days_between(FIRST_HORIZON_DAY, repeated),
    )
}

// The same for any domains. The years need two horizons.
fn is_within_years(alloc: Global, domain: &Domain, other: &Domain) -> Result<bool, AllocError>
    ensures within { IfOk result (λ within. IsTrue within
        ↔ HasNoneAlone (InDomain domain.now) (InDomain other.now) first_begin last_end) }
{
    let middle = FIRST_HORIZON_DAY + MOST_HORIZON_DAYS;
    if !is_within_days(
        alloc,
        domain,
        other,
        days_between(FIRST_HORIZON_DAY, middle),
    )? {
        return Ok(false);
    }
    is_within_days(alloc, domain, other, days_between(middle, HORIZONS_END))
}

/// The first span that a domain has from 2016-01-01 up to 2044-01-01, or `None` if it has none. Of a span that goes on after
/// these years, only the part in them is told. `AllocError` is answered only if memory was refused.
///
/// ```
/// let domain = read_domain(alloc, b"[(h10){h4}]")?;
/// // 2016-01-01, from 10:00 to 14:00.
/// assert_eq!(rt; first_span(alloc, &domain)?, Span::new(Sec(1_451_642_400), Sec(1_451_656_800)));
/// ```
pub fn first_span(alloc: Global, domain: &Domain) -> Result<Option<Span>, AllocError>
    ensures first { IfOk result (IsFirstSpan (InDomain domain.now)) }
    ensures held { IfOk result (λ found. IfSome found (IsHeldSpan (InDomain domain.now))) }
{
    let mut cursor = Cursor::open(alloc, domain, days_between(SEEN_FROM, SEEN_UNTIL))?;
    Ok(cursor.next())
}

// Whether the other domain has not the first or not the last second of a span of the domain, if one is given.
fn is_end_alone(domain: &Domain, other: &Domain, span: &Option<Span>) -> bool
    requires held { IfSome span.now (IsHeldSpan (InDomain domain.now)) }
    ensures alone { IsTrue result → HasNoneAlone (InDomain domain.now) (InDomain other.now) first_begin last_end → ⊥ }
{
    let Some(span) = span else {
        return false;
    };
    let first = span.from();
    let last = Sec(span.until().0 - 1);
    !holds(other, first) || !holds(other, last)
}

// Whether the domain has a second that the other has not in the four years from its first span on, if that is given. Of domains
// that both repeat after 7 days a week decides anyway, so that none is looked for.
fn is_alone_near(
    alloc: Global,
    domain: &Domain,
    other: &Domain,
    span: &Option<Span>,
) -> Result<bool, AllocError>
    requires held { IfSome span.now (IsHeldSpan (InDomain domain.now)) }
    ensures alone { IfOk result (λ alone. IsTrue alone
        → HasNoneAlone (InDomain domain.now) (InDomain other.now) first_begin last_end → ⊥) }
{
    let Some(span) = span else {
        return Ok(false);
    };
    if is_weekly(domain) && is_weekly(other) {
        return Ok(false);
    }
    let day = span.from().day();
    let near = days_between(day, day + NEAR_DAYS);
    let within = is_within_days(alloc, domain, other, near)?;
    Ok(!within)
}

// Whether each second from 1901-01-01 up to 2700-01-01 of a domain is in another: by going through all of them that are needed.
fn is_within_all(alloc: Global, domain: &Domain, other: &Domain) -> Result<bool, AllocError>
    ensures within { IfOk result (λ within. IsTrue within
        ↔ HasNoneAlone (InDomain domain.now) (InDomain other.now) first_begin last_end) }
{
    if gives_year(domain.expr()) || gives_year(other.expr()) {
        is_within_years(alloc, domain, other)
    } else {
        is_within_ever(alloc, domain, other)
    }
}

/// The same without a look at the parts of the domains.
pub(crate) fn is_within_whole(
    alloc: Global,
    domain: &Domain,
    other: &Domain,
) -> Result<bool, AllocError>
    ensures within { IfOk result (λ within. IsTrue within
        ↔ HasNoneAlone (InDomain domain.now) (InDomain other.now) first_begin last_end) }
{
    let span = first_span(alloc, domain)?;
    if is_end_alone(domain, other, &span) {
        return Ok(false);
    }
    if is_alone_near(alloc, domain, other, &span)? {
        return Ok(false);
    }
    is_within_all(alloc, domain, other)
}

// Whether the basic domains of two domains show that each second of the one is in the other. Domains that both repeat after 7
// days are not asked.
fn is_part_shown(alloc: Global, domain: &Domain, other: &Domain) -> Result<bool, AllocError>
    ensures shown { IfOk result (λ shown. IsTrue shown
        → HasNoneAlone (InDomain domain.now) (InDomain other.now) first_begin last_end) }
{
    if is_weekly(domain) && is_weekly(other) {
        return Ok(false);
    }
    if let Expr::Leaf(basic) = domain.expr() {
        if is_shown_by_week(alloc, basic, other)? {
            return Ok(true);
        }
    }
    if !have_few_parts(domain.expr(), other.expr()) {
        return Ok(false);
    }
    is_shown_within(alloc, domain.expr(), other.expr())
}

/// Whether each second of a domain is in another, too: of the seconds from 1901-01-01 up to 2700-01-01. If no start of either
/// gives a year, these decide all time, by the law [`crate::laws::ever`]. Domains that both repeat after 7 days are compared
/// for a week, and others without years for 400 years. Both together may have more than 128 basic domains.
///
/// ```
/// let monday = read_domain(alloc, b"[(t2h8){h9}]")?;
/// let each_day = read_domain(alloc, b"[(h8){h9}]")?;
/// assert!(rt; is_within(alloc, &monday, &each_day)?);
/// assert!(rt; !is_within(alloc, &each_day, &monday)?);
/// ```
pub fn is_within(alloc: Global, domain: &Domain, other: &Domain) -> Result<bool, AllocError>
    ensures within { IfOk result (λ within. IsTrue within
        ↔ HasNoneAlone (InDomain domain.now) (InDomain other.now) first_begin last_end) }
{
    let span = first_span(alloc, domain)?;
    if is_end_alone(domain, other, &span) {
        return Ok(false);
    }
    if is_part_shown(alloc, domain, other)? {
        return Ok(true);
    }
    if is_alone_near(alloc, domain, other, &span)? {
        return Ok(false);
    }
    is_within_all(alloc, domain, other)
}
