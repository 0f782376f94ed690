//! What the holidays, the days of Easter and the years without a last one of a text need and is not given: a table, and years.

ghost use Rattle.std.specs.Prelude.{◌≡◌, ◌⊎◌, IsTrue, drop};
ghost use Rattle.gtd_hours_days.specs.Listed.{kind_of};
ghost use Rattle.gtd_hours_days.specs.declared.listed.Listed.{Listed};
ghost use Rattle.gtd_hours_known.specs.Given.{covers, covers_some, has_table, is_kind, no_years, none_given};
ghost use Rattle.gtd_hours_known.specs.Given.{AreSeen, is_seen, no_easter_years, no_last_year, not_given, rule_lacks};
ghost use Rattle.gtd_hours_known.specs.Rules.{first_place};

use crate::fault::KnownFault;
use crate::known::Known;
use gtd_hours_days::{EasterDays, Listed};
use gtd_hours_holiday_rules::HolidayRule;
use gtd_hours_holidays::{HolidayKind, HolidayRow, Holidays, KnownYears};

/// The first of some places.
pub(crate) fn first_place(places: &[usize]) -> usize
    ensures { result ≡ first_place places.now }
{
    match places.split_first() {
        Some((place, _)) => *place,
        None => 0,
    }
}

// The places behind the first.
fn later_places(places: &[usize]) -> &[usize]
    ensures { result.now ≡ drop 1 places.now }
{
    match places.split_first() {
        Some((_, later)) => later,
        None => places,
    }
}

// Whether two kinds are the same.
fn is_kind(one: HolidayKind, other: HolidayKind) -> bool
    ensures { result ≡ is_kind one other }
{
    match one {
        HolidayKind::Public => match other {
            HolidayKind::Public => true,
            HolidayKind::School => false,
        },
        HolidayKind::School => match other {
            HolidayKind::Public => false,
            HolidayKind::School => true,
        },
    }
}

// Whether some row says that all holidays of a kind on its days are in the table.
fn covers(rows: &[HolidayRow], kind: HolidayKind) -> bool
    ensures { result ≡ covers rows.now kind }
{
    let mut rest = rows;
    while let Some((row, more)) = rest.split_first() {
        if row.covers && is_kind(row.kind, kind) {
            return true;
        }
        rest = more;
    }
    false
}

// Whether it does so for the kind of a holiday, if it has one.
fn covers_kind_of(rows: &[HolidayRow], holiday: Listed) -> bool
    ensures { result ≡ covers_some rows.now (kind_of holiday) }
{
    match holiday {
        Listed::Public { offset: _ } => covers(rows, HolidayKind::Public),
        Listed::School => covers(rows, HolidayKind::School),
        Listed::Easter(_) => true,
    }
}

// Whether there is a table, and it is one of such holidays.
fn has_table(table: &Option<Holidays>, holiday: Listed) -> bool
    ensures { result ≡ has_table table.now holiday }
{
    match table {
        None => false,
        Some(table) => covers_kind_of(table.rows.as_slice(), holiday),
    }
}

// A fault at a place, if no years are given.
fn no_years(years: Option<KnownYears>, place: usize) -> Option<KnownFault>
    ensures { result ≡ no_years years place }
{
    match years {
        None => Some(KnownFault::Years { place }),
        Some(_) => None,
    }
}

// What is not given for a holiday that stands at a place.
fn not_given(known: &Known, holiday: Listed, place: usize) -> Option<KnownFault>
    ensures { result ≡ not_given known.now holiday place }
{
    if has_table(&known.holidays, holiday) {
        no_years(known.years, place)
    } else {
        Some(KnownFault::Holidays { place })
    }
}

// Of which kinds of holidays it is seen that all is given, so that the table is not gone through for each holiday of a list.
#[derive(Clone, Copy)]
struct Seen {
    public: bool,
    school: bool,
}

fn is_seen(seen: Seen, holiday: Listed) -> bool
    ensures { result ≡ is_seen seen holiday }
{
    match holiday {
        Listed::Public { offset: _ } => seen.public,
        Listed::School => seen.school,
        Listed::Easter(_) => false,
    }
}

// The kind of a holiday is seen, too.
fn seen_with(seen: Seen, holiday: Listed) -> Seen
    ensures { (h : Listed) → IsTrue (is_seen result h) → IsTrue (is_seen seen h) ⊎ (kind_of holiday ≡ kind_of h) }
{
    match holiday {
        Listed::Public { offset: _ } => Seen {
            public: true,
            ..seen
        },
        Listed::School => Seen {
            school: true,
            ..seen
        },
        Listed::Easter(_) => seen,
    }
}

// What is not given for a holiday that stands at a place. It is not asked again for a kind that is seen.
fn lacks(known: &Known, seen: Seen, holiday: Listed, place: usize) -> Option<KnownFault>
    requires { AreSeen known.now seen }
    ensures { result ≡ not_given known.now holiday place }
{
    if is_seen(seen, holiday) {
        return None;
    }
    not_given(known, holiday, place)
}

// What is not given for the first of some holidays at these places for which something is not: a table of such holidays, or
// else the years.
fn none_given(known: &Known, holidays: &[Listed], places: &[usize]) -> Option<KnownFault>
    ensures { result ≡ none_given known.now holidays.now places.now }
{
    let mut rest = holidays;
    let mut at = places;
    let mut seen = Seen {
        public: false,
        school: false,
    };
    while let Some((holiday, more)) = rest.split_first() {
        if let Some(bad) = lacks(known, seen, *holiday, first_place(at)) {
            return Some(bad);
        }
        seen = seen_with(seen, *holiday);
        rest = more;
        at = later_places(at);
    }
    None
}

// A fault at the first of some days of Easter at these places, if no years are given.
fn no_easter_years(
    years: Option<KnownYears>,
    easter: &[EasterDays],
    places: &[usize],
) -> Option<KnownFault>
    ensures { result ≡ no_easter_years years easter.now places.now }
{
    if easter.is_empty() {
        return None;
    }
    no_years(years, first_place(places))
}

// A fault at the slash of years without a last one, if no years are given.
fn no_last_year(years: Option<KnownYears>, place: Option<usize>) -> Option<KnownFault>
    ensures { result ≡ no_last_year years place }
{
    match place {
        None => None,
        Some(place) => no_years(years, place),
    }
}

/// What is not given for a rule: the years of its first years without a last one, of its first Easter, or what its holidays need.
pub(crate) fn rule_lacks(known: &Known, rule: &HolidayRule) -> Option<KnownFault>
    ensures { result ≡ rule_lacks known.now rule.now }
{
    if let Some(bad) = no_last_year(known.years, rule.every_place) {
        return Some(bad);
    }
    let easter = rule.easter.as_slice();
    if let Some(bad) = no_easter_years(known.years, easter, rule.easter_places.as_slice()) {
        return Some(bad);
    }
    none_given(known, rule.holidays.as_slice(), rule.places.as_slice())
}
