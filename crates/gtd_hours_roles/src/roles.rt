//! What becomes of an item, by what stands behind and before it.

ghost use Rattle.std.specs.Prelude.{◌≡◌};
ghost use Rattle.gtd_hours_roles.specs.Roles.{begun_role, bracket_role, colon_role, comma_role, comment_role, dash_role};
ghost use Rattle.gtd_hours_roles.specs.Roles.{dates_comma, dates_go_on, days_comma, easter_role, every_role, first_role};
ghost use Rattle.gtd_hours_roles.specs.Roles.{holiday_role, joined_role, kept_if, month_role, number_role, remark_role};
ghost use Rattle.gtd_hours_roles.specs.Roles.{role_in, role_of, separates, sign_role, takes_year, token_role};
ghost use Rattle.gtd_hours_roles.specs.Roles.{weekday_role};

use crate::behind::{Behind, Last, Position, is_commented, is_faulty};
use crate::role::Role;
use gtd_hours::Link;
use gtd_hours_days::{EasterDays, Listed};
use gtd_hours_items::{
    Item, What, begins_bracket, begins_date, begins_dates, begins_holiday, begins_month,
    begins_month_days, begins_number, begins_time, begins_weekday, begins_year, leads, places,
};
use gtd_hours_tokens::TokenKind;

// A holiday where a list of days begins.
fn first_role(holiday: Listed, later: &[Item]) -> Role
    ensures { result ≡ first_role holiday later.now }
{
    if leads(later) {
        Role::Leading(holiday)
    } else {
        Role::Listed(holiday)
    }
}

// A holiday in a list with weekdays, where holidays lead it or not.
fn joined_role(led: bool, last: Last, holiday: Listed) -> Role
    ensures { result ≡ joined_role led last holiday }
{
    match last {
        Last::Comma => {
            if led {
                Role::Doubtful
            } else {
                Role::Listed(holiday)
            }
        }
        Last::Unfinished => Role::Misfit,
        Last::Dash => Role::Misfit,
        _ => Role::Doubtful,
    }
}

fn holiday_role(behind: Behind, last: Last, holiday: Listed, later: &[Item]) -> Role
    ensures { result ≡ holiday_role behind last holiday later.now }
{
    match behind {
        Behind::Front => first_role(holiday, later),
        Behind::Years => first_role(holiday, later),
        Behind::MonthDays => first_role(holiday, later),
        Behind::Moving { .. } => first_role(holiday, later),
        Behind::Weeks => first_role(holiday, later),
        Behind::Colon => first_role(holiday, later),
        Behind::Led { .. } => Role::Leading(holiday),
        Behind::Weekdays { led } => joined_role(led, last, holiday),
        _ => Role::Listed(holiday),
    }
}

fn kept_if(goes_on: bool) -> Role
    ensures { result ≡ kept_if goes_on }
{
    if goes_on {
        Role::Kept
    } else {
        Role::Begins(Link::Also)
    }
}

// A comma behind a list of days, with weekdays or without.
fn days_comma(weekdays: bool, later: &[Item]) -> Role
    ensures { result ≡ days_comma weekdays later.now }
{
    if begins_weekday(later) {
        if weekdays {
            Role::Kept
        } else {
            Role::Unwritten
        }
    } else if begins_holiday(later) {
        Role::Unwritten
    } else {
        Role::Begins(Link::Also)
    }
}

// Whether month days go on behind a comma: directly behind a range that moves or Easter not with the number of a day.
fn dates_go_on(last: Last, later: &[Item]) -> bool
    ensures { result ≡ dates_go_on last later.now }
{
    match last {
        Last::Dates => begins_date(later),
        Last::Easter => begins_date(later),
        _ => begins_month_days(later),
    }
}

// A comma behind a list of month days, with months or dates or without: with it the next of these begins.
fn dates_comma(beside: bool, last: Last, later: &[Item]) -> Role
    ensures { result ≡ dates_comma beside last later.now }
{
    if begins_dates(later) {
        Role::Unwritten
    } else if dates_go_on(last, later) {
        if beside {
            Role::MonthDay
        } else {
            Role::Unwritten
        }
    } else {
        Role::Begins(Link::Also)
    }
}

fn comma_role(behind: Behind, last: Last, later: &[Item]) -> Role
    ensures { result ≡ comma_role behind last later.now }
{
    match behind {
        Behind::Led { .. } => Role::Gone,
        Behind::Holidays => days_comma(false, later),
        Behind::Weekdays { .. } => days_comma(true, later),
        Behind::Mixed => days_comma(true, later),
        Behind::Years => kept_if(begins_year(later)),
        Behind::MonthDays => dates_comma(true, last, later),
        Behind::Moving { beside } => dates_comma(beside, last, later),
        Behind::Weeks => kept_if(begins_number(later)),
        Behind::Times => kept_if(begins_time(later)),
        Behind::Places { .. } => Role::Weekdays(places(later)),
        _ => Role::Begins(Link::Also),
    }
}

// A weekday that does not end a range: one selector, or one for each of its places in brackets.
fn begun_role(later: &[Item]) -> Role
    ensures { result ≡ begun_role later.now }
{
    if begins_bracket(later) {
        Role::Kept
    } else {
        Role::Weekdays(1)
    }
}

// A weekday: directly behind a holiday in a list with weekdays it is read in two ways.
fn weekday_role(behind: Behind, last: Last, later: &[Item]) -> Role
    ensures { result ≡ weekday_role behind last later.now }
{
    match behind {
        Behind::Mixed => match last {
            Last::Comma => begun_role(later),
            _ => Role::Doubtful,
        },
        _ => match last {
            Last::Dash => Role::Kept,
            _ => begun_role(later),
        },
    }
}

// A sign or a bracket, which becomes this where no holidays stand: these have none.
fn bracket_role(role: Role, behind: Behind) -> Role
    ensures { result ≡ bracket_role role behind }
{
    match behind {
        Behind::Holidays => Role::Misfit,
        Behind::Mixed => Role::Misfit,
        _ => role,
    }
}

// A sign: holidays and Easter have no more offsets here, and ranges that move have none.
fn sign_role(behind: Behind, last: Last) -> Role
    ensures { result ≡ sign_role behind last }
{
    match last {
        Last::Dates => Role::Misfit,
        Last::Easter => Role::Misfit,
        _ => bracket_role(Role::Kept, behind),
    }
}

// A dash, which is the sign of an offset or goes on with a range: with none behind places, before a month.
fn dash_role(behind: Behind, last: Last, later: &[Item]) -> Role
    ensures { result ≡ dash_role behind last later.now }
{
    match last {
        Last::Bracket => {
            if begins_month(later) {
                Role::Misfit
            } else {
                bracket_role(Role::Kept, behind)
            }
        }
        _ => sign_role(behind, last),
    }
}

// Whether a year can begin here: the first one of a rule, or one behind a comma.
fn takes_year(behind: Behind, last: Last) -> bool
    ensures { result ≡ takes_year behind last }
{
    match behind {
        Behind::Front => true,
        Behind::Years => match last {
            Last::Comma => true,
            _ => false,
        },
        _ => false,
    }
}

// A number: none stands directly behind a range that moves or Easter.
fn number_role(behind: Behind, last: Last, digits: u8) -> Role
    ensures { result ≡ number_role behind last digits }
{
    match last {
        Last::Dates => Role::Misfit,
        Last::Easter => Role::Misfit,
        _ => {
            if takes_year(behind, last) && digits == 4 {
                Role::Year
            } else {
                Role::Kept
            }
        }
    }
}

// Years without a last one, which are a number and more where no year can begin.
fn every_role(behind: Behind, last: Last, place: usize) -> Role
    ensures { result ≡ every_role behind last place }
{
    match last {
        Last::Dates => Role::Misfit,
        Last::Easter => Role::Misfit,
        _ => {
            if takes_year(behind, last) {
                Role::Every { place }
            } else {
                Role::Kept
            }
        }
    }
}

// Days of Easter: a dash directly before them goes on with no range.
fn easter_role(last: Last, days: EasterDays, place: usize) -> Role
    ensures { result ≡ easter_role last days place }
{
    match last {
        Last::Dash => Role::Kept,
        _ => Role::Known { days, place },
    }
}

// A colon: the rule's own text has none behind ranges that move and Easter.
fn colon_role(behind: Behind) -> Role
    ensures { result ≡ colon_role behind }
{
    match behind {
        Behind::Moving { .. } => Role::Unwritten,
        _ => Role::Kept,
    }
}

// A month: the first of a rule's own month days begins with it.
fn month_role(behind: Behind) -> Role
    ensures { result ≡ month_role behind }
{
    match behind {
        Behind::Front => Role::MonthDay,
        Behind::Years => Role::MonthDay,
        Behind::Moving { beside } => { if beside { Role::Kept } else { Role::MonthDay } }
        _ => Role::Kept,
    }
}

fn token_role(behind: Behind, last: Last, kind: TokenKind, later: &[Item]) -> Role
    ensures { result ≡ token_role behind last kind later.now }
{
    match kind {
        TokenKind::Comma => comma_role(behind, last, later),
        TokenKind::Semicolon => Role::Begins(Link::Instead),
        TokenKind::Month(_) => month_role(behind),
        TokenKind::Weekday(_) => weekday_role(behind, last, later),
        TokenKind::OpenBracket => bracket_role(Role::Weekdays(places(later)), behind),
        TokenKind::Plus => sign_role(behind, last),
        TokenKind::Dash => dash_role(behind, last, later),
        TokenKind::Number { digits, .. } => number_role(behind, last, digits),
        TokenKind::Colon => colon_role(behind),
        _ => Role::Kept,
    }
}

// A comment that says something of its rule: one with times, or of all days and times, is open, and others are unknown.
fn remark_role(behind: Behind) -> Role
    ensures { result ≡ remark_role behind }
{
    match behind {
        Behind::Times => Role::Remark,
        Behind::Done => Role::Remark,
        _ => Role::UnknownComment,
    }
}

fn comment_role(behind: Behind, last: Last) -> Role
    ensures { result ≡ comment_role behind last }
{
    match last {
        Last::Modifier => Role::Silent,
        Last::NoComment => Role::Misfit,
        _ => remark_role(behind),
    }
}

// What becomes of an item that has no such comment before it.
fn role_in(position: Position, what: What, later: &[Item]) -> Role
    ensures { result ≡ role_in position what later.now }
{
    match what {
        What::Holiday(holiday) => holiday_role(position.behind, position.last, holiday, later),
        What::Token(kind) => token_role(position.behind, position.last, kind, later),
        What::Dates(days) => Role::Dated(days),
        What::NoDates { .. } => Role::Undated,
        What::Easter { days, place } => easter_role(position.last, days, place),
        What::Every { place } => every_role(position.behind, position.last, place),
        What::Comment => comment_role(position.behind, position.last),
        What::Fallback => Role::Fallback,
        What::Unknown => Role::UnknownWord,
    }
}

// Whether another rule can begin behind it.
fn separates(what: What) -> bool
    ensures { result ≡ separates what }
{
    match what {
        What::Token(TokenKind::Comma) => true,
        What::Token(TokenKind::Semicolon) => true,
        What::Fallback => true,
        _ => false,
    }
}

/// What becomes of an item at a position, where these come behind it.
pub fn role_of(position: Position, item: Item, later: &[Item]) -> Role
    ensures { result ≡ role_of position item later.now }
{
    if is_faulty(position.last) || (is_commented(position.behind) && !separates(item.what)) {
        Role::Misfit
    } else {
        role_in(position, item.what, later)
    }
}
