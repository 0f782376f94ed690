//! From the tokens of a part to its value: years and weeks.

ghost use Rattle.std.specs.Prelude.{◌≡◌, ◌==◌, ◌≤◌, Result, Ok, Err, drop, IfOk};
ghost use Rattle.gtd_hours_grammar2.specs.Steps.{code};
ghost use Rattle.gtd_hours_text2.specs.Parts.{Gives, class_of, is, number, number_class, place_of, step, weeks, week_step, year, years, years_on, years_to};
ghost use Rattle.gtd_hours_text2.specs.Parts.{endless, goes_on, stepped};
ghost use Rattle.gtd_hours2.specs.Opening.{are_many};

use gtd_hours_grammar2::Class;
use gtd_hours_tokens2::{Token, TokenKind};
use gtd_hours2::RulePart;

fn number_class(value: u16, digits: u8) -> Class
    ensures { result ≡ number_class value digits }
{
    if digits == 4 {
        Class::Year
    } else if digits == 2 && value == 24 {
        Class::Twenty
    } else {
        Class::Number
    }
}

/// What a token is to the grammar.
pub fn class_of(kind: TokenKind) -> Class
    ensures { result ≡ class_of kind }
{
    match kind {
        TokenKind::Number { value, digits } => number_class(value, digits),
        TokenKind::Time { .. } => Class::Time,
        TokenKind::Month(_) => Class::Month,
        TokenKind::Weekday(_) => Class::Weekday,
        TokenKind::PublicHoliday => Class::PublicHoliday,
        TokenKind::SchoolHoliday => Class::SchoolHoliday,
        TokenKind::Easter => Class::Easter,
        TokenKind::Week => Class::Week,
        TokenKind::Event(_) => Class::Event,
        TokenKind::Word(_) => Class::Word,
        TokenKind::Day => Class::Day,
        TokenKind::Comment => Class::Comment,
        TokenKind::Comma => Class::Comma,
        TokenKind::Semicolon => Class::Semicolon,
        TokenKind::Bars => Class::Bars,
        TokenKind::Dash => Class::Dash,
        TokenKind::Slash => Class::Slash,
        TokenKind::Colon => Class::Colon,
        TokenKind::Open => Class::Open,
        TokenKind::Close => Class::Close,
        TokenKind::Plus => Class::Plus,
        TokenKind::Paren => Class::Paren,
        TokenKind::Unparen => Class::Unparen,
    }
}

fn same(one: Class, other: Class) -> bool
    ensures { result ≡ (code one == code other) }
{
    one as u8 == other as u8
}

pub(crate) fn is(class: Class, tokens: &[Token]) -> bool
    ensures { result ≡ is class tokens.now }
{
    match tokens {
        [] => false,
        [token, ..] => same(class_of(token.kind), class),
    }
}

pub(crate) fn after(tokens: &[Token]) -> &[Token]
    ensures { result.now ≡ drop 1 tokens.now }
{
    match tokens {
        [] => tokens,
        [_, rest @ ..] => rest,
    }
}

/// The offset of the first token, or 0.
pub fn place_of(tokens: &[Token]) -> u16
    ensures { result ≡ place_of tokens.now }
{
    match tokens {
        [] => 0,
        [token, ..] => token.from,
    }
}

pub(crate) fn number(
    most: u8,
    low: u16,
    high: u16,
    tokens: &[Token],
) -> Result<(u16, &[Token]), u16>
    ensures { Gives (λ x. (x.0, x.1.now)) result (number most low high tokens.now) }
{
    match tokens {
        [] => Err(0),
        [token, rest @ ..] => match token.kind {
            TokenKind::Number { value, digits } => {
                if digits <= most && low <= value && value <= high {
                    Ok((value, rest))
                } else {
                    Err(token.from)
                }
            }
            _ => Err(token.from),
        },
    }
}

pub(crate) fn year(low: u16, tokens: &[Token]) -> Result<(u16, &[Token]), u16>
    ensures { Gives (λ x. (x.0, x.1.now)) result (year low tokens.now) }
{
    if is(Class::Year, tokens) {
        number(4, low, 2799, tokens)
    } else {
        Err(place_of(tokens))
    }
}

fn step(tokens: &[Token]) -> Result<(u16, &[Token]), u16>
    ensures { Gives (λ x. (x.0, x.1.now)) result (step tokens.now) }
{
    number(4, 1, 9999, tokens)
}

// Whether years that end with 2799 have no last year: they go on to it anyway.
fn goes_on(first: u16, last: u16, step: u16) -> bool
    ensures { result ≡ goes_on first last step }
{
    last == 2799
        && if step == 1 {
            first < 2799
        } else {
            !are_many(first, step)
        }
}

fn are_many(first: u16, step: u16) -> bool
    ensures { result ≡ are_many first step }
{
    1 < step && u32::from(first) + 128 * u32::from(step) <= 2799
}

fn stepped(first: u16, last: u16, step: u16) -> RulePart
    ensures { result ≡ stepped first last step }
{
    RulePart::Years {
        first,
        last: if goes_on(first, last, step) {
            None
        } else {
            Some(last)
        },
        step,
    }
}

// Years without a last one.
fn endless(first: u16, step: u16) -> RulePart
    ensures { result ≡ endless first step }
{
    if step == 1 {
        return stepped(first, 2799, 1);
    }
    RulePart::Years {
        first,
        last: None,
        step,
    }
}

fn years_on(first: u16, tokens: &[Token]) -> Result<RulePart, u16>
    ensures { Gives (λ x. x) result (years_on first tokens.now) }
{
    if is(Class::Plus, tokens) {
        return Ok(endless(first, 1));
    }
    if is(Class::Slash, tokens) {
        let (step, _) = step(after(tokens))?;
        return Ok(endless(first, step));
    }
    if is(Class::Dash, tokens) {
        return years_to(first, after(tokens));
    }
    Ok(RulePart::Years {
        first,
        last: Some(first),
        step: 1,
    })
}

fn years_to(first: u16, tokens: &[Token]) -> Result<RulePart, u16>
    ensures { Gives (λ x. x) result (years_to first tokens.now) }
{
    let (last, rest) = year(first, tokens)?;
    if is(Class::Slash, rest) {
        let (step, _) = step(after(rest))?;
        return Ok(stepped(first, last, step));
    }
    Ok(stepped(first, last, 1))
}

/// `2024`, `2024-2030/2`, `2024+`
pub(crate) fn years(tokens: &[Token]) -> Result<RulePart, u16>
    ensures { Gives (λ x. x) result (years tokens.now) }
{
    let (first, rest) = year(1800, tokens)?;
    years_on(first, rest)
}

fn week_step(first: u8, last: u8, place: u16, tokens: &[Token]) -> Result<RulePart, u16>
    ensures { Gives (λ x. x) result (week_step first last place tokens.now) }
{
    if !is(Class::Slash, tokens) {
        return Ok(RulePart::Weeks {
            first,
            last,
            step: 1,
        });
    }
    if last < first {
        return Err(place);
    }
    let (step, _) = step(after(tokens))?;
    Ok(RulePart::Weeks { first, last, step })
}

fn week(tokens: &[Token]) -> Result<(u8, &[Token]), u16>
    ensures read { Gives (λ x. (x.0, x.1.now)) result (number 2 1 53 tokens.now) }
    ensures small { IfOk result (λ x. x.0 ≤ 53) }
{
    match number(2, 1, 53, tokens) {
        Ok((value, rest)) => Ok((value as u8, rest)),
        Err(place) => Err(place),
    }
}

/// `10`, `10-20/2`, `46-12`
pub(crate) fn weeks(tokens: &[Token]) -> Result<RulePart, u16>
    ensures { Gives (λ x. x) result (weeks tokens.now) }
{
    let (first, rest) = week(tokens)?;
    if !is(Class::Dash, rest) {
        return Ok(RulePart::Weeks {
            first,
            last: first,
            step: 1,
        });
    }
    let tokens = after(rest);
    let (last, rest) = week(tokens)?;
    week_step(first, last, place_of(tokens), rest)
}
