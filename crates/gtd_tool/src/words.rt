//! What the words of a command stand for.

ghost use Rattle.std.specs.Prelude.{◌≡◌, ◌≢◌, ◌⊎◌, [], ◌∷◌, IfErr, IfOk, Ok, Some, string_bytes};
ghost use Rattle.gtd_core.specs.Horizons.{IsHorizon};
ghost use Rattle.gtd_core.specs.Parts.{domain_tree};
ghost use Rattle.gtd_core.specs.Whole.{from_day, to_day};
ghost use Rattle.gtd_core.specs.Seconds.{day_of_second};
ghost use Rattle.gtd_calendar.specs.Read.{date_in, stamp_in};
ghost use Rattle.gtd_roads.specs.Columns.{direction_of, number_of};
ghost use Rattle.gtd_tool.specs.Readings.{AreDomainAndMoment, IsDomain, IsHorizonOf, IsNumberUpTo, DatePart, DaysPart};
ghost use Rattle.gtd_tool.specs.Readings.{DirectionPart, DomainPart, MomentPart, NumberPart, NumberUpToPart};
ghost use Rattle.gtd_tool.specs.Refusals.{AreNoHorizon, IsFaultOf, IsNoHorizon, IsStopped};

use crate::plans::{Moment, MomentInHorizon};
use crate::refusal::Refusal;
use gtd_calendar::{read_date, read_stamp};
use gtd_core::{Domain, Fault, Horizon, TextFault};
use gtd_roads::{Direction, read_direction, read_number};
use gtd_text::read_domain;
use std::alloc::Global;

/// The domain that a word stands for.
pub fn domain_of(alloc: Global, text: &str) -> Result<Domain, Refusal>
    ensures read { IfOk result (λ domain. IsDomain text.now (domain_tree domain)) }
    ensures stopped { IfErr result (IsStopped (DomainPart text.now ∷ [])) }
{
    match read_domain(alloc, text.as_bytes()) {
        Ok(domain) => Ok(domain),
        Err(fault) => Err(text_refusal(fault)),
    }
}

// A refusal of memory is not a fault of the text.
fn text_refusal(fault: TextFault) -> Refusal
    ensures { ((fault.kind ≡ Fault.NoMemory) × (result ≡ Refusal.Memory))
        ⊎ ((fault.kind ≢ Fault.NoMemory) × (result ≡ Refusal.Text fault)) }
{
    match fault.kind {
        Fault::NoMemory => Refusal::Memory,
        _ => Refusal::Text(fault),
    }
}

// The moment that a word stands for. No memory is taken, so each error is a fault of the word.
fn moment_of(text: &str) -> Result<Moment, Refusal>
    ensures read { IfOk result (λ moment. stamp_in text.now ≡ Ok moment.second) }
    ensures stopped { IfErr result (IsStopped (MomentPart text.now ∷ [])) }
    ensures fault { IfErr result (IsFaultOf (MomentPart text.now)) }
{
    match read_stamp(text.as_bytes()) {
        Ok(second) => Ok(Moment { second }),
        Err(fault) => Err(Refusal::Moment(fault)),
    }
}

/// The day that a word stands for.
pub fn date_of(text: &str) -> Result<i64, Refusal>
    ensures read { IfOk result (λ day. date_in text.now ≡ Ok day) }
    ensures stopped { IfErr result (IsStopped (DatePart text.now ∷ [])) }
    ensures fault { IfErr result (IsFaultOf (DatePart text.now)) }
{
    match read_date(text.as_bytes()) {
        Ok(day) => Ok(day),
        Err(fault) => Err(Refusal::Date(fault)),
    }
}

/// The moment, in the horizon from its own day up to but not including the day `to`.
pub fn in_horizon(moment: Moment, to: i64) -> Result<MomentInHorizon, Refusal>
    ensures read { IfOk result (λ x. (x.second ≡ moment.second) × (to_day x.horizon ≡ to)
        × IsHorizon (day_of_second moment.second.0) to) }
    ensures fault { IfErr result (IsNoHorizon moment.second to) }
{
    let second = moment.second;
    match Horizon::new(second.day(), to) {
        Ok(horizon) => Ok(MomentInHorizon { second, horizon }),
        Err(fault) => Err(Refusal::Horizon(fault)),
    }
}

/// The domain and the moment that two words stand for.
pub fn domain_and_moment(
    alloc: Global,
    domain: &str,
    moment: &str,
) -> Result<(Domain, Moment), Refusal>
    ensures read { IfOk result (λ p.
        AreDomainAndMoment domain.now moment.now (domain_tree p.0) p.1.second) }
    ensures stopped { IfErr result
        (IsStopped (DomainPart domain.now ∷ MomentPart moment.now ∷ [])) }
{
    let domain = domain_of(alloc, domain)?;
    let moment = moment_of(moment)?;
    Ok((domain, moment))
}

/// The number that a word stands for.
pub fn number_in(text: &str) -> Result<u64, Refusal>
    ensures read { IfOk result (λ n. number_of text.now ≡ Some n) }
    ensures stopped { IfErr result (IsStopped (NumberPart text.now ∷ [])) }
    ensures fault { IfErr result (IsFaultOf (NumberPart text.now)) }
{
    match read_number(text.as_bytes()) {
        Some(number) => Ok(number),
        None => Err(Refusal::Usage),
    }
}

/// The direction that a word stands for.
pub fn direction_in(text: &str) -> Result<Direction, Refusal>
    ensures read { IfOk result (λ direction. direction_of text.now ≡ Some direction) }
    ensures stopped { IfErr result (IsStopped (DirectionPart text.now ∷ [])) }
    ensures fault { IfErr result (IsFaultOf (DirectionPart text.now)) }
{
    match read_direction(text.as_bytes()) {
        Some(direction) => Ok(direction),
        None => Err(Refusal::Usage),
    }
}

/// The vehicle type that a word stands for. A greater number is taken as 255: the run refuses either in the same way.
pub fn vehicle_in(text: &str) -> Result<u8, Refusal>
    ensures read { IfOk result (IsNumberUpTo 255 text.now) }
    ensures stopped { IfErr result (IsStopped (NumberUpToPart 255 text.now ∷ [])) }
{
    let number = number_in(text)?;
    Ok(if number <= 255 { number as u8 } else { 255 })
}

/// The year that a word stands for. A greater number is taken as 65,535: the run refuses either in the same way.
pub fn year_in(text: &str) -> Result<u16, Refusal>
    ensures read { IfOk result (IsNumberUpTo 65535 text.now) }
    ensures stopped { IfErr result (IsStopped (NumberUpToPart 65535 text.now ∷ [])) }
{
    let number = number_in(text)?;
    Ok(if number <= 65_535 {
        number as u16
    } else {
        65_535
    })
}

// The horizon from one day up to but not including another.
fn horizon_between(from: i64, to: i64) -> Result<Horizon, Refusal>
    ensures read { IfOk result (λ h. (from_day h ≡ from) × (to_day h ≡ to)) }
    ensures fault { IfErr result (AreNoHorizon from to) }
{
    match Horizon::new(from, to) {
        Ok(horizon) => Ok(horizon),
        Err(fault) => Err(Refusal::Horizon(fault)),
    }
}

/// The horizon that two words for days stand for.
pub fn days_in(from: &str, to: &str) -> Result<Horizon, Refusal>
    ensures read { IfOk result (IsHorizonOf from.now to.now) }
    ensures stopped { IfErr result (IsStopped
        (DatePart from.now ∷ DatePart to.now ∷ DaysPart from.now to.now ∷ [])) }
{
    let first = date_of(from)?;
    let last = date_of(to)?;
    horizon_between(first, last)
}

/// A copy of a word's text, for a plan to keep.
pub fn owned(alloc: Global, text: &str) -> Result<String, Refusal>
    ensures kept { IfOk result (λ copy. string_bytes copy ≡ text.now) }
    ensures cause { IfErr result (λ r. r ≡ Refusal.Memory) }
{
    match String::from_str(alloc, text) {
        Ok(copy) => Ok(copy),
        Err(_) => Err(Refusal::Memory),
    }
}
