//! The hours that a text with options stands for.

ghost use Rattle.std.specs.Prelude.{◌≡◌, IfErr, IfOk, None};
ghost use Rattle.gtd_hours_known.specs.Reading.{IsKnownFault, IsKnownStop};
ghost use Rattle.gtd_hours_options.specs.Reading.{HasTimes, IsGiven, IsOptionsStop, IsOtherStop, IsPlainReading, IsRead};
ghost use Rattle.gtd_hours_options.specs.Reading.{IsTimesStop, StandsWith, checked_stop, plain_stop};

use crate::fault::{OptionsFault, OptionsReadFault, stopped};
use crate::first::{checked_fault, has_times, time_fault};
use crate::options::Options;
use crate::told::{placed_fault, placed_read};
use gtd_hours_known::{Known, KnownFault, KnownHours, KnownReadFault, read_known_hours};
use gtd_hours_moments::{Clocks, MomentText, Placed, moment_text, plain_text};
use std::alloc::Global;

/// The hours that a text stands for as it is written, with these options.
///
/// A text that [`read_known_hours`] reads is read so. A text without times, in which no time breaks off and no parenthesis
/// stands, has the fault that it has there. Errors, the first in this order: a byte with which no token begins; the first fault
/// of the text, or a place that people read in two ways; from left to right, the first time for which something is not given,
/// and the first holiday for which there is no table, or no years are given; the first time that lasts too long; `Uncovered` at
/// the first holiday of whose kind the table does not say all in the years. `NoMemory` is answered only if memory was refused.
/// That there is no fault behind these, where plain hours stand in place of the times, is not proved; no text is known with one,
/// and it would come last, at the place for which the plain hours stand.
pub fn read_hours_with(
    alloc: Global,
    text: &[u8],
    options: &Options,
) -> Result<KnownHours, OptionsReadFault>
    ensures hours { IfOk result (StandsWith options.now text.now) }
    ensures form { IfOk result (λ read. read.form ≡ None) }
    ensures fault { IfErr result (IsOptionsStop options.now text.now) }
{
    match read_known_hours(alloc, text, &options.known) {
        Ok(read) => Ok(read),
        Err(why) => match why {
            KnownReadFault::NoMemory => Err(OptionsReadFault::NoMemory),
            KnownReadFault::Fault(bad) => read_other(alloc, text, bad, options),
        },
    }
}

// The hours of a text that has this fault without options for times.
fn read_other(
    alloc: Global,
    text: &[u8],
    bad: KnownFault,
    options: &Options,
) -> Result<KnownHours, OptionsReadFault>
    requires { IsKnownFault options.now.known text.now bad }
    ensures hours { IfOk result (StandsWith options.now text.now) }
    ensures form { IfOk result (λ read. read.form ≡ None) }
    ensures fault { IfErr result (IsOtherStop options.now text.now bad) }
{
    match moment_text(alloc, text) {
        Err(why) => Err(stopped(why)),
        Ok(moments) => {
            if has_times(&moments) {
                read_times(alloc, text, &moments, options)
            } else {
                Err(OptionsReadFault::Fault(OptionsFault::Known(bad)))
            }
        }
    }
}

// The hours of a text with times.
fn read_times(
    alloc: Global,
    text: &[u8],
    moments: &MomentText,
    options: &Options,
) -> Result<KnownHours, OptionsReadFault>
    requires { HasTimes text.now moments.now }
    ensures given { IfOk result (λ read. IsGiven options.now text.now moments.now) }
    ensures hours { IfOk result (IsPlainReading options.now text.now) }
    ensures form { IfOk result (λ read. read.form ≡ None) }
    ensures fault { IfErr result (IsTimesStop options.now text.now) }
{
    match check_known(alloc, moments.checked.text.as_slice(), &options.known) {
        Err(why) => Err(checked_stop(text.len(), moments, &options.clocks, why)),
        Ok(()) => read_checked(alloc, text, moments, options),
    }
}

// The hours of a text with times whose checked text is hours.
fn read_checked(
    alloc: Global,
    text: &[u8],
    moments: &MomentText,
    options: &Options,
) -> Result<KnownHours, OptionsReadFault>
    requires times { HasTimes text.now moments.now }
    requires checked { IsRead options.now.known moments.now.checked.text.items }
    ensures given { IfOk result (λ read. IsGiven options.now text.now moments.now) }
    ensures hours { IfOk result (IsPlainReading options.now text.now) }
    ensures form { IfOk result (λ read. read.form ≡ None) }
    ensures fault { IfErr result (IsTimesStop options.now text.now) }
{
    match time_fault(moments, &options.clocks) {
        Some(bad) => Err(OptionsReadFault::Fault(bad)),
        None => read_plain(alloc, text, moments, options),
    }
}

// The hours of a text for whose times all is given: those of its plain text.
fn read_plain(
    alloc: Global,
    text: &[u8],
    moments: &MomentText,
    options: &Options,
) -> Result<KnownHours, OptionsReadFault>
    requires { IsGiven options.now text.now moments.now }
    ensures hours { IfOk result (IsPlainReading options.now text.now) }
    ensures form { IfOk result (λ read. read.form ≡ None) }
    ensures fault { IfErr result (IsTimesStop options.now text.now) }
{
    match plain_text(alloc, text, &options.clocks) {
        Err(why) => Err(stopped(why)),
        Ok(plain) => match read_known_hours(alloc, plain.text.as_slice(), &options.known) {
            Err(why) => Err(plain_stop(text.len(), plain.places.as_slice(), why)),
            Ok(read) => match placed_read(alloc, text.len(), plain.places.as_slice(), read) {
                Err(_) => Err(OptionsReadFault::NoMemory),
                Ok(read) => Ok(read),
            },
        },
    }
}

// Whether a text is hours with what is known of holidays, or why it is not.
fn check_known(alloc: Global, text: &[u8], known: &Known) -> Result<(), KnownReadFault>
    ensures read { IfOk result (λ done. IsRead known.now text.now) }
    ensures fault { IfErr result (IsKnownStop known.now text.now) }
{
    read_known_hours(alloc, text, known)?;
    Ok(())
}

// Why a checked text is not read, and so the text with so many bytes.
fn checked_stop(
    end: usize,
    moments: &MomentText,
    clocks: &Clocks,
    why: KnownReadFault,
) -> OptionsReadFault
    ensures { result ≡ checked_stop end moments.now clocks.now why }
{
    match why {
        KnownReadFault::NoMemory => OptionsReadFault::NoMemory,
        KnownReadFault::Fault(bad) => {
            OptionsReadFault::Fault(checked_fault(end, moments, clocks, bad))
        }
    }
}

// Why a plain text of these forms is not read, at its place in the text with so many bytes.
fn plain_stop(end: usize, places: &[Placed], why: KnownReadFault) -> OptionsReadFault
    ensures { result ≡ plain_stop end places.now why }
{
    match why {
        KnownReadFault::NoMemory => OptionsReadFault::NoMemory,
        KnownReadFault::Fault(bad) => {
            OptionsReadFault::Fault(OptionsFault::Known(placed_fault(end, places, bad)))
        }
    }
}
