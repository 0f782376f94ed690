//! The command `hours` of a text, with options: a table says which days are holidays in the years that are given, and clock times
//! stand for what the text leaves open.

ghost use Rattle.std.specs.Prelude.{◌≡◌, ◌<◌, ◌++◌, ℕ, Bool, None, Some, IfErr, IfOk, OnOk, string_bytes};
ghost use Rattle.gtd_hours_options.specs.Manners.{IsReadingWithIn};
ghost use Rattle.gtdesk_tool.specs.TextHours as spec;
ghost use Rattle.gtdesk_tool.specs.TextHours.{AreLinesWith, AreWarningLines, HasListed, IsNothingGiven, IsRefusedWith};
ghost use Rattle.gtdesk_tool.specs.TextHours.{IsUnreadWith, RanHoursPlan, RanText, RanWithTable, manner_in, options_by};
ghost use Rattle.gtdesk_tool.specs.Running.{failures_after_read, failures_after_write};
ghost use Rattle.gtdesk_tool.specs.Telling.{telling};

use crate::ending::Ending;
use crate::hours_records::tell;
use crate::loose_hours::{BEFORE, Lines, domain_line, manner_of, put_lines};
use crate::refusal::RunRefusal;
use gtd_core::limits::MOST_FILE_BYTES;
use gtd_devices::{Input, InputFault, Output, read_whole};
use gtd_faults::Printable;
use gtd_hours_holidays::{
    Holidays, HolidaysFault, HolidaysFaultText, KnownYears, Unread, read_holidays,
};
use gtd_hours_known::{Known, KnownHours};
use gtd_hours_loose::Manner;
use gtd_hours_moments::Clocks;
use gtd_hours_options::{Options, OptionsReadFault, read_hours_with_in};
use gtd_hours_warnings::{push_lines, warnings_with};
use gtd_records::RecordFault;
use gtdesk_plans::{HoursOptions, HoursPlan};
use gtdesk_words::NoDomain;
use std::alloc::{AllocError, Global};

/// A text of hours with its options, and the path of the table of holidays, if one is given.
#[derive(Clone, Copy)]
pub(crate) struct HoursTurn<'a> {
    /// The path, as faults name it.
    pub(crate) path: &'a str,
    /// The text with its options.
    pub(crate) plan: &'a HoursPlan,
}

/// The options with which texts are read, from those of a plan and the table of holidays, if there is one.
pub(crate) fn options_with(table: Option<Holidays>, given: &HoursOptions) -> Options
    ensures { result ≡ options_by table given.now }
{
    Options {
        known: Known {
            holidays: table,
            years: given.years,
        },
        clocks: given.clocks,
    }
}

/// The options with which nothing is given.
pub(crate) fn nothing_given() -> Options
    ensures { IsNothingGiven result }
{
    Options {
        known: Known {
            holidays: None,
            years: None,
        },
        clocks: Clocks {
            open_end: None,
            points: None,
            sunrise: None,
            sunset: None,
            dawn: None,
            dusk: None,
        },
    }
}

/// Why a text is not read.
pub(crate) fn unread(fault: OptionsReadFault) -> RunRefusal
    ensures { result ≡ spec.unread fault }
{
    match fault {
        OptionsReadFault::Fault(fault) => RunRefusal::NoDomain(NoDomain::Fault(fault)),
        OptionsReadFault::NoMemory => RunRefusal::Memory,
    }
}

// The hours that the text stands for, with its strict form if it is written loosely.
fn read(
    alloc: Global,
    text: &str,
    manner: Manner,
    options: &Options,
) -> Result<KnownHours, RunRefusal>
    ensures read { IfOk result (IsReadingWithIn manner options.now text.now) }
    ensures refused { IfErr result (IsUnreadWith options.now manner text.now) }
{
    match read_hours_with_in(alloc, text.as_bytes(), manner, options) {
        Ok(read) => Ok(read),
        Err(fault) => Err(unread(fault)),
    }
}

// The lines of the warnings of a text from which these hours are read.
fn warning_lines(
    alloc: Global,
    text: &str,
    read: &KnownHours,
    years: Option<KnownYears>,
) -> Result<Vec<u8>, AllocError>
    ensures { IfOk result (λ lines. AreWarningLines text.now read.now years lines.items) }
{
    let warnings = warnings_with(alloc, text.as_bytes(), read, years)?;
    let mut lines = Vec::new(alloc);
    push_lines(&mut lines, BEFORE, warnings.as_slice())?;
    Ok(lines)
}

// The lines of the text.
fn lines_of(
    alloc: Global,
    text: &str,
    manner: Manner,
    options: &Options,
) -> Result<Lines, RunRefusal>
    ensures lines { IfOk result (λ lines.
        AreLinesWith options.now manner text.now (string_bytes lines.domain) lines.warnings.items) }
    ensures refused { IfErr result (IsRefusedWith options.now manner text.now) }
{
    let read = match read(alloc, text, manner, options) {
        Ok(read) => read,
        Err(refusal) => return Err(refusal),
    };
    let domain = match domain_line(alloc, &read.hours) {
        Ok(domain) => domain,
        Err(refusal) => return Err(refusal),
    };
    match warning_lines(alloc, text, &read, options.known.years) {
        Ok(warnings) => Ok(Lines { domain, warnings }),
        Err(_) => Err(RunRefusal::Memory),
    }
}

// Puts the domain of the text, ends the output, and tells its warnings.
fn print_with<O: Output, E: Output>(
    alloc: Global,
    output: &mut O,
    errors: &mut E,
    plan: &HoursPlan,
    options: &Options,
) -> Result<Ending, RunRefusal>
    requires writable { O.failure_count output.old < u64.MAX }
    requires tellable { E.failure_count errors.old < u64.MAX }
    ensures ran { RanText options.now (manner_in plan.now.options) (string_bytes plan.now.text)
        (O.taken output.old) (O.taken output.new) (O.is_ended output.new)
        (telling (E.taken errors.old) (E.taken errors.new) (E.failure_count errors.old) (E.failure_count errors.new)) result }
    ensures write_faults { O.failure_count output.new
        ≡ failures_after_write result (O.failure_count output.old) }
{
    match lines_of(
        alloc,
        plan.text.as_str(),
        manner_of(plan.options.strict, plan.options.names),
        options,
    ) {
        Ok(lines) => put_lines(output, errors, &lines),
        Err(refusal) => Err(refusal),
    }
}

// Appends the line of a fault of the table with this path.
fn push_fault(lines: &mut String, path: &str, fault: HolidaysFault) -> Result<(), AllocError>
    ensures { OnOk result (string_bytes lines.new ≡ string_bytes lines.old ++ spec.table_line path.now fault) }
{
    let path = Printable(path.as_bytes());
    let words = HolidaysFaultText(fault);
    write!(lines, "gtdesk: {path}: {words}\n")
}

// The lines of the faults of the table with this path.
fn table_lines(alloc: Global, path: &str, faults: &[HolidaysFault]) -> Result<String, AllocError>
    ensures { IfOk result (λ lines. string_bytes lines ≡ spec.table_lines path.now faults.now) }
{
    let mut lines = String::new(alloc);
    let mut rest = faults;
    while let Some((fault, later)) = rest.split_first() {
        push_fault(&mut lines, path, *fault)?;
        rest = later;
    }
    Ok(lines)
}

/// Tells the faults of the table with this path.
pub(crate) fn list_faults<E: Output>(
    alloc: Global,
    errors: &mut E,
    path: &str,
    faults: &[HolidaysFault],
) -> Result<Ending, RunRefusal>
    requires tellable { E.failure_count errors.old < u64.MAX }
    ensures listed { HasListed path.now faults.now
        (telling (E.taken errors.old) (E.taken errors.new) (E.failure_count errors.old) (E.failure_count errors.new)) result }
{
    match table_lines(alloc, path, faults) {
        Ok(lines) => {
            tell(errors, lines.as_bytes());
            Ok(Ending::FaultsListed)
        }
        Err(_) => Err(RunRefusal::Memory),
    }
}

// Puts the domain of the text, by the table of holidays with these bytes; or tells the table's faults, if it has any.
fn print_by_bytes<O: Output, E: Output>(
    alloc: Global,
    bytes: &[u8],
    output: &mut O,
    errors: &mut E,
    turn: HoursTurn<'_>,
) -> Result<Ending, RunRefusal>
    requires writable { O.failure_count output.old < u64.MAX }
    requires tellable { E.failure_count errors.old < u64.MAX }
    ensures ran { (silent : Bool) → RanWithTable turn.entry.plan.now.options
        (string_bytes turn.entry.plan.now.text) turn.entry.path.now (Some bytes.now)
        (O.taken output.old) (O.taken output.new) silent (O.is_ended output.new)
        (telling (E.taken errors.old) (E.taken errors.new) (E.failure_count errors.old) (E.failure_count errors.new)) result }
    ensures unread { (n : ℕ) → n ≡ failures_after_read result n }
    ensures write_faults { O.failure_count output.new
        ≡ failures_after_write result (O.failure_count output.old) }
{
    match read_holidays(alloc, bytes) {
        Ok(table) => {
            let options = options_with(Some(table), &turn.plan.options);
            print_with(alloc, output, errors, turn.plan, &options)
        }
        Err(Unread::Faults(faults)) => list_faults(alloc, errors, turn.path, faults.as_slice()),
        Err(Unread::NoMemory) => Err(RunRefusal::Memory),
    }
}

// The same by the table that an input brings.
fn print_with_table<I: Input, O: Output, E: Output>(
    alloc: Global,
    input: &mut I,
    output: &mut O,
    errors: &mut E,
    turn: HoursTurn<'_>,
) -> Result<Ending, RunRefusal>
    requires readable { I.failure_count input.old < u64.MAX }
    requires writable { O.failure_count output.old < u64.MAX }
    requires tellable { E.failure_count errors.old < u64.MAX }
    ensures ran { RanWithTable turn.entry.plan.now.options
        (string_bytes turn.entry.plan.now.text) turn.entry.path.now (I.to_come input.old)
        (O.taken output.old) (O.taken output.new) (I.may_fall_silent input.old) (O.is_ended output.new)
        (telling (E.taken errors.old) (E.taken errors.new) (E.failure_count errors.old) (E.failure_count errors.new)) result }
    ensures read_faults { I.failure_count input.new
        ≡ failures_after_read result (I.failure_count input.old) }
    ensures write_faults { O.failure_count output.new
        ≡ failures_after_write result (O.failure_count output.old) }
{
    match read_whole(alloc, input, MOST_FILE_BYTES) {
        Ok(bytes) => print_by_bytes(alloc, bytes.as_slice(), output, errors, turn),
        Err(InputFault::TooLarge) => {
            list_faults(alloc, errors, turn.path, &[HolidaysFault::TooLarge])
        }
        Err(InputFault::ReadFault) => Err(RunRefusal::Records(RecordFault::ReadFault)),
        Err(InputFault::Endless) => Err(RunRefusal::Records(RecordFault::Endless)),
        Err(InputFault::NoMemory) => Err(RunRefusal::Memory),
    }
}

// The same without a table.
fn print_without_table<O: Output, E: Output>(
    alloc: Global,
    output: &mut O,
    errors: &mut E,
    plan: &HoursPlan,
) -> Result<Ending, RunRefusal>
    requires writable { O.failure_count output.old < u64.MAX }
    requires tellable { E.failure_count errors.old < u64.MAX }
    ensures ran { RanText (options_by None plan.now.options) (manner_in plan.now.options)
        (string_bytes plan.now.text) (O.taken output.old) (O.taken output.new) (O.is_ended output.new)
        (telling (E.taken errors.old) (E.taken errors.new) (E.failure_count errors.old) (E.failure_count errors.new)) result }
    ensures unread { (n : ℕ) → n ≡ failures_after_read result n }
    ensures write_faults { O.failure_count output.new
        ≡ failures_after_write result (O.failure_count output.old) }
{
    let options = options_with(None, &plan.options);
    print_with(alloc, output, errors, plan, &options)
}

/// Puts the domain with exactly the seconds at which the hours of the text are open, by the table of holidays that the input
/// brings, if one is given, and by the other options, and ends the output. Then it tells the warnings of the text: where it is
/// written loosely, if it may be, its comments on open rules and its fallback rules that are unknown, and, if it has holidays, in
/// which years they are known, or else which of its rules hide hours. Of a table at fault it tells all faults, and puts nothing.
/// Without a table, nothing is pulled.
pub(crate) fn print_hours<I: Input, O: Output, E: Output>(
    alloc: Global,
    input: &mut I,
    output: &mut O,
    errors: &mut E,
    turn: HoursTurn<'_>,
) -> Result<Ending, RunRefusal>
    requires readable { I.failure_count input.old < u64.MAX }
    requires writable { O.failure_count output.old < u64.MAX }
    requires tellable { E.failure_count errors.old < u64.MAX }
    ensures ran { RanHoursPlan turn.entry.plan.now turn.entry.path.now (I.to_come input.old) (O.taken output.old)
        (O.taken output.new) (I.may_fall_silent input.old) (O.is_ended output.new)
        (telling (E.taken errors.old) (E.taken errors.new) (E.failure_count errors.old) (E.failure_count errors.new)) result }
    ensures untouched { turn.entry.plan.now.options.holidays ≡ None → input.new ≡ input.old }
    ensures read_faults { I.failure_count input.new
        ≡ failures_after_read result (I.failure_count input.old) }
    ensures write_faults { O.failure_count output.new
        ≡ failures_after_write result (O.failure_count output.old) }
{
    match &turn.plan.options.holidays {
        Some(_) => print_with_table(alloc, input, output, errors, turn),
        None => print_without_table(alloc, output, errors, turn.plan),
    }
}
