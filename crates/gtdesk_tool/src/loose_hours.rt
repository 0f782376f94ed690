//! The line of the domain of hours, and those of warnings.

ghost use Rattle.std.specs.Prelude.{◌≡◌, ◌++◌, ◌<◌, IfErr, IfOk, codes, string_bytes};
ghost use Rattle.gtd_core.specs.Parts.{domain_tree};
ghost use Rattle.gtd_text.specs.Canonical.{canonical};
ghost use Rattle.gtdesk_words.specs.HoursWords.{IsTranslation};
ghost use Rattle.gtdesk_tool.specs.LooseHours.{IsUntranslated, PutLines, Translates, manner_of};
ghost use Rattle.gtdesk_tool.specs.Running.{failures_after_write};
ghost use Rattle.gtdesk_tool.specs.Telling.{telling};

use crate::ending::Ending;
use crate::hours_records::tell_if_some;
use crate::performer::print_text;
use crate::refusal::RunRefusal;
use gtd_core::Domain;
use gtd_devices::Output;
use gtd_hours::Hours;
use gtd_hours_domain::{TranslationFault, cost_of, domain_of};
use gtd_hours_loose::Manner;
use gtd_hours_loose_tokens::DayNames;
use gtd_text::print_domain;
use gtdesk_words::NoDomain;
use std::alloc::{AllocError, Global};

/// What stands before a warning.
pub(crate) const BEFORE: &[u8] = b"gtdesk: TEXT: warning ";

/// The line of the domain of a text, and those of the text's warnings.
#[derive(Drop)]
pub(crate) struct Lines {
    pub(crate) domain: String,
    pub(crate) warnings: Vec<u8>,
}

/// How a text is read: as it is written, if that is asked for, and else also where it is written loosely.
pub(crate) fn manner_of(strict: bool, names: DayNames) -> Manner
    ensures { result ≡ manner_of strict names }
{
    if strict {
        Manner::Strict
    } else {
        Manner::Loose(names)
    }
}

// The domain with exactly the seconds at which the hours are open.
fn domain_with(alloc: Global, hours: &Hours) -> Result<Domain, RunRefusal>
    ensures same { IfOk result (IsTranslation hours.now) }
    ensures refused { IfErr result (IsUntranslated hours.now) }
{
    match domain_of(alloc, hours) {
        Ok(domain) => Ok(domain),
        Err(TranslationFault::TooMany) => Err(RunRefusal::NoDomain(NoDomain::TooMany {
            needed: cost_of(hours),
        })),
        Err(TranslationFault::NoMemory) => Err(RunRefusal::Memory),
    }
}

// The canonical text of a domain in one line, with its end.
fn domain_line_of(alloc: Global, domain: &Domain) -> Result<String, AllocError>
    ensures exact { IfOk result (λ line. string_bytes line ≡ canonical (domain_tree domain.now) ++ codes "\n") }
{
    let mut line = print_domain(alloc, domain)?;
    line.push_str("\n")?;
    Ok(line)
}

/// The line of the domain with exactly the seconds at which the hours are open.
pub(crate) fn domain_line(alloc: Global, hours: &Hours) -> Result<String, RunRefusal>
    ensures line { IfOk result (λ line. Translates hours.now (string_bytes line)) }
    ensures refused { IfErr result (IsUntranslated hours.now) }
{
    let domain = match domain_with(alloc, hours) {
        Ok(domain) => domain,
        Err(refusal) => return Err(refusal),
    };
    match domain_line_of(alloc, &domain) {
        Ok(line) => Ok(line),
        Err(_) => Err(RunRefusal::Memory),
    }
}

/// Puts the line of a domain, ends the output, and then tells the warnings, if there are any.
pub(crate) fn put_lines<O: Output, E: Output>(
    output: &mut O,
    errors: &mut E,
    lines: &Lines,
) -> Result<Ending, RunRefusal>
    requires writable { O.failure_count output.old < u64.MAX }
    requires tellable { E.failure_count errors.old < u64.MAX }
    ensures put { PutLines (string_bytes lines.now.domain) lines.now.warnings.items (O.taken output.old) (O.taken output.new)
        (O.is_ended output.new)
        (telling (E.taken errors.old) (E.taken errors.new) (E.failure_count errors.old) (E.failure_count errors.new)) result }
    ensures write_faults { O.failure_count output.new
        ≡ failures_after_write result (O.failure_count output.old) }
{
    match print_text(output, lines.domain.as_str()) {
        Ok(ending) => {
            tell_if_some(errors, lines.warnings.as_slice());
            Ok(ending)
        }
        Err(refusal) => Err(refusal),
    }
}
