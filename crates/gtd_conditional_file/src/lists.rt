//! The lists of faults that a run answers.

ghost use Rattle.std.specs.Prelude.{◌≡◌, map, IfOk};
ghost use Rattle.gtd_conditional_faults.specs.declared.fault.FileFault.{FileFault};
ghost use Rattle.gtd_conditional_file.specs.Lists.{IsRefusal, of_means, of_tags};

use crate::unconverted::Unconverted;
use gtd_conditional_elements::ConditionsFault;
use gtd_conditional_faults::{FileFault, lines_of};
use gtd_conditional_means::MeansFault;
use std::alloc::{AllocError, Global};

fn means_faults(alloc: Global, faults: &[MeansFault]) -> Result<Vec<FileFault>, AllocError>
    ensures { IfOk result (λ found. found.items ≡ of_means faults.now) }
{
    faults
        .iter()
        .map(|why| FileFault::Means(*why))
        .collect(alloc)
}

fn tags_faults(alloc: Global, faults: &[ConditionsFault]) -> Result<Vec<FileFault>, AllocError>
    ensures { IfOk result (λ found. found.items ≡ of_tags faults.now) }
{
    faults
        .iter()
        .map(|why| FileFault::Tags(*why))
        .collect(alloc)
}

// The list of faults of a file.
fn refusal(alloc: Global, path: &str, bytes: &[u8], faults: &[FileFault]) -> Unconverted
    ensures { IsRefusal path.now bytes.now faults.now result }
{
    match lines_of(alloc, path, bytes, faults) {
        Ok(text) => Unconverted::Faults(text),
        Err(_) => Unconverted::NoMemory { written: 0 },
    }
}

/// The answer for a table of means at fault: the list of its faults.
pub(crate) fn means_refusal(
    alloc: Global,
    path: &str,
    bytes: &[u8],
    faults: &[MeansFault],
) -> Unconverted
    ensures { IsRefusal path.now bytes.now (of_means faults.now) result }
{
    match means_faults(alloc, faults) {
        Ok(found) => refusal(alloc, path, bytes, found.as_slice()),
        Err(_) => Unconverted::NoMemory { written: 0 },
    }
}

/// The answer for a file of tags at fault: the list of its faults and those of its values.
pub(crate) fn tags_refusal(
    alloc: Global,
    path: &str,
    bytes: &[u8],
    faults: &[ConditionsFault],
) -> Unconverted
    ensures { IsRefusal path.now bytes.now (of_tags faults.now) result }
{
    match tags_faults(alloc, faults) {
        Ok(found) => refusal(alloc, path, bytes, found.as_slice()),
        Err(_) => Unconverted::NoMemory { written: 0 },
    }
}
