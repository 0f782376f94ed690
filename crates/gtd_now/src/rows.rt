//! The rows of a file.

ghost use Rattle.std.specs.Prelude.{◌≡◌, option_map};
ghost use Rattle.gtd_core.specs.Parts.{domain_tree};
ghost use Rattle.gtd_now.specs.Reasons.{row_domain, row_line};

use gtd_core::Domain;
use gtd_records::Record;

/// The rows of a file.
#[derive(Clone, Copy)]
pub(crate) struct FileRows<'a> {
    /// Their records, in their order.
    pub(crate) records: &'a [Record],
    /// The lines on which they begin.
    pub(crate) lines: &'a [u64],
}

impl<'a> FileRows<'a> {
    /// The domain of the row with this number, counted from 1, if it has one.
    pub(crate) fn domain(&self, row: usize) -> Option<&'a Domain>
        ensures { option_map (λ domain. domain_tree domain.now) result ≡ row_domain self.now.records.now row }
    {
        match self.records.get(row.saturating_sub(1)) {
            Some(record) => record.domain(),
            None => None,
        }
    }

    /// The line on which the row with this number begins.
    pub(crate) fn line(&self, row: usize) -> u64
        ensures { result ≡ row_line self.now.lines.now row }
    {
        match self.lines.get(row.saturating_sub(1)) {
            Some(line) => *line,
            None => 0,
        }
    }
}
