//! What is asked about a file.

use gtd_core::Horizon;
use gtd_mistakes::Rule;

/// What is asked for.
#[derive(Drop)]
pub struct Asked {
    /// The rules that are turned off.
    pub off: Vec<Rule>,
    /// The days from the one that is asked about on, for rows that are over. `None` asks for no such rows.
    pub days: Option<Horizon>,
}
