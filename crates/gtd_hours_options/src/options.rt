//! What texts of opening hours leave open.

use gtd_hours_known::Known;
use gtd_hours_moments::Clocks;

/// What is given for that which texts leave open.
#[derive(Drop)]
pub struct Options {
    /// What is known of holidays.
    pub known: Known,
    /// What is given for open ends, for points of time, and for events of the sun.
    pub clocks: Clocks,
}
