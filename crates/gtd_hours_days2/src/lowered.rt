//! What a part is among the selectors of plain hours.

use gtd_hours::Selector;
use gtd_hours_days::Listed;

/// What a part is among the selectors of plain hours.
#[derive(Clone, Copy)]
pub enum Lowered {
    /// Nothing: it holds on no day.
    Nothing,
    /// A selector.
    One(Selector),
    /// Two selectors.
    Two(Selector, Selector),
    /// Days that are known in some years alone.
    Listed(Listed),
}
