//! What the tokens so far have built.

use gtd_core::{Expr, Op};

/// What comes before an item in the same brackets: the left side of a sum, and that of a product.
#[derive(Drop)]
pub struct Pending {
    pub sum: Option<(Op, Expr)>,
    pub product: Option<Expr>,
}

/// What the items and signs so far have left open. A basic domain is read at once.
#[derive(Drop)]
pub enum State {
    /// An item comes next.
    Expecting(Pending),
    /// An item has ended, and is the last of the term.
    AfterItem(Option<(Op, Expr)>, Expr),
}
