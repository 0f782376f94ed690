//! What bytes begin with.

use crate::token::TokenKind;

/// A token at the front of bytes.
#[derive(Clone, Copy)]
pub(crate) struct Found {
    /// What it means.
    pub kind: TokenKind,
    /// How many bytes it has.
    pub length: usize,
    /// Whether its strict form is another one.
    pub is_loose: bool,
}
