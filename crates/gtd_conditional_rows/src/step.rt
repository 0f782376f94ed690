//! Steps: what closes and opens an element, one after another.

use crate::types::Types;
use gtd_conditional_means::Access;
use gtd_core::Expr;

/// Closes or opens an element for some vehicle types, at the seconds of its hours.
#[derive(Drop)]
pub struct Step {
    /// The types that it speaks of.
    pub types: Types,
    /// What it says.
    pub access: Access,
    /// When it says so: always, if there are none.
    pub hours: Option<Expr>,
}
