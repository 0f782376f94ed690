//! What stands behind the items of a text of opening hours so far, and what becomes of the next one there.
//!
//! Items are read from left to right. Where a text has been read to is a `Position`: `role_of` answers what becomes of the item
//! that stands there, and `after` the position behind it.
#![tactic(auto)]

mod behind;
mod role;
mod roles;

pub use behind::{Behind, Last, Position, after, front, is_commented};
pub use role::Role;
pub use roles::role_of;
