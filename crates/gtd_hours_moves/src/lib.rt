//! Opening hours of OpenStreetMap as texts: the grammar, and the moves by which it is read.
//!
//! The grammar is a relation between pieces and tokens, in `specs/Grammar.antt`. The code goes by a table: from each [`Place`]
//! behind some tokens, [`next_move`] answers where the next token leads, and which piece it completes. The table keeps to the
//! grammar.
#![tactic(auto)]

mod fit;
mod moves;
mod place;
mod stage;

pub use fit::{fits, is_judged, is_step_of_years, takes_number, takes_time};
pub use moves::next_move;
pub use place::{Move, Place};
pub use stage::Stage;
