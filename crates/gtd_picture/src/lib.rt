//! The picture of a year, in SVG: at which seconds of which days a road element is open, or which a domain contains.
#![tactic(auto)]

pub use domain::{put_domain_picture, put_seen_domain_picture};
pub use picture::{Caption, put_picture};
pub use run::{YearPicture, run_picture};

mod crowd;
mod domain;
mod head;
pub mod laws;
mod line;
mod picture;
mod run;
mod words;
