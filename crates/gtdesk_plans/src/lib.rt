//! What a command line of `gtdesk` asks for.
//!
//! [`plan`] reads the words after the program's name, as `clap` does, and answers the [`Plan`] that they ask for or why they are
//! refused.
#![tactic(auto)]

mod arguments;
mod command_line;
mod commands;
mod forms;
mod given;
mod hints;
mod options;
mod planner;
mod plans;
mod refused;

pub use commands::{
    ConditionsPlan, DiffPlan, DomainPicturePlan, FaultsPlan, HoursPlan, MendHoursPlan, NowPlan,
    NowView, PicturePlan, PictureSubject, RecordsPlan, SamePlan, WordsPlan, ZonePlan,
};
pub use options::HoursOptions;
pub use planner::plan;
pub use plans::{Files, OnePlan, Plan};
pub use refused::LineRefusal;
