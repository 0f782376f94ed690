//! The commands of `gtdesk`.
//!
//! [`plan`] reads the words after the program's name, and [`perform`] carries out what they ask for, for one file after the
//! other, of files of opening hours with the options that [`options_of_plan`] makes of what the plan gives and of the table that
//! [`read_plan_table`] reads; or [`perform_diff`] if they ask for what two files say differently, [`perform_conditions`] for the
//! records of tags of ways, and [`perform_ask`] for answers to questions.
#![tactic(auto)]

mod ask;
mod conditions;
mod diff;
mod domain_hours;
mod ending;
mod given_options;
mod holiday_table;
mod hours_records;
mod line;
mod loose_hours;
mod mended;
mod mended_hours;
mod now;
mod performer;
mod picture;
mod plan_options;
mod refusal;
mod repeats;
mod same;
mod shown;
mod text_hours;
mod zone;

pub use ask::perform_ask;
pub use conditions::{ConditionsTurn, perform_conditions};
pub use diff::perform_diff;
pub use ending::{Ending, joined};
pub use given_options::{no_options, options_given, options_of_plan, read_plan_table};
pub use gtd_zones::zone_path;
pub use gtdesk_plans::{
    ConditionsPlan, DiffPlan, DomainPicturePlan, FaultsPlan, Files, HoursOptions, HoursPlan,
    LineRefusal, MendHoursPlan, NowPlan, NowView, OnePlan, PicturePlan, PictureSubject, Plan,
    RecordsPlan, SamePlan, ZonePlan, plan,
};
pub use gtdesk_words::{Moment, NoDomain, Reason, WordFault, WordName, WordsRefusal};
pub use line::RefusalLines;
pub use performer::{Turn, perform};
pub use plan_options::{PlanOptions, ReadTable};
pub use refusal::{Refusal, RunRefusal, refused_file, refused_table};
pub use shown::word_snippet;
pub use zone::{moment_in_zone, no_zone};
