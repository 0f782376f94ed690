//! The commands.

pub(crate) mod ask;
pub(crate) mod conditions;
pub(crate) mod diff;
pub(crate) mod faults;
pub(crate) mod hours;
pub(crate) mod mend;
pub(crate) mod now;
pub(crate) mod picture;
pub(crate) mod records;
pub(crate) mod same;
pub(crate) mod words;

pub use conditions::ConditionsPlan;
pub use diff::DiffPlan;
pub use faults::FaultsPlan;
pub use hours::HoursPlan;
pub use mend::MendHoursPlan;
pub use now::{NowPlan, NowView, ZonePlan};
pub use picture::{DomainPicturePlan, PicturePlan, PictureSubject};
pub use records::RecordsPlan;
pub use same::SamePlan;
pub use words::WordsPlan;
