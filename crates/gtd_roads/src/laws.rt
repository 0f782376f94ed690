//! The laws of the definitions that the clauses of this crate's items cite.

pub use gtd_migrate::laws::{migrated_is_accepted, migration_changes_nothing};
pub use gtd_records::laws::{listed_faults, one_answer, parts_of_a_table, parts_of_a_text};
pub use gtd_schedule::laws::{
    one_schedule, schedule_in_parts, short_lines, shown_lines, some_schedule,
};
pub use gtd_year::laws::{lines_of_a_table, one_table};
