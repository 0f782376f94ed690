//! The run over a record file: [`run_report`] reads a file whole, and then puts a [`Report`] of its records line by line.
//! Why a run stops, and what it has then put, is said once for every report.
//!
//! Each line is offered whole, and then the rest of it until all is taken.
#![tactic(auto)]

pub use by_element::{DirectionLines, ElementLines, put_both, put_by_element, put_listed};
pub use fault::RunFault;
pub use gtd_rows::DirectedElement;
pub use output::{Printer, Progress, ShortPut, Stop, finish, put_line};
pub use report::{Report, run_report};
pub use subject::Subject;

mod by_element;
mod fault;
mod output;
mod report;
mod subject;
