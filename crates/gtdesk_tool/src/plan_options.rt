//! The options with which the texts of a plan's files are read.

ghost use Rattle.std.specs.Prelude.{◌↔◌, IsSome};

use gtd_hours_holidays::Holidays;
use gtd_hours_options::Options;

/// A table of holidays that was read, with its path.
#[derive(Drop)]
pub struct ReadTable<'a> {
    pub(crate) path: &'a str,
    pub(crate) table: Holidays,
}

/// The options with which texts of opening hours are read, with the path of their table of holidays, if one was read for them.
#[derive(Drop)]
pub struct PlanOptions<'a> {
    pub(crate) path: Option<&'a str>,
    pub(crate) options: Options,
    pub ghost with_table: { IsSome path ↔ IsSome options.known.holidays },
}
