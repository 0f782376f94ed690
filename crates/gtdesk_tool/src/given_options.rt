//! The options that a plan gives for the texts of its files.

ghost use Rattle.std.specs.Prelude.{◌≡◌, ◌<◌, IfOk, IfSome, MatchOption, None, option_map, string_bytes};
ghost use Rattle.gtdesk_tool.specs.GivenOptions.{AreOptionsIn, AreOptionsOf, holidays_in, holidays_of, options_of, path_of};
ghost use Rattle.gtdesk_tool.specs.GivenOptions.{table_of};
ghost use Rattle.gtdesk_tool.specs.HolidayTables.{HasReadTable, failures_after_table};
ghost use Rattle.gtdesk_tool.specs.Telling.{telling};
ghost use Rattle.gtdesk_tool.specs.TextHours.{IsNothingGiven, options_by};
ghost use Rattle.gtdesk_tool.specs.declared.plan_options.PlanOptions.{PlanOptions};

use crate::holiday_table::read_table;
use crate::plan_options::{PlanOptions, ReadTable};
use crate::refusal::RunRefusal;
use crate::text_hours::{nothing_given, options_with};
use gtd_devices::{Input, Output};
use gtdesk_plans::{HoursOptions, OnePlan};
use std::alloc::Global;

/// The table of holidays with this path, which the input brings; or none, if it is at fault: then all its faults are told on the
/// output for errors. If that output fails, a first part of them stands, and the answer is the same.
///
/// `Records` says why the input failed, and `Memory` that memory was refused. Before the call, the failures of each device must
/// be below `u64::MAX`.
pub fn read_plan_table<'a, I: Input, E: Output>(
    alloc: Global,
    input: &mut I,
    errors: &mut E,
    path: &'a str,
) -> Result<Option<ReadTable<'a>>, RunRefusal>
    requires readable { I.failure_count input.old < u64.MAX }
    requires tellable { E.failure_count errors.old < u64.MAX }
    ensures read { HasReadTable path.now (I.to_come input.old) (I.may_fall_silent input.old)
        (telling (E.taken errors.old) (E.taken errors.new) (E.failure_count errors.old) (E.failure_count errors.new))
        (holidays_in result) }
    ensures named { IfOk result (λ found. IfSome found (λ table. path_of table ≡ path.now)) }
    ensures read_faults { I.failure_count input.new ≡ failures_after_table (holidays_in result) (I.failure_count input.old) }
{
    match read_table(alloc, input, errors, path) {
        Ok(Some(table)) => Ok(Some(ReadTable { path, table })),
        Ok(None) => Ok(None),
        Err(refusal) => Err(refusal),
    }
}

/// What a plan gives for texts of opening hours, if its files have such: then they are to be read with the options of that, and
/// otherwise any options will do.
pub fn options_given(plan: &OnePlan) -> Option<&HoursOptions>
    ensures { MatchOption result ((options : PlanOptions) → AreOptionsIn plan.now options)
        (λ given. (options : PlanOptions) → AreOptionsOf given.now options → AreOptionsIn plan.now options) }
{
    match plan {
        OnePlan::Records(plan) => Some(&plan.options),
        _ => None,
    }
}

/// The options of what is given, by the table of holidays that was read, if there is one. That has to be the one that is named:
/// then these are the options that were given.
pub fn options_of_plan<'a>(table: Option<ReadTable<'a>>, given: &HoursOptions) -> PlanOptions<'a>
    ensures options { options_of result ≡ options_by (option_map holidays_of table.entry) given.now }
    ensures table { table_of result ≡ option_map path_of table.entry }
    ensures given { option_map path_of table.entry ≡ option_map string_bytes given.now.holidays
        → AreOptionsOf given.now result }
{
    match table {
        Some(read) => PlanOptions {
            path: Some(read.path),
            options: options_with(Some(read.table), given),
        },
        None => PlanOptions {
            path: None,
            options: options_with(None, given),
        },
    }
}

/// The options with which nothing is given.
pub fn no_options() -> PlanOptions<'static>
    ensures options { IsNothingGiven (options_of result) }
    ensures table { table_of result ≡ None }
{
    PlanOptions {
        path: None,
        options: nothing_given(),
    }
}
