//! An element in a direction, by two files.

ghost use Rattle.std.specs.Prelude.{◌≡◌, IfOk, OnOk};
ghost use Rattle.gtd_calendar.specs.Calendar.{IsCalendarDay};
ghost use Rattle.gtd_core.specs.Seconds.{IsHorizonSecond, day_of_second};
ghost use Rattle.gtd_eval.specs.Membership.{IsNormalOver};
ghost use Rattle.gtd_changes.specs.Changes.{WasClosed, WasOpened, span_of};
ghost use Rattle.gtd_changes.specs.facts.RowsFacts.{full_line, line_with};

use crate::change::Change;
use crate::line::{write_change, write_rows};
use gtd_core::Horizon;
use gtd_eval::KeptCursor;
use gtd_records::{Records, open_seconds};
use gtd_report::DirectedElement;
use gtd_spans::{SpanSource, Without};
use std::alloc::{AllocError, Global};

/// An element in a direction, for a vehicle type and over the days of a horizon, by two files.
#[derive(Drop)]
pub(crate) struct Place<'a> {
    pub(crate) old: &'a Records,
    pub(crate) new: &'a Records,
    pub(crate) at: DirectedElement,
    pub(crate) vehicle: u8,
    pub(crate) horizon: Horizon,
}

impl Place<'_> {
    /// The spans of the horizon in which it was opened.
    pub(crate) fn opened(
        &self,
        alloc: Global,
    ) -> Result<Without<KeptCursor, KeptCursor>, AllocError>
        ensures opened { IfOk result (λ spans. IsNormalOver
            (WasOpened self.now.old.now self.now.new.now self.now.at.element self.now.at.direction self.now.vehicle)
            self.now.horizon (⟦<Without<KeptCursor, KeptCursor> as SpanSource>⟧.rest spans)) }
    {
        let (element, direction) = (self.at.element, self.at.direction);
        let (vehicle, horizon) = (self.vehicle, self.horizon);
        let is_open = open_seconds(alloc, self.new, element, direction, vehicle, horizon)?;
        let was_open = open_seconds(alloc, self.old, element, direction, vehicle, horizon)?;
        Ok(Without::new(is_open, was_open))
    }

    /// The spans of the horizon in which it was closed.
    pub(crate) fn closed(
        &self,
        alloc: Global,
    ) -> Result<Without<KeptCursor, KeptCursor>, AllocError>
        ensures closed { IfOk result (λ spans. IsNormalOver
            (WasClosed self.now.old.now self.now.new.now self.now.at.element self.now.at.direction self.now.vehicle)
            self.now.horizon (⟦<Without<KeptCursor, KeptCursor> as SpanSource>⟧.rest spans)) }
    {
        let (element, direction) = (self.at.element, self.at.direction);
        let (vehicle, horizon) = (self.vehicle, self.horizon);
        let was_open = open_seconds(alloc, self.old, element, direction, vehicle, horizon)?;
        let is_open = open_seconds(alloc, self.new, element, direction, vehicle, horizon)?;
        Ok(Without::new(was_open, is_open))
    }

    // Writes the line of a change with the rows of either file that close the element at its first second, in place of what the
    // buffer held.
    fn write_full(
        &self,
        alloc: Global,
        line: &mut Vec<u8>,
        change: &Change,
    ) -> Result<(), AllocError>
        requires from { IsCalendarDay (day_of_second (span_of change.now).from) }
        requires until { IsCalendarDay (day_of_second (span_of change.now).until) }
        requires in_range { IsHorizonSecond (span_of change.now).from }
        ensures line { OnOk result (line.new.items ≡ full_line self.now.old.now self.now.new.now self.now.vehicle
            self.now.at.element self.now.at.direction change.now) }
    {
        let first = change.span().from();
        let (element, direction, vehicle) = (self.at.element, self.at.direction, self.vehicle);
        let old_rows = self
            .old
            .closing_rows(alloc, element, direction, vehicle, first)?;
        let new_rows = self
            .new
            .closing_rows(alloc, element, direction, vehicle, first)?;
        write_rows(
            line,
            self.at,
            self.vehicle,
            change,
            old_rows.as_slice(),
            new_rows.as_slice(),
        )
    }

    /// Writes the line of a change, with those rows or without them, in place of what the buffer held.
    pub(crate) fn write(
        &self,
        alloc: Global,
        line: &mut Vec<u8>,
        with_rows: bool,
        change: &Change,
    ) -> Result<(), AllocError>
        requires from { IsCalendarDay (day_of_second (span_of change.now).from) }
        requires until { IsCalendarDay (day_of_second (span_of change.now).until) }
        requires in_range { IsHorizonSecond (span_of change.now).from }
        ensures line { OnOk result (line.new.items ≡ line_with self.now.old.now self.now.new.now self.now.vehicle
            self.now.at.element self.now.at.direction with_rows change.now) }
    {
        if with_rows {
            self.write_full(alloc, line, change)
        } else {
            write_change(line, self.at, self.vehicle, change)
        }
    }
}
