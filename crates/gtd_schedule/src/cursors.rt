//! Cursors that begin again for elements that are closed alike.

ghost use Rattle.std.specs.Prelude.{◌≡◌, ◌<◌, [], IfOk, IsTrue, OnOk, length};
ghost use Rattle.gtd_schedule.specs.OpenCursors.{AreRight, IsOf, IsStarted, IsStored, wholes};

use crate::elements::ScheduleText;
use crate::hash_places::HashPlaces;
use gtd_eval::KeptCursor;
use gtd_records::{are_closed_alike, open_by_domains};
use gtd_rows::DirectedElement;
use std::alloc::{AllocError, Global};

/// A cursor over the seconds in which an element is open in a direction.
#[derive(Drop)]
pub(crate) struct OpenCursor {
    pub(crate) at: DirectedElement,
    pub(crate) cursor: KeptCursor,
}

/// Cursors that are kept for elements that are closed alike, and the last one that is not kept.
#[derive(Drop)]
pub(crate) struct OpenCursors {
    pub(crate) list: Vec<OpenCursor>,
    /// The number of the cursor that is in use.
    pub(crate) used: usize,
    places: HashPlaces,
    /// The number of the cursor that is not kept.
    other: Option<usize>,
}

impl OpenCursors {
    /// No cursors yet, and places for those of so many elements.
    pub(crate) fn new(alloc: Global, elements: usize) -> Result<OpenCursors, AllocError>
        ensures none { IfOk result (λ cursors. wholes cursors ≡ []) }
    {
        let places = HashPlaces::new(alloc, elements.saturating_mul(2))?;
        Ok(OpenCursors {
            list: Vec::new(alloc),
            used: 0,
            places,
            other: None,
        })
    }

    // Whether the cursor with this number is seen to be one of the element in the direction.
    fn is_shared(&self, text: ScheduleText<'_>, at: DirectedElement, number: usize) -> bool
        requires right { AreRight text.found.now text.lines.now.schedule (wholes self.now) }
        ensures of { IsTrue result → IsOf text.entry.found.now text.entry.lines.now.schedule at (wholes self.now) number }
    {
        let Some(known) = self.list.get(number) else {
            return false;
        };
        are_closed_alike(text.found, known.at, at, text.lines.schedule.vehicle)
    }

    /// Begins the cursor in use again.
    pub(crate) fn begin_again(&mut self)
        requires within { self.old.used < length self.old.list.items }
        ensures used { self.new.used ≡ self.old.used }
        ensures wholes { wholes self.new ≡ wholes self.old }
        ensures start { IsStarted self.new.list.items self.new.used }
    {
        let known = &mut self.list[self.used];
        known.cursor.begin_again();
    }

    // Stores a cursor in place of the one with this number, or after all others, and uses it.
    fn store(&mut self, number: Option<usize>, opened: OpenCursor) -> Result<(), AllocError>
        ensures stored { OnOk result (IsStored self.old.list.items opened self.new.used self.new.list.items) }
    {
        if let Some(number) = number {
            if number < self.list.len() {
                self.list[number] = opened;
                self.used = number;
                return Ok(());
            }
        }
        let number = self.list.len();
        self.list.push(opened)?;
        self.used = number;
        Ok(())
    }

    // Opens a cursor of the element in the direction, which has this hash, and uses it.
    fn use_new(
        &mut self,
        alloc: Global,
        text: ScheduleText<'_>,
        at: DirectedElement,
        hash: u32,
    ) -> Result<(), AllocError>
        requires right { AreRight text.found.now text.lines.now.schedule (wholes self.old) }
        ensures right { OnOk result (AreRight text.entry.found.now text.entry.lines.now.schedule (wholes self.new)) }
        ensures of { OnOk result (IsOf text.entry.found.now text.entry.lines.now.schedule at (wholes self.new) self.new.used) }
        ensures start { OnOk result (IsStarted self.new.list.items self.new.used) }
    {
        let (vehicle, horizon) = (text.lines.schedule.vehicle, text.lines.schedule.horizon);
        let cursor = open_by_domains(alloc, text.found, at, vehicle, horizon)?;
        let nodes = cursor.nodes();
        let is_kept = self.places.is_to_be_kept(hash, nodes);
        let number = if is_kept {
            self.places.number_at(hash)
        } else {
            self.other
        };
        self.store(number, OpenCursor { at, cursor })?;
        if is_kept {
            self.places.keep(hash, self.used, nodes);
        } else {
            self.other = Some(self.used);
        }
        Ok(())
    }

    /// Uses a cursor of the element in the direction, which has this hash: the kept one of an element that is closed alike, or a
    /// new one. It is at its start. Returns `AllocError` only if memory was refused.
    pub(crate) fn use_for(
        &mut self,
        alloc: Global,
        text: ScheduleText<'_>,
        at: DirectedElement,
        hash: u32,
    ) -> Result<(), AllocError>
        requires right { AreRight text.found.now text.lines.now.schedule (wholes self.old) }
        ensures right { OnOk result (AreRight text.entry.found.now text.entry.lines.now.schedule (wholes self.new)) }
        ensures of { OnOk result (IsOf text.entry.found.now text.entry.lines.now.schedule at (wholes self.new) self.new.used) }
        ensures start { OnOk result (IsStarted self.new.list.items self.new.used) }
    {
        if let Some(number) = self.places.number_of(hash) {
            if self.is_shared(text, at, number) {
                self.used = number;
                self.begin_again();
                return Ok(());
            }
        }
        self.use_new(alloc, text, at, hash)
    }
}
