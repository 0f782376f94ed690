//! The lines of all elements, in each form.

ghost use Rattle.std.specs.Prelude.{◌≡◌, ◌≤◌, length};
ghost use Rattle.std.proofs.Props.{props};
ghost use Rattle.gtd_report.specs.Run.{IsVehicleType};
ghost use Rattle.gtd_changes.specs.Changes.{header_line};
ghost use Rattle.gtd_changes.specs.Forms.{AreLinesIn, header_in};

use crate::form::{Asked, Form};
use crate::pair::Pair;
use crate::place::Place;
use crate::put::put_changes;
use crate::summary::put_summary;
use gtd_devices::Output;
use gtd_records::Records;
use gtd_report::{DirectedElement, DirectionLines, ElementLines, Printer, Stop, put_both};

/// The lines of what two files say differently.
#[derive(Drop)]
pub(crate) struct ChangeLines<'a> {
    pub(crate) pair: &'a Pair<'a>,
    pub(crate) asked: Asked,
    ghost vehicle: { IsVehicleType asked.vehicle } by { Prim.hlevel props },
}

/// The header of a form.
pub(crate) fn header_in(form: Form) -> &'static [u8]
    ensures value { result.now ≡ header_in form }
    ensures short { length result.now ≤ 1000 }
{
    match form {
        Form::Intervals => b"element,direction,vehicle,change,from,until\n",
        Form::Rows => b"element,direction,vehicle,change,from,until,old_rows,new_rows\n",
        Form::Summary => b"element,direction,vehicle,old_seconds,new_seconds\n",
    }
}

impl DirectionLines for ChangeLines<'_> {
    ghost are_lines = { λ text _. AreLinesIn text.asked.form text.pair.now.old.now text.pair.now.new.now text.asked.vehicle
        text.asked.horizon };

    fn put_direction<O: Output>(
        &self,
        output: &mut O,
        printer: &mut Printer,
        _found: &Records,
        at: DirectedElement,
    ) -> Result<(), Stop> {
        let place = Place {
            old: self.pair.old,
            new: self.pair.new,
            at,
            vehicle: self.asked.vehicle,
            horizon: self.asked.horizon,
        };
        match self.asked.form {
            Form::Intervals => put_changes(output, printer, &place, false),
            Form::Rows => put_changes(output, printer, &place, true),
            Form::Summary => put_summary(output, printer, &place),
        }
    }
}

impl ElementLines for ChangeLines<'_> {
    ghost are_lines = { λ text _. AreLinesIn text.asked.form text.pair.now.old.now text.pair.now.new.now text.asked.vehicle
        text.asked.horizon };

    fn put_element<O: Output>(
        &self,
        output: &mut O,
        printer: &mut Printer,
        found: &Records,
        element: u64,
    ) -> Result<(), Stop> {
        if !self.pair.may_differ(element) {
            return Ok(());
        }
        put_both(output, printer, found, element, self)
    }
}
