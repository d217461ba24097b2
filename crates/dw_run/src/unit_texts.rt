//! The texts of all units, one after another, into a sink.

ghost use Rattle.std.specs.Prelude.{◌≡◌, ◌<◌, ◌≤◌, ℕ, List, Result};
ghost use Rattle.dw_fields.specs.declared.fault_code.Fault.{Fault};
ghost use Rattle.dw_outside.specs.Faults.{HasCause};
ghost use Rattle.dw_outside.specs.declared.stops.WriteStop.TheVariants as write_stops;
ghost use Rattle.unit_text.specs.Pieces.{Writes};
ghost use Rattle.dw_run.specs.CommandTexts.{Prints, units_printed};

use crate::refusals::Refusal;
use dw_outside::{Sink, WriteStop, write_all};
use std::alloc::Global;
use unit_headers::UnitRefusal;

/// What a command prints of each unit of a file.
pub(crate) trait UnitTexts {
    ghost count: { Self → ℕ };

    ghost text: { Self → ℕ → Result (List ℕ) Fault };

    /// How many units there are.
    fn count(&self) -> u32
        ensures { result ≡ count self.now };

    /// Appends the text of one unit; `out` is as it was after a refusal.
    fn append(&mut self, unit: u32, out: &mut Vec<u8>) -> Result<(), UnitRefusal>
        requires { unit < count self.old }
        ensures text { Writes result out.old.items out.new.items (text self.old unit) }
        ensures same_text { (i : ℕ) → text self.new i ≡ text self.old i }
        ensures same_count { count self.new ≡ count self.old };
}

/// Writes the texts of all units in order, each by one `write_all`, up to the first unit that is
/// refused.
pub(crate) fn print_units<U: UnitTexts, O: Sink>(
    alloc: Global,
    units: &mut U,
    out: &mut O,
) -> Result<Option<Refusal>, WriteStop>
    ensures printed { Prints result (units_printed (U.text units.old) 0 (U.count units.old))
        (O.held out.old) (O.held out.new) }
    ensures cause { HasCause write_stops.Failed (O.faults out.old) (O.faults out.new) result }
{
    let mut text = Vec::new(alloc);
    'units: for unit in 0..units.count() {
        text.clear();
        match units.append(unit, &mut text) {
            Ok(()) => {}
            Err(UnitRefusal::Refused(fault)) => return Ok(Some(Refusal::Unit { unit, fault })),
            Err(UnitRefusal::OutOfMemory) => return Err(WriteStop::OutOfMemory),
        }
        match write_all(out, text.as_slice()) {
            Ok(()) => {}
            Err(stop) => return Err(stop),
        }
    }
    Ok(None)
}
