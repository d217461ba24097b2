//! The texts of a window's units, in the units' order, into a sink.

ghost use Rattle.std.specs.Prelude.{◌≡◌, ◌<◌, ◌≤◌, ◌+◌, ◌*◌, ◌-◌, ◌^◌, ℕ, Ok, None, OnErr, OnOk, All};
ghost use Rattle.dw_outside.specs.Faults.{HasCause};
ghost use Rattle.dw_outside.specs.Gains.{Gains, GainsPart};
ghost use Rattle.elf_sections.specs.Shapes.{SectionsView};
ghost use Rattle.unit_draws.specs.Seats.{occurrences};
ghost use Rattle.unit_draws.specs.Windows.{window_length};
ghost use Rattle.unit_draws.specs.declared.windows.TheConstants.{WINDOW};
ghost use Rattle.unit_headers.specs.Headers.{unit_count};
ghost use Rattle.handle_cache.specs.Handles.{sections_in};
ghost use Rattle.dump_workers.specs.declared.ends.DumpFault.TheVariants as dump_faults;
ghost use Rattle.dump_workers.specs.Dumps.{Prints, dump_from};
ghost use Rattle.dump_workers.specs.Readings.{IsRead, IsReading, units_read};
ghost use Rattle.dump_workers.specs.UnitDumps.{entries_from};
ghost use Rattle.dump_workers.specs.Windows.{ReadsWindow};

use crate::ends::{DumpFault, RefusedUnit};
use crate::reading::{Reading, UnitRead};
use dw_outside::{Sink, WriteStop, write_all};
use handle_cache::Handle;

/// What was read of a unit: the first reading that is of it.
pub(crate) fn find_reading(readings: &[Reading], unit: u32) -> &UnitRead
    requires some { 0 < occurrences unit (units_read readings.now) }
    ensures found { (s : SectionsView) (window : ℕ) → All (IsReading s window) readings.now
        → IsRead s unit result.now }
{
    let mut place = 0;
    'readings: while readings[place].unit != unit {
        place += 1;
    }
    &readings[place].read
}

/// Writes the text of a unit.
///
/// # Errors
/// Those of the sink.
pub(crate) fn print_text<O: Sink>(text: &[u8], out: &mut O) -> Result<(), DumpFault>
    ensures whole { OnOk result (Gains (O.held out.old) (O.held out.new) text.now) }
    ensures part { OnErr result (GainsPart (O.held out.old) (O.held out.new) text.now) }
    ensures cause { HasCause dump_faults.WriteFault (O.faults out.old) (O.faults out.new) result }
{
    match write_all(out, text) {
        Ok(()) => Ok(()),
        Err(WriteStop::Failed) => Err(DumpFault::WriteFault),
        Err(WriteStop::OutOfMemory) => Err(DumpFault::OutOfMemory),
    }
}
