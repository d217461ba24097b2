//! The dump of a file by one worker: the text of a unit goes out before the next unit is read.

ghost use Rattle.std.specs.Prelude.{◌≡◌, ◌<◌, ℕ, IfOk, OnOk, length};
ghost use Rattle.dw_outside.specs.Faults.{HasCause};
ghost use Rattle.map_cells.specs.Seen.{Follows};
ghost use Rattle.handle_cache.specs.Handles.{Belongs, sections_in};
ghost use Rattle.dump_workers.specs.declared.ends.DumpFault.TheVariants as dump_faults;
ghost use Rattle.dump_workers.specs.Dumps.{CountsWhole, Ends, dump_of};
ghost use Rattle.dump_workers.specs.FileKeys.{CountsUnits, GainsUnits, NotesUnits, RefusesNone};
ghost use Rattle.dump_workers.specs.Seats.{EachBelongs, EachCounts, EachFollows, EachGains, SeatsNoteFile};

use crate::ends::{DumpEnd, DumpFault, Whole};
use crate::printing::print_text;
use crate::seat::DumpSeat;
use crate::unit::read_text;
use abbrev_decl::Steps;
use bumpalo::Bump;
use dw_outside::{Gate, Sink};
use entry_tree::renew;
use handle_cache::{Handle, HandlePass};
use std::alloc::Global;
use unit_headers::UnitRefusal;
use walked_tables::TableWalker;

/// Dumps the units of a file through one pass. The arena, the walker and the text's memory serve one unit after
/// another.
///
/// # Errors
/// Those of the sink, and want of memory.
fn dump_units<'f, G: Gate, O: Sink, L>(
    alloc: Global,
    handle: &Handle<'f>,
    pass: &mut HandlePass<'f>,
    steps: &mut Steps<L>,
    gate: &G,
    out: &mut O,
) -> Result<DumpEnd, DumpFault>
    requires { Belongs handle.now pass.old }
    ensures dump { Ends result (dump_of (sections_in handle.now))
        (O.held out.old) (O.held out.new) }
    ensures whole { IfOk result (CountsWhole (sections_in handle.now) 1) }
    ensures cause { HasCause dump_faults.WriteFault (O.faults out.old) (O.faults out.new) result }
    ensures belongs { Belongs handle.now pass.new }
    ensures follows { Follows pass.old pass.new }
    ensures gains { OnOk result (GainsUnits (sections_in handle.now) pass.old pass.new) }
    ensures counts { CountsUnits (sections_in handle.now) pass.old steps.old steps.new }
    ensures noted { OnOk result (RefusesNone (sections_in handle.now)
        → NotesUnits (sections_in handle.now) pass.new) }
{
    let units = handle.index().count();
    let mut arena = Bump::new(alloc);
    let mut walker = TableWalker::new(alloc, handle.sections().abbrev);
    let mut text = Vec::new(alloc);
    let mut entries = 0;
    'units: for unit in 0..units {
        gate.enter(0, unit);
        let read = read_text(
            alloc,
            &arena,
            handle,
            pass,
            &mut walker,
            unit,
            &mut text,
            steps,
        );
        gate.leave(0, unit);
        let count = match read {
            Ok(count) => count,
            Err(refusal) => match refusal {
                UnitRefusal::Refused(fault) => return Ok(DumpEnd::Refused { unit, fault }),
                UnitRefusal::OutOfMemory => return Err(DumpFault::OutOfMemory),
            },
        };
        match print_text(text.as_slice(), out) {
            Ok(()) => {}
            Err(fault) => return Err(fault),
        }
        entries += u64::from(count);
        renew(alloc, &mut arena);
    }
    Ok(DumpEnd::Whole(Whole {
        units,
        entries,
        workers: 1,
    }))
}

/// Dumps the units of a file with one seat.
///
/// # Errors
/// Those of the sink, and want of memory.
fn dump_seat<'f, G: Gate, O: Sink, L>(
    alloc: Global,
    handle: &Handle<'f>,
    seat: &mut DumpSeat<'f, L>,
    gate: &G,
    out: &mut O,
) -> Result<DumpEnd, DumpFault>
    requires { Belongs handle.now seat.old.pass }
    ensures dump { Ends result (dump_of (sections_in handle.now))
        (O.held out.old) (O.held out.new) }
    ensures whole { IfOk result (CountsWhole (sections_in handle.now) 1) }
    ensures cause { HasCause dump_faults.WriteFault (O.faults out.old) (O.faults out.new) result }
    ensures follows { Follows seat.old.pass seat.new.pass }
    ensures gains { OnOk result (GainsUnits (sections_in handle.now) seat.old.pass seat.new.pass) }
    ensures counts { CountsUnits (sections_in handle.now) seat.old.pass seat.old.steps
        seat.new.steps }
    ensures noted { OnOk result (RefusesNone (sections_in handle.now)
        → NotesUnits (sections_in handle.now) seat.new.pass) }
{
    dump_units(alloc, handle, &mut seat.pass, &mut seat.steps, gate, out)
}

/// Dumps the units of a file, where there is one seat.
///
/// # Errors
/// Those of the sink, and want of memory.
pub(crate) fn dump_alone<'f, G: Gate, O: Sink, L>(
    alloc: Global,
    handle: &Handle<'f>,
    seats: &mut Vec<DumpSeat<'f, L>>,
    gate: &G,
    out: &mut O,
) -> Result<DumpEnd, DumpFault>
    requires one { length seats.old.items ≡ 1 }
    requires belong { EachBelongs handle.now seats.old.items }
    ensures dump { Ends result (dump_of (sections_in handle.now))
        (O.held out.old) (O.held out.new) }
    ensures whole { IfOk result
        (CountsWhole (sections_in handle.now) (length seats.old.items)) }
    ensures cause { HasCause dump_faults.WriteFault (O.faults out.old) (O.faults out.new) result }
    ensures follow { EachFollows seats.old.items seats.new.items }
    ensures gains { OnOk result (EachGains (sections_in handle.now) seats.old.items
        seats.new.items) }
    ensures counts { EachCounts (sections_in handle.now) seats.old.items seats.new.items }
    ensures noted { OnOk result (RefusesNone (sections_in handle.now)
        → SeatsNoteFile (sections_in handle.now) seats.new.items) }
{
    dump_seat(alloc, handle, &mut seats[0], gate, out)
}
