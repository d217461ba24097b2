//! The dump of a file.

ghost use Rattle.std.specs.Prelude.{◌≡◌, ◌<◌, ◌≤◌, ◌+◌, ◌*◌, ◌-◌, ◌^◌, ℕ, Ok, Err, None, IfOk, IfErr, OnOk, length};
ghost use Rattle.dw_outside.specs.Faults.{HasCause};
ghost use Rattle.unit_draws.specs.Windows.{window_count};
ghost use Rattle.unit_draws.specs.declared.windows.TheConstants.{WINDOW};
ghost use Rattle.unit_headers.specs.Headers.{unit_count};
ghost use Rattle.handle_cache.specs.Handles.{sections_in};
ghost use Rattle.dump_workers.specs.declared.ends.DumpFault.TheVariants as dump_faults;
ghost use Rattle.dump_workers.specs.declared.serving.TheConstants.{MOST_WORKERS};
ghost use Rattle.dump_workers.specs.Dumps.{CountsWhole, Ends, Prints, WholeRefusesNone, dump_from, dump_of};
ghost use Rattle.dump_workers.specs.FileKeys.{RefusesNone};
ghost use Rattle.dump_workers.specs.Passes.{EachOwnsOnly, KeepsPasses};
ghost use Rattle.dump_workers.specs.Seats.{EachBelongs, EachCounts, EachFollows, EachGains, SeatsNoteFile};
ghost use Rattle.dump_workers.specs.UnitDumps.{entries_from};
ghost use Rattle.dump_workers.specs.Windows.{NoteWindow, StandsBefore};

use crate::alone::dump_alone;
use crate::ends::{DumpEnd, DumpFault, RefusedUnit, Whole};
use crate::handing::{DumpedFile, Hatch};
use crate::printer::{PrintDesk, Printer};
use crate::refused::{FileDraws, FileUnits};
use crate::seat::DumpSeat;
use crate::window::read_window;
use dw_outside::{Gate, Sink};
use handle_cache::Handle;
use std::alloc::Global;
use std::marker::Brand;
use std::thread::Threads;
use unit_draws::{DrawSeat, Draws, MOST_SEATS, WINDOW, count_windows};

/// Reads the units of a window, from its first one to its end, and writes their texts, up to the first unit that is
/// refused. The entries of the units before the window are counted already.
///
/// # Errors
/// Those of the sink, and want of memory.
fn dump_window<
    'f,
    R: Threads + Sync,
    G: Gate + Sync,
    N: DumpedFile + Send + Sync,
    O: Sink,
    L: Send,
>(
    rt: &R,
    alloc: Global,
    handle: &Handle<'f>,
    draws: &FileDraws,
    gate: &G,
    hatch: &Hatch<N>,
    window: u32,
    first: DrawSeat,
    seats: &mut Vec<DumpSeat<'f, L>>,
    start: u32,
    end: u32,
    entries: &mut u64,
    out: &mut O,
) -> Result<(DrawSeat, Option<RefusedUnit>), DumpFault>
    requires name { sections_in handle.now ≡ N.sections }
    requires some { 0 < length seats.old.items }
    requires few { length seats.old.items ≤ MOST_WORKERS }
    requires belong { EachBelongs handle.now seats.old.items }
    requires units { draws.now.sizes.units
        ≡ unit_count (sections_in handle.now).info (sections_in handle.now).order }
    requires tag { draws.now.tag ≡ handle.now.file }
    requires window { window < window_count draws.now.sizes.units }
    requires windows { window < 1024 }
    requires stands { StandsBefore draws.now window first }
    requires from { WINDOW * window ≡ start }
    requires order { start ≤ end }
    requires below { end ≤ WINDOW * (window + 1) }
    requires inside { end ≤ unit_count (sections_in handle.now).info
        (sections_in handle.now).order }
    requires room { entries.old ≤ start * 2 ^ 32 }
    ensures printed { IfOk result (λ r. Prints (Ok r.1)
        (dump_from (sections_in handle.now) start (end - start))
        (O.held out.old) (O.held out.new)) }
    ensures part { IfErr result (λ fault. Prints (Err fault)
        (dump_from (sections_in handle.now) start (end - start))
        (O.held out.old) (O.held out.new)) }
    ensures entries { IfOk result (λ r. r.1 ≡ None → entries.new ≡ entries.old
        + entries_from (sections_in handle.now) start (end - start)) }
    ensures room { IfOk result (λ r. r.1 ≡ None → entries.new ≤ end * 2 ^ 32) }
    ensures cause { HasCause dump_faults.WriteFault (O.faults out.old) (O.faults out.new) result }
    ensures follow { EachFollows seats.old.items seats.new.items }
    ensures belong { EachBelongs handle.now seats.new.items }
    ensures stands { IfOk result (λ r. StandsBefore draws.now (window + 1) r.0) }
    ensures gains { OnOk result (EachGains (sections_in handle.now) seats.old.items
        seats.new.items) }
    ensures counts { EachCounts (sections_in handle.now) seats.old.items seats.new.items }
    ensures noted { OnOk result (RefusesNone (sections_in handle.now)
        → NoteWindow (sections_in handle.now) window seats.new.items) }
{
    let mut printer = Printer::new(alloc, hatch.seat(), start, end, *entries);
    let mut desk = PrintDesk {
        printer: &mut printer,
        out: &mut *out,
    };
    let (seat, readings) = match read_window(
        rt, alloc, handle, draws, gate, window, first, seats, hatch, &mut desk,
    ) {
        Ok(read) => read,
        Err(_) => return Err(printer.stopped(out)),
    };
    match printer.finish(alloc, handle, window, readings.as_slice(), out) {
        Ok(refused) => {
            *entries = printer.entries();
            Ok((seat, refused))
        }
        Err(fault) => Err(fault),
    }
}

/// Dumps the windows of a file one after another.
///
/// # Errors
/// Those of the sink, and want of memory.
fn dump_windows<
    'f,
    R: Threads + Sync,
    G: Gate + Sync,
    N: DumpedFile + Send + Sync,
    O: Sink,
    L: Send,
>(
    rt: &R,
    alloc: Global,
    handle: &Handle<'f>,
    draws: &FileDraws,
    first: DrawSeat,
    seats: &mut Vec<DumpSeat<'f, L>>,
    gate: &G,
    hatch: &Hatch<N>,
    out: &mut O,
) -> Result<DumpEnd, DumpFault>
    requires name { sections_in handle.now ≡ N.sections }
    requires some { 0 < length seats.old.items }
    requires few { length seats.old.items ≤ MOST_WORKERS }
    requires belong { EachBelongs handle.now seats.old.items }
    requires units { draws.now.sizes.units
        ≡ unit_count (sections_in handle.now).info (sections_in handle.now).order }
    requires tag { draws.now.tag ≡ handle.now.file }
    requires stands { StandsBefore draws.now 0 first }
    ensures dump { Ends result (dump_of (sections_in handle.now))
        (O.held out.old) (O.held out.new) }
    ensures whole { IfOk result
        (CountsWhole (sections_in handle.now) (length seats.old.items)) }
    ensures cause { HasCause dump_faults.WriteFault (O.faults out.old) (O.faults out.new) result }
    ensures follow { EachFollows seats.old.items seats.new.items }
    ensures gains { OnOk result (EachGains (sections_in handle.now) seats.old.items
        seats.new.items) }
    ensures counts { EachCounts (sections_in handle.now) seats.old.items seats.new.items }
    ensures noted { OnOk result (RefusesNone (sections_in handle.now)
        → SeatsNoteFile (sections_in handle.now) seats.new.items) }
{
    let units = handle.index().count();
    let mut first = first;
    let mut entries = 0;
    'windows: for window in 0..count_windows(units) {
        let start = WINDOW * window;
        let end = units.min(start + WINDOW);
        match dump_window(
            rt,
            alloc,
            handle,
            draws,
            gate,
            hatch,
            window,
            first,
            seats,
            start,
            end,
            &mut entries,
            out,
        ) {
            Ok((seat, None)) => first = seat,
            Ok((_, Some(refused))) => {
                return Ok(DumpEnd::Refused {
                    unit: refused.unit,
                    fault: refused.fault,
                });
            }
            Err(fault) => return Err(fault),
        }
    }
    let workers = seats.len() as u32;
    Ok(DumpEnd::Whole(Whole {
        units,
        entries,
        workers,
    }))
}

/// Dumps a file by several workers.
///
/// # Errors
/// Those of the sink, and want of memory.
fn dump_file<'f, R: Threads + Sync, G: Gate + Sync, N: DumpedFile + Send + Sync, O: Sink, L: Send>(
    rt: &R,
    alloc: Global,
    handle: &Handle<'f>,
    seats: &mut Vec<DumpSeat<'f, L>>,
    gate: &G,
    out: &mut O,
) -> Result<DumpEnd, DumpFault>
    requires name { sections_in handle.now ≡ N.sections }
    requires some { 0 < length seats.old.items }
    requires few { length seats.old.items ≤ MOST_WORKERS }
    requires belong { EachBelongs handle.now seats.old.items }
    ensures dump { Ends result (dump_of (sections_in handle.now))
        (O.held out.old) (O.held out.new) }
    ensures whole { IfOk result
        (CountsWhole (sections_in handle.now) (length seats.old.items)) }
    ensures cause { HasCause dump_faults.WriteFault (O.faults out.old) (O.faults out.new) result }
    ensures follow { EachFollows seats.old.items seats.new.items }
    ensures gains { OnOk result (EachGains (sections_in handle.now) seats.old.items
        seats.new.items) }
    ensures counts { EachCounts (sections_in handle.now) seats.old.items seats.new.items }
    ensures noted { OnOk result (RefusesNone (sections_in handle.now)
        → SeatsNoteFile (sections_in handle.now) seats.new.items) }
{
    let units = FileUnits::of(handle);
    let (draws, first) = match Draws::new(alloc, handle.index().count(), MOST_SEATS, &units) {
        Ok(made) => made,
        Err(_) => return Err(DumpFault::OutOfMemory),
    };
    match Hatch::<N>::new(alloc) {
        Ok(hatch) => dump_windows(rt, alloc, handle, &draws, first, seats, gate, &hatch, out),
        Err(_) => Err(DumpFault::OutOfMemory),
    }
}

/// Writes the text of every unit of an opened file to a sink, in the units' order, up to the first unit that
/// is refused. There is one worker for each seat, in a thread of its own where one can be made. The units
/// of a window of 256 are drawn one by one and read beside one another. Each text goes out by one `write_all`:
/// where there are several seats the first one's worker, which is the calling thread, writes the texts whose turn has
/// come after each unit that it reads, and what is left when the window is read. The gate is entered before each unit
/// is read and left behind it.
///
/// All seats have passes of this handle's table, at rest; they are so afterwards, whatever the answer is.
/// Where no unit is refused and a pass has all that the units use, its counter is what it was, whatever the
/// answer is.
///
/// # Errors
/// `WriteFault` only where the sink counted a fault, and `OutOfMemory` for want of memory. The sink has then
/// a part of the same bytes.
pub fn dump<'f, R: Threads + Sync, G: Gate + Sync, O: Sink, L: Send>(
    rt: &R,
    alloc: Global,
    handle: &Handle<'f>,
    seats: &mut Vec<DumpSeat<'f, L>>,
    gate: &G,
    out: &mut O,
) -> Result<DumpEnd, DumpFault>
    requires some { 0 < length seats.old.items }
    requires few { length seats.old.items ≤ MOST_WORKERS }
    requires belong { EachBelongs handle.now seats.old.items }

    // the bytes, or the first refused unit, are those of reading every unit anew, one after another
    ensures dump { Ends result (dump_of (sections_in handle.now))
        (O.held out.old) (O.held out.new) }
    ensures whole { IfOk result
        (CountsWhole (sections_in handle.now) (length seats.old.items)) }
    ensures cause { HasCause dump_faults.WriteFault (O.faults out.old) (O.faults out.new) result }
    ensures none { IfOk result (WholeRefusesNone (sections_in handle.now)) }

    // the passes stay with the table, and their fronts only grow
    ensures follow { EachFollows seats.old.items seats.new.items }
    ensures belong { EachBelongs handle.now seats.new.items }
    ensures passes { KeepsPasses seats.old.items seats.new.items }
    ensures size { length seats.new.items ≡ length seats.old.items }

    // where no unit is refused, a pass that has all that the units use counts nothing, whatever the answer is
    ensures counts { EachCounts (sections_in handle.now) seats.old.items seats.new.items }

    // what the table gained, where no unit is refused
    ensures gains { OnOk result (EachGains (sections_in handle.now) seats.old.items
        seats.new.items) }
    ensures only { OnOk result (RefusesNone (sections_in handle.now)
        → EachOwnsOnly (sections_in handle.now) seats.old.items
        → EachOwnsOnly (sections_in handle.now) seats.new.items) }
    ensures noted { OnOk result (RefusesNone (sections_in handle.now)
        → SeatsNoteFile (sections_in handle.now) seats.new.items) }
{
    if seats.len() == 1 {
        return dump_alone(alloc, handle, seats, gate, out);
    }
    dump_file::<R, G, Brand, O, L>(rt, alloc, handle, seats, gate, out)
}
