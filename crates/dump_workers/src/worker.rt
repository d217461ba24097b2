//! What one worker does in a window: it draws units, and reads each that it drew.

ghost use Rattle.std.specs.Prelude.{◌≡◌, ◌<◌, ◌≤◌, ◌++◌, ◌∷◌, [], ℕ, IfOk, OnOk, IsTrue, length, slice_index_or};
ghost use Rattle.unit_draws.specs.Seats.{IsSeatOf, occurrences};
ghost use Rattle.unit_draws.specs.Windows.{IsUnitOfWindow, window_count};
ghost use Rattle.unit_headers.specs.Headers.{unit_count};
ghost use Rattle.map_cells.specs.Seen.{Follows};
ghost use Rattle.handle_cache.specs.Handles.{Belongs, sections_in};
ghost use Rattle.dump_workers.specs.declared.serving.TheConstants.{MOST_WORKERS};
ghost use Rattle.dump_workers.specs.FileKeys.{CountsUnits, GainsUnits, NotesUnit, RefusesNone};
ghost use Rattle.dump_workers.specs.Readings.{IsRead};
ghost use Rattle.dump_workers.specs.RefusedUnits.{IsBehindRefused};
ghost use Rattle.dump_workers.specs.Seats.{DumpSeatView};
ghost use Rattle.dump_workers.specs.Windows.{EachMayServe, EachServed, KeepsDrawn, LeavesServed, MayServe, NotesReadings, ServesWindow};

use crate::desk::Desk;
use crate::handing::{DumpedFile, Hatch};
use crate::reading::{Reading, UnitRead};
use crate::refused::FileDraws;
use crate::seat::{DumpSeat, Work};
use crate::serving::{Runs, Serves, serve_beside};
use crate::unit::{read_unit, room_for_text};
use abbrev_decl::Steps;
use bumpalo::Bump;
use dw_outside::Gate;
use entry_tree::renew;
use handle_cache::{Handle, HandlePass};
use std::alloc::{AllocError, Global};
use std::thread::Threads;
use unit_draws::DrawSeat;
use walked_tables::TableWalker;

/// Puts what was read of a unit at the list's end.
fn add_reading(readings: &mut Vec<Reading>, reading: Reading) -> Result<(), AllocError>
    ensures { OnOk result (readings.new.items ≡ readings.old.items ++ reading ∷ []) }
{
    match readings.push(reading) {
        Ok(()) => Ok(()),
        Err(_) => Err(AllocError),
    }
}

/// Whether a unit of the window before this one is refused, as far as the seats have told.
fn is_behind_refused<'f>(
    handle: &Handle<'f>,
    draws: &FileDraws,
    seat: &mut DrawSeat,
    window: u32,
    unit: u32,
) -> bool
    requires of { IsSeatOf draws.now seat.old }
    requires tag { draws.now.tag ≡ handle.now.file }
    requires window { window < window_count draws.now.sizes.units }
    requires unit { IsUnitOfWindow draws.now.sizes.units window unit }
    ensures of { IsSeatOf draws.now seat.new }
    ensures same { seat.new.knows ≡ seat.old.knows }
    ensures behind { IsTrue result → IsBehindRefused (sections_in handle.now) unit }
{
    handle.recall();
    match draws.least(seat, window) {
        Some(least) => least < unit,
        None => false,
    }
}

/// Tells the draws of a unit that is refused.
fn tell_refused<'f>(handle: &Handle<'f>, draws: &FileDraws, seat: &mut DrawSeat, reading: &Reading)
    requires of { IsSeatOf draws.now seat.old }
    requires tag { draws.now.tag ≡ handle.now.file }
    requires counted { reading.now.unit < draws.now.sizes.units }
    requires read { IsRead (sections_in handle.now) reading.now.unit reading.now.read }
    ensures of { IsSeatOf draws.now seat.new }
    ensures keeps { KeepsDrawn seat.old.knows seat.new.knows }
{
    handle.recall();
    match &reading.read {
        UnitRead::Refused(_) => draws.lower(seat, reading.unit),
        UnitRead::Whole { .. } => {}
        UnitRead::Skipped => {}
        UnitRead::Handed => {}
    }
}

/// Reads a unit that was drawn, and tells of it where it is refused. Behind a refused unit of its window nothing is
/// read.
///
/// # Errors
/// Want of memory.
fn read_drawn<'f, G: Gate, L>(
    alloc: Global,
    arena: &Bump,
    handle: &Handle<'f>,
    draws: &FileDraws,
    gate: &G,
    worker: u32,
    window: u32,
    unit: u32,
    text: Vec<u8>,
    pass: &mut HandlePass<'f>,
    walker: &mut TableWalker<'f>,
    steps: &mut Steps<L>,
    seat: &mut DrawSeat,
) -> Result<Reading, AllocError>
    requires belongs { Belongs handle.now pass.old }
    requires walks { walker.old ≡ (sections_in handle.now).«abbrev» }
    requires units { draws.now.sizes.units
        ≡ unit_count (sections_in handle.now).info (sections_in handle.now).order }
    requires tag { draws.now.tag ≡ handle.now.file }
    requires of { IsSeatOf draws.now seat.old }
    requires window { window < window_count draws.now.sizes.units }
    requires unit { IsUnitOfWindow draws.now.sizes.units window unit }
    ensures unit { IfOk result (λ r. r.unit ≡ unit) }
    ensures read { IfOk result (λ r. IsRead (sections_in handle.now) unit r.read) }
    ensures belongs { Belongs handle.now pass.new }
    ensures walks { walker.new ≡ (sections_in handle.now).«abbrev» }
    ensures follows { Follows pass.old pass.new }
    ensures noted { OnOk result (RefusesNone (sections_in handle.now)
        → NotesUnit (sections_in handle.now) unit pass.new) }
    ensures gains { OnOk result (GainsUnits (sections_in handle.now) pass.old pass.new) }
    ensures counts { CountsUnits (sections_in handle.now) pass.old steps.old steps.new }
    ensures of { IsSeatOf draws.now seat.new }
    ensures keeps { KeepsDrawn seat.old.knows seat.new.knows }
{
    if is_behind_refused(handle, draws, seat, window, unit) {
        let read = UnitRead::Skipped;
        return Ok(Reading { unit, read });
    }
    gate.enter(worker, unit);
    let read = read_unit(alloc, arena, handle, pass, walker, unit, text, steps);
    gate.leave(worker, unit);
    match read {
        Ok(reading) => {
            tell_refused(handle, draws, seat, &reading);
            Ok(reading)
        }
        Err(error) => Err(error),
    }
}

/// Memory for the text of a unit: what the desk has, or new.
fn text_for<N: DumpedFile, D: Desk<N>>(
    alloc: Global,
    handle: &Handle<'_>,
    unit: u32,
    desk: &mut D,
) -> Vec<u8>
    requires { unit < unit_count (sections_in handle.now).info (sections_in handle.now).order }
    ensures { D.goes desk.old desk.new }
{
    match desk.buffer() {
        Some(text) => text,
        None => room_for_text(alloc, handle, unit),
    }
}

/// Draws units of the window until none is left, reads each of them, and lets the desk have its text. The arena and
/// the walker serve one after another.
///
/// # Errors
/// Want of memory.
fn work_window<'f, G: Gate, N: DumpedFile, D: Desk<N>, L>(
    alloc: Global,
    handle: &Handle<'f>,
    draws: &FileDraws,
    gate: &G,
    worker: u32,
    window: u32,
    pass: &mut HandlePass<'f>,
    steps: &mut Steps<L>,
    seat: &mut DrawSeat,
    desk: &mut D,
) -> Result<Vec<Reading>, AllocError>
    requires name { sections_in handle.now ≡ N.sections }
    requires belongs { Belongs handle.now pass.old }
    requires units { draws.now.sizes.units
        ≡ unit_count (sections_in handle.now).info (sections_in handle.now).order }
    requires tag { draws.now.tag ≡ handle.now.file }
    requires of { IsSeatOf draws.now seat.old }
    requires window { window < window_count draws.now.sizes.units }
    requires open { occurrences window seat.old.knows.ended ≡ 0 }
    ensures belongs { Belongs handle.now pass.new }
    ensures follows { Follows pass.old pass.new }
    ensures serves { IfOk result (λ readings. ServesWindow draws.now (sections_in handle.now)
        window seat.old.knows seat.new readings.items) }
    ensures noted { IfOk result
        (λ readings. NotesReadings (sections_in handle.now) pass.new readings.items) }
    ensures gains { OnOk result (GainsUnits (sections_in handle.now) pass.old pass.new) }
    ensures counts { CountsUnits (sections_in handle.now) pass.old steps.old steps.new }
    ensures goes { D.goes desk.old desk.new }
{
    let mut arena = Bump::new(alloc);
    let mut walker = TableWalker::new(alloc, handle.sections().abbrev);
    let mut readings = Vec::new(alloc);
    'units: while let Some(unit) = draws.draw(seat, window) {
        let text = text_for(alloc, handle, unit, desk);
        let read = read_drawn(
            alloc,
            &arena,
            handle,
            draws,
            gate,
            worker,
            window,
            unit,
            text,
            pass,
            &mut walker,
            steps,
            seat,
        );
        let reading = match read {
            Ok(reading) => reading,
            Err(_) => return Err(AllocError),
        };
        let reading = match desk.hand(reading) {
            Ok(reading) => reading,
            Err(_) => return Err(AllocError),
        };
        match add_reading(&mut readings, reading) {
            Ok(()) => {}
            Err(_) => return Err(AllocError),
        }
        renew(alloc, &mut arena);
    }
    Ok(readings)
}

/// The work of a window.
#[derive(Drop)]
struct WindowWork<'w, 'f, G, N: DumpedFile> {
    alloc: Global,
    handle: &'w Handle<'f>,
    draws: &'w FileDraws,
    gate: &'w G,
    hatch: &'w Hatch<N>,
    window: u32,
    ghost name: { sections_in handle.now ≡ N.sections },
    ghost units: { draws.now.sizes.units
        ≡ unit_count (sections_in handle.now).info (sections_in handle.now).order },
    ghost tag: { draws.now.tag ≡ handle.now.file },
    ghost inside: { window < window_count draws.now.sizes.units },
}

/// Serves the window in one seat.
fn serve_seat<'f, G: Gate, N: DumpedFile, D: Desk<N>, L>(
    alloc: Global,
    handle: &Handle<'f>,
    draws: &FileDraws,
    gate: &G,
    worker: u32,
    window: u32,
    seat: &mut DumpSeat<'f, L>,
    desk: &mut D,
)
    requires name { sections_in handle.now ≡ N.sections }
    requires serve { MayServe handle.now draws.now window seat.old }
    requires units { draws.now.sizes.units
        ≡ unit_count (sections_in handle.now).info (sections_in handle.now).order }
    requires tag { draws.now.tag ≡ handle.now.file }
    requires window { window < window_count draws.now.sizes.units }
    ensures leaves { LeavesServed handle.now draws.now window seat.old seat.new }
    ensures goes { D.goes desk.old desk.new }
{
    match seat.change(Work::Idle) {
        Work::Drawing(mut draw) => {
            match work_window(
                alloc,
                handle,
                draws,
                gate,
                worker,
                window,
                &mut seat.pass,
                &mut seat.steps,
                &mut draw,
                desk,
            ) {
                Ok(readings) => {
                    seat.change(Work::Drawn {
                        seat: draw,
                        readings,
                    });
                }
                Err(_) => {}
            }
        }
        Work::Idle => {}
        Work::Drawn { .. } => {}
    }
}

impl<'w, 'f, G: Gate, N: DumpedFile, L> Serves<DumpSeat<'f, L>> for WindowWork<'w, 'f, G, N> {
    ghost use Rattle.std.specs.Prelude.{◌+◌, ◌<◌};
    ghost use Rattle.dump_workers.specs.declared.serving.TheConstants.{MOST_WORKERS};
    ghost use Rattle.dump_workers.specs.Windows.{LeavesServed, MayServe};

    ghost accepts = { λ w i seat. (i + 1 < MOST_WORKERS)
        × MayServe w.handle.now w.draws.now w.window seat };

    ghost gives = { λ w i old new. LeavesServed w.handle.now w.draws.now w.window old new };

    fn serve(&self, worker: usize, seat: &mut DumpSeat<'f, L>) {
        let mut desk = self.hatch.seat();
        serve_seat(
            self.alloc,
            self.handle,
            self.draws,
            self.gate,
            worker as u32 + 1,
            self.window,
            seat,
            &mut desk,
        );
    }
}

/// The work of the first worker, whose desk is the caller's.
#[derive(Drop)]
struct FirstWork<'a, 'b, 'w, 'f, G, N: DumpedFile, D: Desk<N>> {
    work: &'a WindowWork<'w, 'f, G, N>,
    desk: &'b mut D,
}

impl<'a, 'b, 'w, 'f, G: Gate, N: DumpedFile, D: Desk<N>, L> Runs<DumpSeat<'f, L>>
    for FirstWork<'a, 'b, 'w, 'f, G, N, D> {
    ghost use Rattle.dump_workers.specs.Windows.{LeavesServed, MayServe};

    ghost ready = { λ f seat. MayServe f.work.now.handle.now f.work.now.draws.now
        f.work.now.window seat };

    ghost moves = { λ x y. (y.desk.ghost_name ≡ x.desk.ghost_name)
        × D.Desk.goes x.desk.now y.desk.now };

    ghost ran = { λ x old new. LeavesServed x.work.now.handle.now x.work.now.draws.now
        x.work.now.window old new };

    fn run(&mut self, seat: &mut DumpSeat<'f, L>) {
        let work = self.work;
        serve_seat(
            work.alloc,
            work.handle,
            work.draws,
            work.gate,
            0,
            work.window,
            seat,
            self.desk,
        );
    }
}

/// Serves the window in these seats: in the first one by the calling thread, at this desk, and in each other one in a
/// thread of its own, which hands its texts on.
fn serve_split<
    'f,
    R: Threads + Sync,
    G: Gate + Sync,
    N: DumpedFile + Send + Sync,
    D: Desk<N>,
    L: Send,
>(
    rt: &R,
    alloc: Global,
    handle: &Handle<'f>,
    draws: &FileDraws,
    gate: &G,
    hatch: &Hatch<N>,
    window: u32,
    seats: &mut [DumpSeat<'f, L>],
    desk: &mut D,
)
    requires name { sections_in handle.now ≡ N.sections }
    requires some { 0 < length seats.old }
    requires few { length seats.old ≤ MOST_WORKERS }
    requires serve { EachMayServe handle.now draws.now window seats.old }
    requires units { draws.now.sizes.units
        ≡ unit_count (sections_in handle.now).info (sections_in handle.now).order }
    requires tag { draws.now.tag ≡ handle.now.file }
    requires window { window < window_count draws.now.sizes.units }
    ensures served { EachServed handle.now draws.now window seats.old seats.new }
    ensures goes { D.goes desk.old desk.new }
{
    let work = WindowWork {
        alloc,
        handle,
        draws,
        gate,
        hatch,
        window,
    };
    let mut mine = FirstWork {
        work: &work,
        desk: &mut *desk,
    };
    serve_beside(rt, &work, &mut mine, seats);
}

/// Serves the window in all seats, the first of them at this desk.
pub(crate) fn serve_all<
    'f,
    R: Threads + Sync,
    G: Gate + Sync,
    N: DumpedFile + Send + Sync,
    D: Desk<N>,
    L: Send,
>(
    rt: &R,
    alloc: Global,
    handle: &Handle<'f>,
    draws: &FileDraws,
    gate: &G,
    hatch: &Hatch<N>,
    window: u32,
    seats: &mut Vec<DumpSeat<'f, L>>,
    desk: &mut D,
)
    requires name { sections_in handle.now ≡ N.sections }
    requires some { 0 < length seats.old.items }
    requires few { length seats.old.items ≤ MOST_WORKERS }
    requires serve { EachMayServe handle.now draws.now window seats.old.items }
    requires units { draws.now.sizes.units
        ≡ unit_count (sections_in handle.now).info (sections_in handle.now).order }
    requires tag { draws.now.tag ≡ handle.now.file }
    requires window { window < window_count draws.now.sizes.units }
    ensures served { EachServed handle.now draws.now window seats.old.items seats.new.items }
    ensures goes { D.goes desk.old desk.new }
{
    serve_split(
        rt,
        alloc,
        handle,
        draws,
        gate,
        hatch,
        window,
        seats.as_mut_slice(),
        desk,
    );
}
