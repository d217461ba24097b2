//! One window: its units are drawn and read by all seats, and what was read is gathered.

ghost use Rattle.std.specs.Prelude.{◌≡◌, ◌<◌, ◌≤◌, ◌+◌, ℕ, IfOk, OnOk, length, slice_index_or};
ghost use Rattle.unit_draws.specs.Windows.{window_count};
ghost use Rattle.unit_headers.specs.Headers.{unit_count};
ghost use Rattle.handle_cache.specs.Handles.{sections_in};
ghost use Rattle.dump_workers.specs.declared.serving.TheConstants.{MOST_WORKERS};
ghost use Rattle.dump_workers.specs.FileKeys.{RefusesNone};
ghost use Rattle.dump_workers.specs.Seats.{DumpSeatView, EachBelongs, EachCounts, EachFollows, EachGains};
ghost use Rattle.dump_workers.specs.Windows.{NoteWindow, ReadsWindow, StandsBefore};

use crate::desk::Desk;
use crate::handing::{DumpedFile, Hatch};
use crate::hands::{gather, hand_out};
use crate::reading::Reading;
use crate::refused::FileDraws;
use crate::seat::DumpSeat;
use crate::worker::serve_all;
use dw_outside::Gate;
use handle_cache::Handle;
use std::alloc::{AllocError, Global};
use std::thread::Threads;
use unit_draws::DrawSeat;

/// Reads the units of a window, each by the seat that drew it. The first seat's worker sits at this desk.
///
/// # Errors
/// Want of memory.
pub(crate) fn read_window<
    'f,
    R: Threads + Sync,
    G: Gate + Sync,
    N: DumpedFile + Send + Sync,
    D: Desk<N>,
    L: Send,
>(
    rt: &R,
    alloc: Global,
    handle: &Handle<'f>,
    draws: &FileDraws,
    gate: &G,
    window: u32,
    first: DrawSeat,
    seats: &mut Vec<DumpSeat<'f, L>>,
    hatch: &Hatch<N>,
    desk: &mut D,
) -> Result<(DrawSeat, Vec<Reading>), AllocError>
    requires name { sections_in handle.now ≡ N.sections }
    requires some { 0 < length seats.old.items }
    requires few { length seats.old.items ≤ MOST_WORKERS }
    requires belong { EachBelongs handle.now seats.old.items }
    requires units { draws.now.sizes.units
        ≡ unit_count (sections_in handle.now).info (sections_in handle.now).order }
    requires tag { draws.now.tag ≡ handle.now.file }
    requires window { window < window_count draws.now.sizes.units }
    requires windows { window < 1024 }
    requires stands { StandsBefore draws.now window first }
    ensures follow { EachFollows seats.old.items seats.new.items }
    ensures belong { EachBelongs handle.now seats.new.items }
    ensures stands { IfOk result (λ r. StandsBefore draws.now (window + 1) r.0) }
    ensures reads { IfOk result (λ r. ReadsWindow (sections_in handle.now) window r.1.items) }
    ensures gains { OnOk result (EachGains (sections_in handle.now) seats.old.items
        seats.new.items) }
    ensures counts { EachCounts (sections_in handle.now) seats.old.items seats.new.items }
    ensures noted { OnOk result (RefusesNone (sections_in handle.now)
        → NoteWindow (sections_in handle.now) window seats.new.items) }
    ensures goes { D.goes desk.old desk.new }
{
    hand_out(draws, first, seats);
    serve_all(rt, alloc, handle, draws, gate, hatch, window, seats, desk);
    gather(draws, seats)
}
