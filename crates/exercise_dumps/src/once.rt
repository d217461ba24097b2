//! One dump of an opened file of which no unit is refused.

ghost use Rattle.std.specs.Prelude.{◌≡◌, ◌≤◌, ◌+◌, ◌-◌, ℕ, IfOk, length};
ghost use Rattle.unit_headers.specs.Headers.{unit_count};
ghost use Rattle.handle_cache.specs.Handles.{Belongs, front_keys, sections_in};
ghost use Rattle.dump_workers.specs.Dumps.{dump_of};
ghost use Rattle.dump_workers.specs.FileKeys.{KnowsFile, RefusesNone};
ghost use Rattle.dump_workers.specs.Passes.{HasAllPasses};
ghost use Rattle.dump_workers.specs.TableKeys.{HoldsFile, OwnsOnly};
ghost use Rattle.dump_workers.specs.UnitDumps.{file_entries};
ghost use Rattle.dump_workers.specs.declared.serving.TheConstants.{MOST_WORKERS};

use crate::steps::steps_of;
use dump_workers::{DumpEnd, DumpFault, Whole, dump, join_seats, split_seats};
use dw_outside::{Gate, NoFaultSink};
use handle_cache::{Handle, HandlePass};
use std::alloc::{AllocError, Global};
use std::thread::Threads;

/// What came of a dump.
#[derive(Drop)]
pub(super) struct Dumped<'f> {
    /// What it told.
    pub whole: Whole,
    /// What it wrote.
    pub out: NoFaultSink,
    /// How many steps its workers made.
    pub steps: u64,
    /// The pass into which those of all workers were joined.
    pub pass: HandlePass<'f>,
}

/// Dumps with so many workers, whose passes are split off this one and joined into it again.
pub(super) fn dump_once<'f, R: Threads + Sync, G: Gate + Sync>(
    rt: &R,
    alloc: Global,
    handle: &Handle<'f>,
    pass: HandlePass<'f>,
    workers: u32,
    gate: &G,
) -> Result<Dumped<'f>, AllocError>
    requires belongs { Belongs handle.now pass }
    requires number { pass.knows.number ≡ 0 }
    requires all { HasAllPasses pass.knows }
    requires some { 1 ≤ workers }
    requires few { workers ≤ MOST_WORKERS }
    requires spare { workers ≤ 1 + pass.knows.spare }
    requires none { RefusesNone (sections_in handle.now) }
    requires only { OwnsOnly (sections_in handle.now) pass }
    ensures units { IfOk result (λ d. d.whole.units
        ≡ unit_count (sections_in handle.now).info (sections_in handle.now).order) }
    ensures entries { IfOk result (λ d. d.whole.entries ≡ file_entries (sections_in handle.now)) }
    ensures workers { IfOk result (λ d. d.whole.workers ≡ workers) }
    ensures text { IfOk result (λ d. d.out ≡ (dump_of (sections_in handle.now)).text) }
    ensures steps { IfOk result (λ d. KnowsFile (sections_in handle.now)
        (front_keys pass.entry) → d.steps ≡ 0) }
    ensures belongs { IfOk result (λ d. Belongs handle.now d.pass) }
    ensures number { IfOk result (λ d. d.pass.knows.number ≡ 0) }
    ensures all { IfOk result (λ d. HasAllPasses d.pass.knows) }
    ensures passes { IfOk result (λ d. length d.pass.knows.numbers
        ≡ length pass.entry.knows.numbers + (workers - 1)) }
    ensures holds { IfOk result (λ d. HoldsFile (sections_in handle.now) d.pass) }
{
    let mut seats = split_seats(alloc, handle, pass, workers)?;
    let mut out = NoFaultSink::new(alloc);
    let whole = match dump(rt, alloc, handle, &mut seats, gate, &mut out) {
        Ok(DumpEnd::Whole(whole)) => whole,
        Ok(DumpEnd::Refused { .. }) => unreachable!(),
        Err(DumpFault::WriteFault) => unreachable!(),
        Err(DumpFault::OutOfMemory) => return Err(AllocError),
    };
    let steps = steps_of(seats.as_slice());
    let pass = join_seats(handle, seats);
    Ok(Dumped {
        whole,
        out,
        steps,
        pass,
    })
}
