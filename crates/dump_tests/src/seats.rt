//! Two dumps of a file by so many workers, and what is compared behind them.

ghost use Rattle.std.specs.Prelude.{◌≡◌, ◌<◌, ◌≤◌, length};
ghost use Rattle.dump_workers.specs.Passes.{KeepsPasses};
ghost use Rattle.dump_workers.specs.Seats.{EachBelongs};
ghost use Rattle.dump_workers.specs.declared.serving.TheConstants.{MOST_WORKERS};

use dump_workers::{DumpEnd, DumpFault, DumpSeat, Whole, dump, join_seats, published, split_seats};
use dw_outside::{Gate, MemorySink, OpenGate};
use handle_cache::Handle;
use std::alloc::Global;
use std::process::Abort;
use std::test::Fail;
use std::thread::Threads;

/// What a dump comes to.
#[derive(Clone, Copy, Debug, PartialEq, Eq)]
pub(crate) enum Ended {
    /// So many units and entries, and so many keys of the file in the table.
    Whole(u32, u64, u64),
    /// The unit that is refused.
    Refused(u32),
}

/// How many steps all counters have.
fn count_steps(seats: &[DumpSeat<'_, ()>]) -> u64 {
    let mut steps: u64 = 0;
    for seat in seats {
        steps = steps.wrapping_add(seat.steps.count());
    }
    steps
}

/// Dumps with these seats. Compares the text, and the unit that is refused.
pub(crate) fn check_dump<'f, R: Threads + Abort + Sync, G: Gate + Sync>(
    rt: &R,
    alloc: Global,
    handle: &Handle<'f>,
    seats: &mut Vec<DumpSeat<'f, ()>>,
    gate: &G,
    text: &[u8],
    refused: Option<u32>,
) -> Option<Whole>
    requires some { 0 < length seats.old.items }
    requires few { length seats.old.items ≤ MOST_WORKERS }
    requires belong { EachBelongs handle.now seats.old.items }
    ensures size { length seats.new.items ≡ length seats.old.items }
    ensures belong { EachBelongs handle.now seats.new.items }
    ensures passes { KeepsPasses seats.old.items seats.new.items }
{
    let mut out = MemorySink::new(alloc, Vec::new(alloc));
    let end = dump(rt, alloc, handle, seats, gate, &mut out);
    assert_eq!(rt; out.bytes(), text);
    match end {
        Ok(DumpEnd::Whole(whole)) => {
            assert_eq!(rt; None, refused);
            Some(whole)
        }
        Ok(DumpEnd::Refused { unit, .. }) => {
            assert_eq!(rt; Some(unit), refused);
            None
        }
        Err(_) => panic!(rt; "the dump was stopped"),
    }
}

/// Dumps a file of units that aren't refused twice with so many workers, the second time into a sink that fails at its
/// second call. Nothing is counted then.
pub(crate) fn check_stopped<R: Threads + Abort + Sync>(
    rt: &R,
    alloc: Global,
    file: &[u8],
    workers: u32,
    text: &[u8],
) -> Result<(), Fail>
    requires some { 1 ≤ workers }
    requires few { workers ≤ MOST_WORKERS }
{
    let (handle, first) = Handle::open(alloc, file, workers)?;
    let mut seats = split_seats(alloc, &handle, first, workers)?;
    check_dump(rt, alloc, &handle, &mut seats, &OpenGate, text, None);
    let steps = count_steps(seats.as_slice());
    let mut failing = Vec::new(alloc);
    failing.push(2)?;
    let mut out = MemorySink::new(alloc, failing);
    let end = dump(rt, alloc, &handle, &mut seats, &OpenGate, &mut out);
    assert!(rt; matches!(end, Err(DumpFault::WriteFault)));
    assert!(rt; text.starts_with(out.bytes()));
    assert_eq!(rt; count_steps(seats.as_slice()), steps);
    Ok(())
}

/// Dumps a file twice with so many workers. Compares both texts, how the dumps end, and what the table has then. The
/// second dump finds all in the table, so that it makes no step.
pub(crate) fn check_file<R: Threads + Abort + Sync>(
    rt: &R,
    alloc: Global,
    file: &[u8],
    workers: u32,
    text: &[u8],
    ended: Ended,
) -> Result<(), Fail>
    requires some { 1 ≤ workers }
    requires few { workers ≤ MOST_WORKERS }
{
    let (handle, first) = Handle::open(alloc, file, workers)?;
    let mut seats = split_seats(alloc, &handle, first, workers)?;
    let refused = match ended {
        Ended::Whole(_, _, _) => None,
        Ended::Refused(unit) => Some(unit),
    };
    check_dump(rt, alloc, &handle, &mut seats, &OpenGate, text, refused);
    let steps = count_steps(seats.as_slice());
    let whole = check_dump(rt, alloc, &handle, &mut seats, &OpenGate, text, refused);
    let more = count_steps(seats.as_slice());
    let pass = join_seats(&handle, seats);
    if let Some(whole) = whole {
        let told = published(&handle, whole, &pass);
        assert_eq!(rt;
            Ended::Whole(told.units(), told.entries(), told.number()),
            ended
        );
        assert_eq!(rt; told.workers(), workers);
        assert_eq!(rt; more, steps);
    }
    Ok(())
}
