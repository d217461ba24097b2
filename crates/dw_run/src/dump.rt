//! The command `dump`: the text of every unit, read by several workers.

ghost use Rattle.std.specs.Prelude.{◌≡◌, Some, IfOk, OnErr, OnOk};
ghost use Rattle.dw_outside.specs.Faults.{HasCause};
ghost use Rattle.dw_outside.specs.Gains.{Gains, GainsPart};
ghost use Rattle.dw_outside.specs.declared.stops.WriteStop.TheVariants as write_stops;
ghost use Rattle.dw_text.specs.Added.{Adds};
ghost use Rattle.dw_words.specs.GivenWords.{AreFewWorkers};
ghost use Rattle.handle_cache.specs.Handles.{IsOpenedOn, sections_in};
ghost use Rattle.dump_workers.specs.Passes.{AreLed, EachOwnsOnly, HaveAllPasses};
ghost use Rattle.dump_workers.specs.Seats.{EachBelongs, SeatsNoteFile};
ghost use Rattle.dump_workers.specs.TableKeys.{published_count};
ghost use Rattle.dw_run.specs.Commands.{text_of_sections};
ghost use Rattle.dw_run.specs.DumpTexts.{PrintsDump, TellsDump, dump_printed, dump_tells};
ghost use Rattle.dw_run.specs.DumpTexts.{published_line, sections_tell, stats_text};
ghost use Rattle.dw_run.specs.FileRequests.{dumped};
ghost use Rattle.dw_run.specs.Output.{Ends, EndsRun, tells_of_file, text_of_file, told_at};

use crate::endings::{DONE, RunEnd, end_refused, end_stopped, end_unread};
use crate::refusals::Refusal;
use dump_workers::{
    DumpEnd, DumpFault, DumpSeat, Published, Whole, dump, join_seats, published, split_seats,
};
use dw_outside::{Gate, Sink, Source, WriteStop, read_file, write_all};
use dw_text::{push_decimal_after, push_text_after};
use elf_sections::{FILE_LIMIT, OpenRefusal};
use handle_cache::{Handle, HandlePass};
use std::alloc::{AllocError, Global};
use std::thread::Threads;

/// What is asked of a dump.
#[derive(Clone, Copy, Debug)]
pub(crate) struct DumpWords {
    /// The number of workers.
    pub workers: u32,
    /// Whether the number of published keys is printed.
    pub stats: bool,
}

/// How the dump of a file ended that nothing outside stopped.
#[derive(Drop)]
enum FileDump {
    /// All was written.
    Whole(Published),
    /// What stands before this refusal was written.
    Refused(Refusal),
}

/// Reads the file of this name, dumps it, and ends the run.
pub(crate) fn answer_dump<R: Threads + Sync, S: Source, O: Sink, E: Sink, G: Gate + Sync>(
    rt: &R,
    alloc: Global,
    words: DumpWords,
    name: &str,
    source: &mut S,
    out: &mut O,
    err: &mut E,
    gate: &G,
) -> RunEnd
    requires { AreFewWorkers words.workers }
    ensures { EndsRun (Some (dumped name.now words.workers words.stats)) (S.holds source.old)
        result.status result.published
        (O.held out.old) (O.held out.new) (E.held err.old) (E.held err.new)
        (S.faults source.old) (S.faults source.new) (O.faults out.old) (O.faults out.new)
        (E.faults err.old) (E.faults err.new) }
{
    match read_file(alloc, source, name, FILE_LIMIT) {
        Ok(file) => dump_and_end(rt, alloc, words, file.as_slice(), out, err, gate),
        Err(stop) => RunEnd::of(end_unread(err, stop)),
    }
}

/// Dumps the bytes of a file, and ends the run.
fn dump_and_end<R: Threads + Sync, O: Sink, E: Sink, G: Gate + Sync>(
    rt: &R,
    alloc: Global,
    words: DumpWords,
    file: &[u8],
    out: &mut O,
    err: &mut E,
    gate: &G,
) -> RunEnd
    requires { AreFewWorkers words.workers }
    ensures ends { Ends (text_of_file (text_of_sections (dump_printed words.stats)) file.now)
        result.status (O.held out.old) (O.held out.new) (E.held err.old) (E.held err.new)
        (O.faults out.old) (O.faults out.new) (E.faults err.old) (E.faults err.new) }
    ensures told { result.published
        ≡ told_at result.status (tells_of_file (Some (dump_tells words.workers)) file.now) }
{
    match dump_file(rt, alloc, words, file, out, gate) {
        Ok(FileDump::Whole(published)) => RunEnd {
            status: DONE,
            published: Some(published),
        },
        Ok(FileDump::Refused(refusal)) => RunEnd::of(end_refused(alloc, err, &refusal)),
        Err(stop) => RunEnd::of(end_stopped(err, stop)),
    }
}

/// Writes the text of every unit of a file.
#[tactic(auto, unfolding(crate::specs::Output::text_of_file, crate::specs::Output::tells_of_file))]
fn dump_file<R: Threads + Sync, O: Sink, G: Gate + Sync>(
    rt: &R,
    alloc: Global,
    words: DumpWords,
    file: &[u8],
    out: &mut O,
    gate: &G,
) -> Result<FileDump, WriteStop>
    requires { AreFewWorkers words.workers }
    ensures printed { PrintsDump result
        (text_of_file (text_of_sections (dump_printed words.stats)) file.now)
        (O.held out.old) (O.held out.new) }
    ensures told { IfOk result
        (TellsDump (tells_of_file (Some (dump_tells words.workers)) file.now)) }
    ensures cause { HasCause write_stops.Failed (O.faults out.old) (O.faults out.new) result }
{
    match Handle::open(alloc, file, words.workers) {
        Ok((handle, first)) => dump_opened(rt, alloc, words, &handle, first, out, gate),
        Err(OpenRefusal::Refused(refusal)) => Ok(FileDump::Refused(Refusal::File(refusal))),
        Err(OpenRefusal::OutOfMemory) => Err(WriteStop::OutOfMemory),
    }
}

/// Writes the text of every unit of a file that was just opened for as many passes as there are workers.
fn dump_opened<'f, R: Threads + Sync, O: Sink, G: Gate + Sync>(
    rt: &R,
    alloc: Global,
    words: DumpWords,
    handle: &Handle<'f>,
    first: HandlePass<'f>,
    out: &mut O,
    gate: &G,
) -> Result<FileDump, WriteStop>
    requires few { AreFewWorkers words.workers }
    requires opened { IsOpenedOn handle.now.file words.workers handle.now first }
    ensures printed { PrintsDump result (dump_printed words.stats (sections_in handle.now))
        (O.held out.old) (O.held out.new) }
    ensures told { IfOk result
        (TellsDump (Some (sections_tell words.workers (sections_in handle.now)))) }
    ensures cause { HasCause write_stops.Failed (O.faults out.old) (O.faults out.new) result }
{
    let mut seats = match split_seats(alloc, handle, first, words.workers) {
        Ok(seats) => seats,
        Err(_) => return Err(WriteStop::OutOfMemory),
    };
    match dump(rt, alloc, handle, &mut seats, gate, out) {
        Ok(DumpEnd::Whole(whole)) => {
            let published = publish(handle, whole, seats);
            print_stats(alloc, words.stats, published.number(), out)?;
            Ok(FileDump::Whole(published))
        }
        Ok(DumpEnd::Refused { unit, fault }) => {
            Ok(FileDump::Refused(Refusal::Unit { unit, fault }))
        }
        Err(DumpFault::WriteFault) => Err(WriteStop::Failed),
        Err(DumpFault::OutOfMemory) => Err(WriteStop::OutOfMemory),
    }
}

/// What a whole dump with these seats left in the table.
fn publish<'f>(handle: &Handle<'f>, whole: Whole, seats: Vec<DumpSeat<'f, ()>>) -> Published
    requires belong { EachBelongs handle.now seats.items }
    requires led { AreLed seats.items }
    requires all { HaveAllPasses seats.items }
    requires only { EachOwnsOnly (sections_in handle.now) seats.items }
    requires noted { SeatsNoteFile (sections_in handle.now) seats.items }
    ensures number { result.number ≡ published_count (sections_in handle.now) }
    ensures units { result.units ≡ whole.units }
    ensures entries { result.entries ≡ whole.entries }
    ensures workers { result.workers ≡ whole.workers }
{
    let pass = join_seats(handle, seats);
    handle.recall();
    published(handle, whole, &pass)
}

/// Writes the line of how many keys are published, where it is asked for.
fn print_stats<O: Sink>(
    alloc: Global,
    stats: bool,
    number: u64,
    out: &mut O,
) -> Result<(), WriteStop>
    ensures sent { OnOk result (Gains (O.held out.old) (O.held out.new)
        (stats_text stats number)) }
    ensures part { OnErr result (GainsPart (O.held out.old) (O.held out.new)
        (stats_text stats number)) }
    ensures cause { HasCause write_stops.Failed (O.faults out.old) (O.faults out.new) result }
{
    if !stats {
        return Ok(());
    }
    print_published(alloc, number, out)
}

/// Writes the line of how many keys are published.
fn print_published<O: Sink>(alloc: Global, number: u64, out: &mut O) -> Result<(), WriteStop>
    ensures sent { OnOk result (Gains (O.held out.old) (O.held out.new) (published_line number)) }
    ensures part { OnErr result (GainsPart (O.held out.old) (O.held out.new)
        (published_line number)) }
    ensures cause { HasCause write_stops.Failed (O.faults out.old) (O.faults out.new) result }
{
    let mut line = Vec::new(alloc);
    match push_published(&mut line, number) {
        Ok(()) => write_all(out, line.as_slice()),
        Err(_) => Err(WriteStop::OutOfMemory),
    }
}

/// Appends the line of how many keys are published.
#[tactic(auto, unfolding(crate::specs::DumpTexts::published_line))]
fn push_published(line: &mut Vec<u8>, number: u64) -> Result<(), AllocError>
    ensures { Adds result line.old.items line.new.items (published_line number) }
{
    push_decimal_after(line, b"published ", number)?;
    push_text_after(line, b"\n", b"")?;
    Ok(())
}
