//! The two dumps.

ghost use Rattle.std.specs.Prelude.{◌≡◌, ◌≤◌, ◌<◌, ◌*◌, IfOk, bytes_eq, length};
ghost use Rattle.handle_cache.specs.Handles.{IsOpenedOn, sections_in};
ghost use Rattle.handle_cache.specs.Scanned.{room_for};
ghost use Rattle.dump_workers.specs.FileKeys.{HasSmallCodes, RefusesNone};
ghost use Rattle.dump_workers.specs.TableKeys.{table_keys};
ghost use Rattle.dump_workers.specs.declared.serving.TheConstants.{MOST_WORKERS};
ghost use Rattle.exercise_file.specs.Views.{generated_sections};
ghost use Rattle.exercise_file.specs.declared.generated.TheConstants.{MOST_UNITS};
ghost use Rattle.exercise_dumps.specs.Twice.{ShowsAll, TellsOf};

use crate::once::{Dumped, dump_once};
use dump_workers::{Published, published};
use dw_outside::Gate;
use elf_sections::OpenRefusal;
use exercise_file::generate;
use handle_cache::{Handle, HandlePass};
use std::alloc::{AllocError, Global};
use std::thread::Threads;

/// What came of two dumps of one file.
#[derive(Drop)]
pub struct Exercise {
    /// What the first dump left in the table.
    pub published: Published,
    /// How many bytes its text has.
    pub bytes: u64,
    /// How many steps the workers of the second dump made.
    pub again: u64,
    /// Whether the two texts are the same.
    pub equal: bool,
}

/// Whether two texts are the same.
fn is_same(first: &[u8], second: &[u8]) -> bool
    ensures { result ≡ bytes_eq first.now second.now }
{
    first == second
}

/// Dumps an opened file of which no unit is refused, joins all passes and splits them off again, and dumps it
/// once more.
fn dump_again<'f, R: Threads + Sync, G: Gate + Sync>(
    rt: &R,
    alloc: Global,
    handle: &Handle<'f>,
    pass: HandlePass<'f>,
    workers: u32,
    gate: &G,
) -> Result<Exercise, AllocError>
    requires opened { IsOpenedOn handle.now.file (2 * workers) handle.now pass }
    requires some { 1 ≤ workers }
    requires few { workers ≤ MOST_WORKERS }
    requires none { RefusesNone (sections_in handle.now) }
    requires codes { HasSmallCodes (sections_in handle.now) }
    requires room { length (table_keys (sections_in handle.now))
        < room_for (sections_in handle.now) }
    ensures { IfOk result (λ e. TellsOf (sections_in handle.now) workers
        e.published e.bytes e.again e.equal) }
{
    pass.recall();
    handle.recall();
    let Dumped {
        whole,
        out,
        pass,
        ..
    } = dump_once(rt, alloc, handle, pass, workers, gate)?;
    let published = published(handle, whole, &pass);
    pass.recall();
    let second = dump_once(rt, alloc, handle, pass, workers, gate)?;
    Ok(Exercise {
        published,
        bytes: out.bytes().len() as u64,
        again: second.steps,
        equal: is_same(out.bytes(), second.out.bytes()),
    })
}

/// Makes the file of so many units, and dumps it twice with so many workers.
///
/// # Errors
///
/// Where memory runs out.
pub fn dump_twice<R: Threads + Sync, G: Gate + Sync>(
    rt: &R,
    alloc: Global,
    units: u32,
    workers: u32,
    gate: &G,
) -> Result<Exercise, AllocError>
    requires units { units ≤ MOST_UNITS }
    requires some { 1 ≤ workers }
    requires few { workers ≤ MOST_WORKERS }
    ensures tells { IfOk result (λ e. TellsOf (generated_sections units) workers
        e.published e.bytes e.again e.equal) }
    ensures shows { IfOk result (λ e. ShowsAll units workers
        e.published e.bytes e.again e.equal) }
{
    let file = generate(alloc, u64::from(units))?;
    match Handle::open(alloc, file.as_slice(), 2 * workers) {
        Ok((handle, pass)) => dump_again(rt, alloc, &handle, pass, workers, gate),
        Err(OpenRefusal::OutOfMemory) => Err(AllocError),
        Err(OpenRefusal::Refused(_)) => unreachable!(),
    }
}
