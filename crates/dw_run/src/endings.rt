//! How a run ends: its status, and the line that it leaves on standard error.

ghost use Rattle.std.specs.Prelude.{◌≡◌, ◌≢◌, ◌<◌, ◌≤◌, ◌⊎◌, None};
ghost use Rattle.dw_outside.specs.Faults.{Rose};
ghost use Rattle.dw_outside.specs.Gains.{Gains, GainsPart};
ghost use Rattle.dw_run.specs.Endings.{EndsRefused, EndsStopped, EndsUnread, EndsWith};

use crate::refusal_lines::line_of;
use crate::refusals::Refusal;
use dump_workers::Published;
use dw_outside::{ReadStop, Sink, WriteStop, write_all};
use std::alloc::Global;

/// Nothing is refused.
pub(crate) const DONE: u8 = 0;
/// The file is refused.
pub(crate) const REFUSED: u8 = 1;
/// The words have no meaning.
pub(crate) const NO_MEANING: u8 = 2;
/// The file could not be read.
pub(crate) const NOT_READ: u8 = 3;
/// A text could not be written.
pub(crate) const NOT_WRITTEN: u8 = 4;
/// Want of memory.
pub(crate) const NO_MEMORY: u8 = 5;

/// How a run ended.
#[derive(Debug, Drop)]
pub struct RunEnd {
    /// 0 done; 1 the file is refused; 2 the words have no meaning; 3 the file can't be read; 4 a
    /// sink failed; 5 want of memory.
    pub status: u8,
    /// What a whole dump left in the table, where one was asked for and is done.
    pub published: Option<Published>,
}

impl RunEnd {
    /// A run that tells nothing but its status.
    pub(crate) fn of(status: u8) -> RunEnd
        ensures status { result.status ≡ status }
        ensures published { result.published ≡ None }
    {
        RunEnd {
            status,
            published: None,
        }
    }
}

/// Writes the line, and answers the status; or 4 where it can't be written, and 5 where that wants
/// memory.
pub(crate) fn end_with<E: Sink>(err: &mut E, line: &[u8], status: u8) -> u8
    requires { status ≢ 4 }
    ensures { EndsWith line.now status result (E.held err.old) (E.held err.new)
        (E.faults err.old) (E.faults err.new) }
{
    match write_all(err, line) {
        Ok(()) => status,
        Err(WriteStop::Failed) => NOT_WRITTEN,
        Err(WriteStop::OutOfMemory) => NO_MEMORY,
    }
}

/// Writes the line that says why the file could not be read, and answers 3 or 5.
pub(crate) fn end_unread<E: Sink>(err: &mut E, stop: ReadStop) -> u8
    ensures { EndsUnread stop result (E.held err.old) (E.held err.new)
        (E.faults err.old) (E.faults err.new) }
{
    match stop {
        ReadStop::Failed => end_with(err, b"dwtool: cannot read the file\n", NOT_READ),
        ReadStop::OutOfMemory => end_with(err, b"dwtool: out of memory\n", NO_MEMORY),
    }
}

/// Ends a run whose text was stopped: with 4 where the sink failed, and for want of memory with its line
/// and 5.
pub(crate) fn end_stopped<E: Sink>(err: &mut E, stop: WriteStop) -> u8
    ensures { EndsStopped stop result (E.held err.old) (E.held err.new)
        (E.faults err.old) (E.faults err.new) }
{
    match stop {
        WriteStop::Failed => NOT_WRITTEN,
        WriteStop::OutOfMemory => end_with(err, b"dwtool: out of memory\n", NO_MEMORY),
    }
}

/// Writes the line of a refusal, and answers 1.
pub(crate) fn end_refused<E: Sink>(alloc: Global, err: &mut E, refusal: &Refusal) -> u8
    ensures { EndsRefused refusal.now result (E.held err.old) (E.held err.new)
        (E.faults err.old) (E.faults err.new) }
{
    match line_of(alloc, refusal) {
        Ok(line) => end_with(err, line.as_slice(), REFUSED),
        Err(_) => end_with(err, b"dwtool: out of memory\n", NO_MEMORY),
    }
}
