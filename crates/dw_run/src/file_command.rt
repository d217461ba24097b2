//! A command on a file: the file is read, and what the command prints of it is written.

ghost use Rattle.std.specs.Prelude.{Some};
ghost use Rattle.dw_outside.specs.Faults.{HasCause};
ghost use Rattle.dw_outside.specs.declared.stops.WriteStop.TheVariants as write_stops;
ghost use Rattle.elf_sections.specs.Rows.{ElfView};
ghost use Rattle.dw_run.specs.CommandTexts.{CommandText, Prints};
ghost use Rattle.dw_run.specs.FileRequests.{on_file};
ghost use Rattle.dw_run.specs.Output.{Ends, EndsRun, text_of_file};

use crate::endings::{DONE, RunEnd, end_refused, end_stopped, end_unread};
use crate::refusals::Refusal;
use dw_outside::{Sink, Source, WriteStop, read_file};
use elf_sections::FILE_LIMIT;
use std::alloc::Global;

/// What a command prints of a file.
pub(crate) trait FileCommand: Drop {
    ghost text: { Self → ElfView → CommandText };

    /// Writes the command's text on the bytes of a file to `out`, and answers the refusal that ends
    /// it.
    fn print<O: Sink>(
        self,
        alloc: Global,
        file: &[u8],
        out: &mut O,
    ) -> Result<Option<Refusal>, WriteStop>
        ensures printed { Prints result (text_of_file (text self) file.now)
            (O.held out.old) (O.held out.new) }
        ensures cause { HasCause write_stops.Failed (O.faults out.old) (O.faults out.new) result };
}

/// Reads the file of this name, prints the command's text on it, and ends the run.
pub(crate) fn answer_on_file<C: FileCommand, S: Source, O: Sink, E: Sink>(
    alloc: Global,
    command: C,
    name: &str,
    source: &mut S,
    out: &mut O,
    err: &mut E,
) -> RunEnd
    ensures { EndsRun (Some (on_file name.now (C.text command))) (S.holds source.old)
        result.status result.published
        (O.held out.old) (O.held out.new) (E.held err.old) (E.held err.new)
        (S.faults source.old) (S.faults source.new) (O.faults out.old) (O.faults out.new)
        (E.faults err.old) (E.faults err.new) }
{
    match read_file(alloc, source, name, FILE_LIMIT) {
        Ok(file) => RunEnd::of(print_and_end(alloc, command, file.as_slice(), out, err)),
        Err(stop) => RunEnd::of(end_unread(err, stop)),
    }
}

/// Prints the command's text on the bytes of a file, and answers the status.
fn print_and_end<C: FileCommand, O: Sink, E: Sink>(
    alloc: Global,
    command: C,
    file: &[u8],
    out: &mut O,
    err: &mut E,
) -> u8
    ensures { Ends (text_of_file (C.text command) file.now) result
        (O.held out.old) (O.held out.new) (E.held err.old) (E.held err.new)
        (O.faults out.old) (O.faults out.new) (E.faults err.old) (E.faults err.new) }
{
    match command.print(alloc, file, out) {
        Ok(None) => DONE,
        Ok(Some(refusal)) => end_refused(alloc, err, &refusal),
        Err(stop) => end_stopped(err, stop),
    }
}
