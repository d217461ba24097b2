//! Commands that look declarations up: the file is opened for one reader.

ghost use Rattle.dw_outside.specs.Faults.{HasCause};
ghost use Rattle.dw_outside.specs.declared.stops.WriteStop.TheVariants as write_stops;
ghost use Rattle.elf_sections.specs.Shapes.{SectionsView};
ghost use Rattle.handle_cache.specs.Handles.{Belongs, sections_in};
ghost use Rattle.dw_run.specs.Commands.{text_of_sections};
ghost use Rattle.dw_run.specs.CommandTexts.{CommandText, Prints};
ghost use Rattle.dw_run.specs.Output.{text_of_file};

use crate::refusals::Refusal;
use dw_outside::{Sink, WriteStop};
use elf_sections::OpenRefusal;
use handle_cache::{Handle, HandlePass};
use std::alloc::Global;

/// What a command prints of an opened file.
pub(crate) trait OpenedCommand: Drop {
    ghost text: { Self → SectionsView → CommandText };

    /// Writes the command's text to `out`, and answers the refusal that ends it.
    fn print_opened<'f, O: Sink>(
        self,
        alloc: Global,
        handle: &Handle<'f>,
        pass: &mut HandlePass<'f>,
        out: &mut O,
    ) -> Result<Option<Refusal>, WriteStop>
        requires { Belongs handle.now pass.old }
        ensures printed { Prints result (text self (sections_in handle.now))
            (O.held out.old) (O.held out.new) }
        ensures cause { HasCause write_stops.Failed (O.faults out.old) (O.faults out.new) result };
}

/// Opens the file for one reader, and writes the command's text on it.
#[tactic(auto, unfolding(crate::specs::Output::text_of_file))]
pub(crate) fn open_and_print<C: OpenedCommand, O: Sink>(
    alloc: Global,
    command: C,
    file: &[u8],
    out: &mut O,
) -> Result<Option<Refusal>, WriteStop>
    ensures printed { Prints result (text_of_file (text_of_sections (C.text command)) file.now)
        (O.held out.old) (O.held out.new) }
    ensures cause { HasCause write_stops.Failed (O.faults out.old) (O.faults out.new) result }
{
    match Handle::open(alloc, file, 1) {
        Ok((handle, mut pass)) => command.print_opened(alloc, &handle, &mut pass, out),
        Err(OpenRefusal::Refused(refusal)) => Ok(Some(Refusal::File(refusal))),
        Err(OpenRefusal::OutOfMemory) => Err(WriteStop::OutOfMemory),
    }
}
