//! The command `sections`: one line for each section of the file.

ghost use Rattle.std.specs.Prelude.{◌≡◌, map};
ghost use Rattle.dw_outside.specs.Faults.{HasCause};
ghost use Rattle.dw_outside.specs.declared.stops.WriteStop.TheVariants as write_stops;
ghost use Rattle.elf_sections.specs.Shapes.{row};
ghost use Rattle.dw_run.specs.Commands.{sections_text};
ghost use Rattle.dw_run.specs.CommandTexts.{Prints, whole};

use crate::refusals::Refusal;
use dw_outside::{Sink, WriteStop, write_all};
use elf_sections::Section;
use std::alloc::Global;
use unit_text::write_section;

/// Writes the line of every section, each by one `write_all`: many headers of a small file may name
/// one long text, so that all lines together are far longer than the file.
pub(crate) fn print_sections<O: Sink>(
    alloc: Global,
    sections: &[Section<'_>],
    out: &mut O,
) -> Result<Option<Refusal>, WriteStop>
    ensures printed { Prints result (whole (sections_text 0 (map row sections.now)))
        (O.held out.old) (O.held out.new) }
    ensures cause { HasCause write_stops.Failed (O.faults out.old) (O.faults out.new) result }
{
    let mut line = Vec::new(alloc);
    let mut number = 0;
    'sections: for section in sections {
        line.clear();
        match write_section(alloc, number, section, &mut line) {
            Ok(()) => {}
            Err(_) => return Err(WriteStop::OutOfMemory),
        }
        match write_all(out, line.as_slice()) {
            Ok(()) => number += 1,
            Err(stop) => return Err(stop),
        }
    }
    Ok(None)
}
