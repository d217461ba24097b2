//! The commands that print of one file, and their texts.

ghost use Rattle.dw_outside.specs.Faults.{HasCause};
ghost use Rattle.dw_outside.specs.declared.stops.WriteStop.TheVariants as write_stops;
ghost use Rattle.dw_run.specs.Commands.{command_of, text_of_command};
ghost use Rattle.dw_run.specs.CommandTexts.{Prints};
ghost use Rattle.dw_run.specs.Output.{text_of_file};

use crate::file_command::FileCommand;
use crate::opened::{OpenedCommand, open_and_print};
use crate::parts::Part;
use crate::refusals::Refusal;
use crate::section_lines::print_sections;
use crate::tables::print_tables;
use crate::units::{print_parts, print_unit_lines};
use dw_outside::{Sink, WriteStop};
use dw_words::Command;
use elf_sections::{Elf, OpenRefusal};
use handle_cache::{Handle, HandlePass};
use std::alloc::Global;

/// A command that looks no declaration up: it reads the headers of sections or units, or the
/// abbreviation tables from end to end.
#[derive(Clone, Copy, Debug, PartialEq, Eq)]
enum TableCommand {
    /// One line per unit.
    Units,
    /// One line per section of the file.
    Sections,
    /// All abbreviation tables.
    Abbrev,
}

impl FileCommand for Command {
    ghost use Rattle.dw_run.specs.Commands.{text_of_command};

    ghost text = { text_of_command };

    fn print<O: Sink>(
        self,
        alloc: Global,
        file: &[u8],
        out: &mut O,
    ) -> Result<Option<Refusal>, WriteStop> {
        match self {
            Command::Units => print_table(alloc, TableCommand::Units, file, out),
            Command::Sections => print_table(alloc, TableCommand::Sections, file, out),
            Command::Abbrev => print_table(alloc, TableCommand::Abbrev, file, out),
            Command::Lines => open_and_print(alloc, Part::LineTable, file, out),
            Command::Ranges => open_and_print(alloc, Part::Lists, file, out),
        }
    }
}

impl OpenedCommand for Part {
    ghost use Rattle.dw_run.specs.Parts.{part_of_units};

    ghost text = { part_of_units };

    fn print_opened<'f, O: Sink>(
        self,
        alloc: Global,
        handle: &Handle<'f>,
        pass: &mut HandlePass<'f>,
        out: &mut O,
    ) -> Result<Option<Refusal>, WriteStop> {
        print_parts(alloc, self, handle, pass, out)
    }
}

/// Writes the text of a command that looks no declaration up.
#[tactic(auto, unfolding(crate::specs::Output::text_of_file))]
fn print_table<O: Sink>(
    alloc: Global,
    command: TableCommand,
    file: &[u8],
    out: &mut O,
) -> Result<Option<Refusal>, WriteStop>
    ensures printed { Prints result (text_of_file (text_of_command (command_of command)) file.now)
        (O.held out.old) (O.held out.new) }
    ensures cause { HasCause write_stops.Failed (O.faults out.old) (O.faults out.new) result }
{
    match Elf::read(alloc, file) {
        Ok(elf) => print_elf(alloc, command, &elf, out),
        Err(OpenRefusal::Refused(refusal)) => Ok(Some(Refusal::File(refusal))),
        Err(OpenRefusal::OutOfMemory) => Err(WriteStop::OutOfMemory),
    }
}

/// Writes the text of such a command on the sections of a file.
#[tactic(auto, unfolding(crate::specs::Commands::command_of))]
fn print_elf<O: Sink>(
    alloc: Global,
    command: TableCommand,
    elf: &Elf<'_>,
    out: &mut O,
) -> Result<Option<Refusal>, WriteStop>
    ensures printed { Prints result (text_of_command (command_of command) elf.now)
        (O.held out.old) (O.held out.new) }
    ensures cause { HasCause write_stops.Failed (O.faults out.old) (O.faults out.new) result }
{
    match command {
        TableCommand::Units => print_unit_lines(alloc, &elf.debug_sections(), out),
        TableCommand::Sections => print_sections(alloc, elf.sections(), out),
        TableCommand::Abbrev => print_tables(alloc, elf.debug_sections().abbrev, out),
    }
}
