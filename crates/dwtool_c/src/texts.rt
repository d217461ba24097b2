//! The texts of commands over a whole file.

ghost use Rattle.std.specs.Prelude.{◌≡◌, map, option_map};
ghost use Rattle.elf_sections.specs.Shapes.{AreShort, row, sections_view};
ghost use Rattle.dw_run.specs.Commands.{sections_text, tables_printed};
ghost use Rattle.dw_run.specs.CommandTexts.{units_printed, whole};
ghost use Rattle.unit_headers.specs.Headers.{unit_count};
ghost use Rattle.dwtool_c.specs.Answers.{EndsWithin};
ghost use Rattle.dwtool_c.specs.Fronts.{PutsText, PutsWhole};
ghost use Rattle.dwtool_c.specs.FileTexts.{EndsText, file_text, printed_of_elf, text_answer, unit_texts};
ghost use Rattle.dwtool_c.specs.Refusals.{tables_refusal};
ghost use Rattle.dwtool_c.specs.Texts.{unit_text};

use crate::answers::{DONE, NO_MEMORY, NONE_SUCH, REFUSED};
use crate::commands::{FileCommand, UnitCommand, file_command};
use crate::front::{Put, put_behind};
use crate::refusal::{DwtoolRefusal, file_refusal, no_refusal, tables_refusal, unit_refusal};
use crate::unit_texts::FileUnits;
use bumpalo::Bump;
use dw_fields::Fault;
use elf_sections::{Elf, OpenRefusal, Section, Sections};
use entry_tree::renew;
use std::alloc::{AllocError, Global};
use unit_headers::UnitRefusal;
use unit_text::{write_section, write_tables};

/// Puts the lines of sections into the buffer.
fn put_sections(alloc: Global, sections: &[Section<'_>], out: &mut [u8]) -> Result<Put, AllocError>
    ensures { PutsText result (whole (sections_text 0 (map row sections.now))) out.old out.new }
{
    let mut line = Vec::new(alloc);
    let mut size = 0;
    let mut number = 0;
    'sections: for section in sections {
        line.clear();
        match write_section(alloc, number, section, &mut line) {
            Ok(()) => {}
            Err(_) => return Err(AllocError),
        }
        match put_behind(out, size, line.as_slice()) {
            Ok(end) => size = end,
            Err(_) => return Err(AllocError),
        }
        number += 1;
    }
    Ok(Put {
        size,
        refusal: None,
    })
}

/// The refusal that ends the text of the tables.
fn ended_by(fault: Option<Fault>) -> Option<DwtoolRefusal>
    ensures { result ≡ option_map tables_refusal fault }
{
    match fault {
        Some(fault) => Some(tables_refusal(fault)),
        None => None,
    }
}

/// Puts a whole text into the buffer, which this refusal ends.
fn put_whole(out: &mut [u8], text: &[u8], refusal: Option<DwtoolRefusal>) -> Result<Put, AllocError>
    ensures { PutsWhole result text.now refusal out.old out.new }
{
    let size = put_behind(out, 0, text)?;
    Ok(Put { size, refusal })
}

/// Puts the text of all abbreviation tables into the buffer, up to the first fault.
fn put_tables(alloc: Global, section: &[u8], out: &mut [u8]) -> Result<Put, AllocError>
    ensures { PutsText result (tables_printed section.now) out.old out.new }
{
    let mut text = Vec::new(alloc);
    let fault = match write_tables(alloc, section, &mut text) {
        Ok(fault) => fault,
        Err(_) => return Err(AllocError),
    };
    put_whole(out, text.as_slice(), ended_by(fault))
}

/// Puts what a command prints of each unit into the buffer, one behind the other, up to the first
/// unit that is refused.
fn put_units(
    alloc: Global,
    command: UnitCommand,
    units: &mut FileUnits<'_>,
    out: &mut [u8],
) -> Result<Put, AllocError>
    ensures { PutsText result (units_printed (unit_text command units.old) 0
        (unit_count units.old.info units.old.order)) out.old out.new }
{
    let mut arena = Bump::new(alloc);
    let mut text = Vec::new(alloc);
    let mut size = 0;
    'units: for unit in 0..units.count() {
        text.clear();
        match units.put_text(alloc, command, &arena, unit, &mut text) {
            Ok(()) => {}
            Err(UnitRefusal::Refused(fault)) => {
                return Ok(Put {
                    size,
                    refusal: Some(unit_refusal(unit, fault)),
                });
            }
            Err(UnitRefusal::OutOfMemory) => return Err(AllocError),
        }
        match put_behind(out, size, text.as_slice()) {
            Ok(end) => size = end,
            Err(_) => return Err(AllocError),
        }
        renew(alloc, &mut arena);
    }
    Ok(Put {
        size,
        refusal: None,
    })
}

/// Puts what a command prints of each unit of some sections into the buffer.
fn put_unit_texts(
    alloc: Global,
    command: UnitCommand,
    sections: &Sections<'_>,
    out: &mut [u8],
) -> Result<Put, AllocError>
    requires { AreShort (sections_view sections.now) }
    ensures { PutsText result (unit_texts command (sections_view sections.now)) out.old out.new }
{
    let mut units = FileUnits::read(alloc, sections)?;
    put_units(alloc, command, &mut units, out)
}

/// Puts the text of a command on a file into the buffer.
fn put_command(
    alloc: Global,
    command: FileCommand,
    elf: &Elf<'_>,
    out: &mut [u8],
) -> Result<Put, AllocError>
    ensures { PutsText result (printed_of_elf command elf.now) out.old out.new }
{
    match command {
        FileCommand::Sections => put_sections(alloc, elf.sections(), out),
        FileCommand::Abbrev => put_tables(alloc, elf.debug_sections().abbrev, out),
        FileCommand::Each(command) => put_unit_texts(alloc, command, &elf.debug_sections(), out),
    }
}

/// Puts the text of a command on a file's bytes into the buffer.
#[tactic(auto, using(crate::proofs::Fitted::front_of_nothing), unfolding(crate::specs::FileTexts::file_text, dw_run::specs::Output::text_of_file))]
fn put_text(
    alloc: Global,
    command: FileCommand,
    file: &[u8],
    out: &mut [u8],
) -> Result<Put, AllocError>
    ensures { PutsText result (file_text command file.now) out.old out.new }
{
    match Elf::read(alloc, file) {
        Ok(elf) => put_command(alloc, command, &elf, out),
        Err(OpenRefusal::Refused(refusal)) => Ok(Put {
            size: 0,
            refusal: Some(file_refusal(&refusal)),
        }),
        Err(OpenRefusal::OutOfMemory) => Err(AllocError),
    }
}

/// Hands out how a text ended. Answers the status.
fn end_text(put: Result<Put, AllocError>, size: &mut usize, refusal: &mut DwtoolRefusal) -> u8
    ensures { EndsText put result size.new refusal.new }
{
    match put {
        Ok(put) => {
            *size = put.size;
            match put.refusal {
                Some(found) => {
                    *refusal = found;
                    REFUSED
                }
                None => {
                    *refusal = no_refusal();
                    DONE
                }
            }
        }
        Err(_) => {
            *size = 0;
            *refusal = no_refusal();
            NO_MEMORY
        }
    }
}

/// What the command of this number prints of a file: the front of the text that fits `text`. `size`
/// is how many bytes it has. `refusal` is the one that ends it: of the section table, of a unit, or
/// of the abbreviation tables. No text of the whole file is gathered: each unit's or section's text
/// goes into the buffer at once.
///
/// # Errors
/// Answers `DONE`; `REFUSED`, and then the text is that up to the refusal; `NONE_SUCH` where there is
/// no such command, and then `text` is as it was; or `NO_MEMORY`, and then `text` begins with the
/// front of some of the text, and `size` is 0.
#[unsafe(no_mangle)]
pub extern "C" fn dwtool_text(
    alloc: Global,
    command: u32,
    file: &[u8],
    text: &mut [u8],
    size: &mut usize,
    refusal: &mut DwtoolRefusal,
) -> u8
    ensures { EndsWithin (text_answer command file.now) result text.old text.new
        size.new refusal.new }
{
    match file_command(command) {
        Some(command) => {
            let put = put_text(alloc, command, file, text);
            end_text(put, size, refusal)
        }
        None => {
            *size = 0;
            *refusal = no_refusal();
            NONE_SUCH
        }
    }
}
