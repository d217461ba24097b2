//! The units of a file, as the commands go over them.

ghost use Rattle.std.specs.Prelude.{◌≡◌};
ghost use Rattle.dw_outside.specs.Faults.{HasCause};
ghost use Rattle.dw_outside.specs.declared.stops.WriteStop.TheVariants as write_stops;
ghost use Rattle.elf_sections.specs.Shapes.{AreShort, sections_view};
ghost use Rattle.handle_cache.specs.Handles.{Belongs, sections_in};
ghost use Rattle.dw_run.specs.CommandTexts.{Prints};
ghost use Rattle.dw_run.specs.Parts.{part_of_units};
ghost use Rattle.dw_run.specs.declared.parts.Part.TheVariants as parts;

use crate::parts::{Part, append_part};
use crate::refusals::Refusal;
use crate::unit_reader::UnitReader;
use crate::unit_texts::{UnitTexts, print_units};
use bumpalo::Bump;
use dw_outside::{Sink, WriteStop};
use elf_sections::Sections;
use entry_tree::renew;
use handle_cache::{Handle, HandlePass};
use std::alloc::Global;
use std::marker::Model;
use unit_headers::{UnitIndex, UnitRefusal};
use unit_text::write_unit_line;

/// The line of each unit of a file.
#[derive(Drop)]
struct UnitLines<'f> {
    alloc: Global,
    sections: Sections<'f>,
    index: UnitIndex<'f>,
}

impl<'f> Model for UnitLines<'f> {
    ghost use Rattle.std.specs.Prelude.{◌≡◌};
    ghost use Rattle.elf_sections.specs.Shapes.{SectionsView, sections_view};
    ghost use Rattle.entry_tree.specs.Units.{units_of};

    ghost Value = { SectionsView };

    ghost view = { λ u. sections_view u.sections };

    ghost invariant = { λ u. u.index ≡ units_of (sections_view u.sections) };
}

impl<'f> UnitTexts for UnitLines<'f> {
    ghost use Rattle.unit_headers.specs.Headers.{unit_count};
    ghost use Rattle.dw_run.specs.Parts.{unit_part};
    ghost use Rattle.dw_run.specs.declared.parts.Part.TheVariants as parts;

    ghost count = { λ u. unit_count u.info u.order };

    ghost text = { λ u i. unit_part parts.Line u i };

    fn count(&self) -> u32 {
        self.index.count()
    }

    #[tactic(auto, unfolding(crate::specs::Parts::unit_part, crate::specs::Parts::part_of))]
    fn append(&mut self, unit: u32, out: &mut Vec<u8>) -> Result<(), UnitRefusal> {
        let header = self.index.header(unit)?;
        Ok(write_unit_line(self.alloc, &header, out)?)
    }
}

/// A part of each unit of an opened file. The entries of one unit at a time lie in the arena.
#[derive(Drop)]
struct UnitParts<'r, 'h, 'f> {
    alloc: Global,
    part: Part,
    reader: &'r mut UnitReader<'h, 'f>,
    arena: Bump,
}

impl<'r, 'h, 'f> Model for UnitParts<'r, 'h, 'f> {
    ghost use Rattle.dw_run.specs.Parts.{PartView};

    ghost Value = { PartView };

    ghost view = { λ u. record { part = u.part; sections = u.reader.now } };
}

impl<'r, 'h, 'f> UnitTexts for UnitParts<'r, 'h, 'f> {
    ghost use Rattle.unit_headers.specs.Headers.{unit_count};
    ghost use Rattle.dw_run.specs.Parts.{unit_part};

    ghost count = { λ u. unit_count u.sections.info u.sections.order };

    ghost text = { λ u i. unit_part u.part u.sections i };

    fn count(&self) -> u32 {
        self.reader.count()
    }

    fn append(&mut self, unit: u32, out: &mut Vec<u8>) -> Result<(), UnitRefusal> {
        let done = append_part(self.alloc, self.part, &self.arena, self.reader, unit, out);
        renew(self.alloc, &mut self.arena);
        done
    }
}

/// Writes the line of every unit, in the units' order.
#[tactic(auto, unfolding(crate::specs::Parts::part_of_units))]
pub(crate) fn print_unit_lines<O: Sink>(
    alloc: Global,
    sections: &Sections<'_>,
    out: &mut O,
) -> Result<Option<Refusal>, WriteStop>
    requires { AreShort (sections_view sections.now) }
    ensures printed { Prints result (part_of_units parts.Line (sections_view sections.now))
        (O.held out.old) (O.held out.new) }
    ensures cause { HasCause write_stops.Failed (O.faults out.old) (O.faults out.new) result }
{
    match UnitIndex::read(
        alloc,
        sections.info,
        sections.abbrev.len() as u64,
        sections.order,
    ) {
        Ok(index) => {
            let mut units = UnitLines {
                alloc,
                sections: *sections,
                index,
            };
            print_units(alloc, &mut units, out)
        }
        Err(_) => Err(WriteStop::OutOfMemory),
    }
}

/// Writes this part of every unit of an opened file, in the units' order.
#[tactic(auto, unfolding(crate::specs::Parts::part_of_units))]
pub(crate) fn print_parts<'f, O: Sink>(
    alloc: Global,
    part: Part,
    handle: &Handle<'f>,
    pass: &mut HandlePass<'f>,
    out: &mut O,
) -> Result<Option<Refusal>, WriteStop>
    requires { Belongs handle.now pass.old }
    ensures printed { Prints result (part_of_units part (sections_in handle.now))
        (O.held out.old) (O.held out.new) }
    ensures cause { HasCause write_stops.Failed (O.faults out.old) (O.faults out.new) result }
{
    let mut reader = UnitReader::new(alloc, &*handle, pass);
    let mut units = UnitParts {
        alloc,
        part,
        reader: &mut reader,
        arena: Bump::new(alloc),
    };
    print_units(alloc, &mut units, out)
}
