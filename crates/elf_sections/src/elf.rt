//! The list of a file's sections.

ghost use Rattle.std.specs.Prelude.{◌≡◌, ◌+◌, ◌<◌, ◌^◌, List, ℕ, length, take, map, option_map, IfSome, IfOk};
ghost use Rattle.elf_sections.specs.declared.class_layout.TheConstants.{FILE_LIMIT};
ghost use Rattle.elf_sections.specs.Refusals.{Opens};
ghost use Rattle.elf_sections.specs.Names.{elf_of};
ghost use Rattle.elf_sections.specs.Rows.{bytes_named, AllShort};
ghost use Rattle.elf_sections.specs.Shapes.{row, sections_view, sections_of, AreShort};

use crate::class_layout::read_layout;
use crate::debug::{Sections, debug_sections_among};
use crate::named::first_named;
use crate::reading::read_sections;
use crate::refusals::OpenRefusal;
use crate::section::Section;
use crate::section_table::read_table;
use dw_fields::Order;
use std::alloc::Global;
use std::marker::Model;

/// The sections of an ELF file in table order, section 0 included.
#[derive(Drop)]
pub struct Elf<'f> {
    order: Order,
    sections: Vec<Section<'f>>,
}

impl<'f> Model for Elf<'f> {
    ghost use Rattle.std.specs.Prelude.{map};
    ghost use Rattle.elf_sections.specs.Rows.{ElfView, AllShort};
    ghost use Rattle.elf_sections.specs.Shapes.{row};

    ghost Value = { ElfView };

    ghost view = { λ e. record { order = e.order; sections = map row e.sections.items } };

    ghost invariant = { λ e. AllShort (map row e.sections.items) };
}

impl<'f> Elf<'f> {
    /// Reads the section table of a file.
    ///
    /// # Errors
    /// `Refused` with the first refusal of the file: first of its length and its header, then of
    /// the table, then of each section's bounds, each section's name and each section's
    /// compression. `OutOfMemory` where there is no memory for the list, or for the ends of the
    /// names' texts.
    #[tactic(auto, using(crate::specs::Laws::elf_of_whole), unfolding(crate::specs::Names::elf_of))]
    pub fn read(alloc: Global, file: &'f [u8]) -> Result<Elf<'f>, OpenRefusal>
        ensures table { Opens (λ e. e) result (elf_of file.entry.now) }
        ensures short { IfOk result (λ e. AllShort e.sections) }
        ensures front { (whole : List ℕ) → file.entry.now ≡ take (FILE_LIMIT + 1) whole
            → elf_of file.entry.now ≡ elf_of whole }
    {
        let layout = read_layout(file)?;
        let table = read_table(file, layout)?;
        if table.count == 0 {
            return Ok(Elf {
                order: layout.order,
                sections: Vec::new(alloc),
            });
        }
        Ok(Elf {
            order: layout.order,
            sections: read_sections(alloc, file, layout, table)?,
        })
    }

    /// The sections in table order.
    pub fn sections(&self) -> &[Section<'f>]
        ensures { map row result.now ≡ self.now.sections }
    {
        self.sections.as_slice()
    }

    /// The bytes of the first section of that name, where there is one.
    pub fn section(&self, name: &str) -> Option<&'f [u8]>
        ensures bytes { option_map (λ b. b.now) result ≡ bytes_named name.now self.now.sections }
        ensures short { IfSome result (λ b. length b.now < 2 ^ 31) }
    {
        first_named(self.sections.as_slice(), name.as_bytes())
    }

    /// The sections with debugging data.
    pub fn debug_sections(&self) -> Sections<'f>
        ensures sections { sections_view result ≡ sections_of self.now }
        ensures short { AreShort (sections_view result) }
        ensures declarations { length (sections_view result).«abbrev» < 2 ^ 31 }
    {
        debug_sections_among(self.order, self.sections.as_slice())
    }
}
