//! The line tables of a file, as a run over all its units reads them (DWARF 5 section 6.2).

ghost use Rattle.std.specs.Prelude.{◌≡◌, IfOk, IfSome};
ghost use Rattle.dw_fields.specs.Reading.{IsAddressSize};
ghost use Rattle.elf_sections.specs.Shapes.{sections_view};
ghost use Rattle.unit_text.specs.Pieces.{Writes};
ghost use Rattle.unit_headers.specs.Refusals.{Answers};
ghost use Rattle.line_programs.specs.LineTables.{table_of};
ghost use Rattle.line_text.specs.LineTable.{line_table_text};
ghost use Rattle.line_text.specs.LastTable.{IsReadAt, IsTableOf, table_view};

use crate::line_table::append_table;
use elf_sections::Sections;
use line_machine::Row;
use line_programs::{LineHeader, PathTexts};
use std::alloc::Global;
use std::marker::Model;
use unit_headers::{UnitHeader, UnitRefusal};

/// A line program that was read, its rows, and what both depend on besides the sections.
#[derive(Drop)]
pub(crate) struct LastTable<'f> {
    /// The offset in `.debug_line`.
    pub offset: u64,
    /// Bytes of an address.
    pub address_size: u8,
    /// The header.
    pub program: LineHeader<'f>,
    /// The rows.
    pub rows: Vec<Row>,
}

/// The sections of a file, with what was learned of its line tables.
///
/// It is handed from unit to unit. The table that was read last is kept, so that units that name one
/// program, one behind the other, read it once; and a run over all line programs goes over each
/// section of texts twice at most.
#[derive(Drop)]
pub struct LineTables<'f> {
    texts: PathTexts<'f>,
    last: Option<LastTable<'f>>,
}

impl<'f> Model for LineTables<'f> {
    ghost use Rattle.std.specs.Prelude.{IfSome};
    ghost use Rattle.elf_sections.specs.Shapes.{SectionsView};
    ghost use Rattle.line_text.specs.LastTable.{IsTableOf};

    ghost Value = { SectionsView };

    ghost view = { λ t. t.texts };

    ghost invariant = { λ t. IfSome t.last (λ last. IsTableOf t.texts last) };
}

impl<'f> LineTables<'f> {
    /// The tables of these sections, none of which was read yet.
    pub fn new(sections: &Sections<'f>) -> LineTables<'f>
        ensures { result ≡ sections_view sections.entry.now }
    {
        LineTables {
            texts: PathTexts::new(sections),
            last: None,
        }
    }

    /// Appends the table whose program stands at an offset of `.debug_line`.
    #[tactic(auto, unfolding(crate::specs::LineTable::line_table_text))]
    pub(crate) fn write_table(
        &mut self,
        alloc: Global,
        header: &UnitHeader,
        offset: u64,
        out: &mut Vec<u8>,
    ) -> Result<(), UnitRefusal>
        requires { IsAddressSize header.now.address_size }
        ensures text { Writes result out.old.items out.new.items
            (line_table_text self.old header.now offset) }
        ensures same { self.new ≡ self.old }
    {
        let table = self.take_table(alloc, header, offset)?;
        let done = append_table(out, header, offset, &table);
        self.last = Some(table);
        done
    }

    /// The table at an offset, which is then no longer kept.
    fn take_table(
        &mut self,
        alloc: Global,
        header: &UnitHeader,
        offset: u64,
    ) -> Result<LastTable<'f>, UnitRefusal>
        requires { IsAddressSize header.now.address_size }
        ensures table { Answers table_view result
            (table_of self.old header.now.address_size offset) }
        ensures place { IfOk result (IsReadAt header.now.address_size offset) }
        ensures same { self.new ≡ self.old }
    {
        match self.take_last(header.address_size, offset) {
            Some(table) => Ok(table),
            None => self.read_table(alloc, header, offset),
        }
    }

    /// The table that was read last, if it is that of this offset. Another one is given up, so that
    /// two tables never lie in memory at once.
    fn take_last(&mut self, address_size: u8, offset: u64) -> Option<LastTable<'f>>
        ensures table { IfSome result (IsTableOf self.old) }
        ensures place { IfSome result (IsReadAt address_size offset) }
        ensures same { self.new ≡ self.old }
    {
        let Some(last) = self.last.take() else {
            return None;
        };
        if last.offset == offset && last.address_size == address_size {
            Some(last)
        } else {
            None
        }
    }

    /// Reads the table at an offset.
    #[tactic(auto, unfolding(line_programs::specs::LineTables::table_of))]
    fn read_table(
        &mut self,
        alloc: Global,
        header: &UnitHeader,
        offset: u64,
    ) -> Result<LastTable<'f>, UnitRefusal>
        requires { IsAddressSize header.now.address_size }
        ensures table { Answers table_view result
            (table_of self.old header.now.address_size offset) }
        ensures place { IfOk result (IsReadAt header.now.address_size offset) }
        ensures same { self.new ≡ self.old }
    {
        let program = LineHeader::read_with(alloc, &mut self.texts, header, offset)?;
        let rows = program.rows(alloc)?;
        Ok(LastTable {
            offset,
            address_size: header.address_size,
            program,
            rows,
        })
    }
}
