//! An opened file.

ghost use Rattle.std.specs.Prelude.{◌≡◌, ◌<◌, ◌≤◌, ◌^◌, IfOk, length};
ghost use Rattle.elf_sections.specs.Names.{elf_of};
ghost use Rattle.elf_sections.specs.Refusals.{Opens};
ghost use Rattle.elf_sections.specs.Shapes.{AreShort, sections_of, sections_view};
ghost use Rattle.unit_headers.specs.Headers.{unit_count};
ghost use Rattle.entry_tree.specs.Units.{IsUnitOf, unit_header, units_of};
ghost use Rattle.map_core.specs.declared.layout.TheConstants.{MOST_ENTRIES, MOST_PASSES};
ghost use Rattle.handle_cache.specs.Handles.{Belongs, IsOpened, IsOpenedOn, sections_in};
ghost use Rattle.handle_cache.specs.Scanned.{room_for};

use crate::cached::Cached;
use crate::facts::{FileFacts, HandlePass};
use dw_fields::Fault;
use elf_sections::{Elf, OpenRefusal, Sections};
use map_core::MOST_ENTRIES;
use share_map::Table;
use std::alloc::Global;
use std::marker::Model;
use unit_headers::{UnitHeader, UnitIndex};

/// A declaration has at least a code, a tag, a byte and a pair of zeros.
const DECLARATION_BYTES: u64 = 5;

/// The words of a unit in the table.
const UNIT_WORDS: u64 = 8;

/// Room beside that of declarations and units.
const SPARE_ROOM: u64 = 64;

/// An opened file: its sections, its units, and the table that its readers share.
///
/// It is shared by reference. Each reader has a [`HandlePass`], which a first reader gets with the handle
/// and from which others are split by the calls of the table.
#[derive(Drop)]
pub struct Handle<'f> {
    pub(crate) file: &'f [u8],
    pub(crate) elf: Elf<'f>,
    pub(crate) sections: Sections<'f>,
    pub(crate) index: UnitIndex<'f>,
    pub(crate) table: Table<FileFacts<'f>>,
}

impl<'f> Model for Handle<'f> {
    ghost use Rattle.std.specs.Prelude.{◌≡◌, ◌<◌, ◌^◌, length, Ok};
    ghost use Rattle.elf_sections.specs.Names.{elf_of};
    ghost use Rattle.elf_sections.specs.Shapes.{AreShort, sections_of, sections_view};
    ghost use Rattle.entry_tree.specs.Units.{units_of};
    ghost use Rattle.handle_cache.specs.Handles.{HandleView};
    ghost use Rattle.handle_cache.specs.Scanned.{room_for};

    ghost Value = { HandleView };

    ghost view = { λ h. record { file = h.file.now; elf = h.elf; table = h.table } };

    ghost invariant = { λ h. (elf_of h.file.now ≡ Ok h.elf)
        × (sections_view h.sections ≡ sections_of h.elf)
        × AreShort (sections_view h.sections)
        × (length (sections_view h.sections).«abbrev» < 2 ^ 31)
        × (h.index ≡ units_of (sections_view h.sections))
        × (h.table.layout.capacity ≡ room_for (sections_view h.sections))
        × (h.table.tag ≡ h.file.now) };
}

/// How many entries the table of a file has room for which has these sections and this many units.
fn room_for(sections: &Sections<'_>, units: u32) -> u64
    requires units { units ≡ unit_count sections.now.info.now sections.now.order }
    ensures room { result ≡ room_for (sections_view sections.entry.now) }
    ensures some { 1 ≤ result }
    ensures most { result ≤ MOST_ENTRIES }
{
    let declarations = sections.abbrev.len() as u64 / DECLARATION_BYTES;
    let words = UNIT_WORDS * u64::from(units);
    (declarations + words + SPARE_ROOM).min(MOST_ENTRIES)
}

impl<'f> Handle<'f> {
    /// Opens a file for this many passes, of which the first is handed out. The table is empty: it has room
    /// for a fifth of the bytes of `.debug_abbrev`, eight times the units, and 64 entries together, and for
    /// 4,194,304 at most.
    ///
    /// # Errors
    /// Those of [`Elf::read`]; `OutOfMemory` also where there is no memory for the index or the table.
    pub fn open(
        alloc: Global,
        file: &'f [u8],
        passes: u32,
    ) -> Result<(Handle<'f>, HandlePass<'f>), OpenRefusal>
        requires passes { (1 ≤ passes) × (passes ≤ MOST_PASSES) }
        ensures elf { Opens (λ r. r.0.elf) result (elf_of file.entry.now) }
        ensures new { IfOk result (λ r. IsOpenedOn file.entry.now passes r.0 r.1) }
    {
        let elf = Elf::read(alloc, file)?;
        let sections = elf.debug_sections();
        let index = UnitIndex::read(
            alloc,
            sections.info,
            sections.abbrev.len() as u64,
            sections.order,
        )?;
        let room = room_for(&sections, index.count());
        let (table, pass) = Table::new(alloc, room, passes, &FileFacts { file })?;
        let handle = Handle {
            file,
            elf,
            sections,
            index,
            table,
        };
        Ok((handle, pass))
    }

    /// What is true of a handle by itself. It does nothing: a proof learns it by this call.
    pub fn recall(&self)
        ensures { IsOpened self.now }
    {
        let _ = &self.elf;
    }

    /// The table that the file's readers share.
    pub fn table(&self) -> &Table<FileFacts<'f>>
        ensures { result.now ≡ self.now.table }
    {
        &self.table
    }

    /// The file's sections in table order.
    pub fn elf(&self) -> &Elf<'f>
        ensures { result.now ≡ self.now.elf }
    {
        &self.elf
    }

    /// The file's sections with debugging data.
    pub fn sections(&self) -> &Sections<'f>
        ensures sections { sections_view result.now ≡ sections_in self.now }
        ensures short { AreShort (sections_view result.now) }
    {
        &self.sections
    }

    /// The file's units.
    pub fn index(&self) -> &UnitIndex<'f>
        ensures { result.now ≡ units_of (sections_in self.now) }
    {
        &self.index
    }

    /// How many entries the table has room for.
    pub fn capacity(&self) -> u64
        ensures room { result ≡ room_for (sections_in self.now) }
        ensures table { result ≡ self.now.table.layout.capacity }
    {
        room_for(&self.sections, self.index.count())
    }

    /// The header of unit `unit`, which is that of a unit of the handle's sections.
    ///
    /// # Errors
    /// Those of [`UnitIndex::header`].
    #[tactic(auto, using(entry_tree::specs::Units::unit_of_shape))]
    pub fn header(&self, unit: u32) -> Result<UnitHeader, Fault>
        requires { unit < unit_count (sections_in self.now).info (sections_in self.now).order }
        ensures header { result ≡ unit_header (sections_in self.now) unit }
        ensures unit { IfOk result (IsUnitOf (sections_in self.now)) }
    {
        self.index.header(unit)
    }

    /// The file's declarations, as one reader finds them: see [`Cached`].
    pub fn cached<'h>(&'h self, pass: &'h mut HandlePass<'f>) -> Cached<'h, 'f>
        requires { Belongs self.now pass.old }
        ensures handle { result.handle.now ≡ self.now }
        ensures pass { result.pass.now ≡ pass.old }
        ensures name { result.pass.ghost_name ≡ pass.entry.ghost_name }
    {
        Cached { handle: self, pass }
    }
}
