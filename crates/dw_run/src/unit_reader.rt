//! The units of an opened file, as one reader goes over them.

ghost use Rattle.std.specs.Prelude.{◌≡◌, ◌<◌, IfOk};
ghost use Rattle.entry_tree.specs.Units.{IsUnitOf, unit_facts, unit_header};
ghost use Rattle.unit_headers.specs.Headers.{unit_count};
ghost use Rattle.unit_text.specs.Pieces.{Writes};
ghost use Rattle.unit_text.specs.UnitStreams.{streamed_lists};
ghost use Rattle.unit_text.specs.UnitView.{unit_of};
ghost use Rattle.handle_cache.specs.Handles.{Belongs, sections_in};

use abbrev_decl::Steps;
use bumpalo::Bump;
use dw_fields::Fault;
use form_values::UnitFacts;
use handle_cache::{CachedWalk, Handle, HandlePass};
use line_text::LineTables;
use std::alloc::Global;
use std::marker::Model;
use unit_headers::{UnitHeader, UnitRefusal};
use unit_text::{LastLists, stream_lists};
use walked_tables::TableWalker;

/// One reader of an opened file. It looks declarations and the facts of units up through its pass,
/// and keeps the line table and the lists that it read last. Declarations that the file's table doesn't
/// have are walked to from where the last walk in the same table of declarations ended.
#[derive(Drop)]
pub struct UnitReader<'h, 'f> {
    handle: &'h Handle<'f>,
    pass: &'h mut HandlePass<'f>,
    walker: TableWalker<'f>,
    pub(crate) tables: LineTables<'f>,
    pub(crate) lists: LastLists<'f>,
}

impl<'h, 'f> Model for UnitReader<'h, 'f> {
    ghost use Rattle.std.specs.Prelude.{◌≡◌};
    ghost use Rattle.elf_sections.specs.Shapes.{SectionsView};
    ghost use Rattle.handle_cache.specs.Handles.{Belongs, sections_in};

    ghost Value = { SectionsView };

    ghost view = { λ r. sections_in r.handle.now };

    ghost invariant = { λ r. Belongs r.handle.now r.pass.now
        × (r.tables ≡ sections_in r.handle.now) × (r.lists ≡ sections_in r.handle.now)
        × (r.walker ≡ (sections_in r.handle.now).«abbrev») };
}

impl<'h, 'f> UnitReader<'h, 'f> {
    /// The reader of this file with this pass, which belongs to the file and is at rest.
    pub fn new(
        alloc: Global,
        handle: &'h Handle<'f>,
        pass: &'h mut HandlePass<'f>,
    ) -> UnitReader<'h, 'f>
        requires { Belongs handle.now pass.old }
        ensures { result ≡ sections_in handle.entry.now }
    {
        UnitReader {
            handle,
            pass,
            walker: TableWalker::new(alloc, handle.sections().abbrev),
            tables: LineTables::new(handle.sections()),
            lists: LastLists::new(handle.sections()),
        }
    }

    /// How many units the file has.
    pub fn count(&self) -> u32
        ensures { result ≡ unit_count self.now.info self.now.order }
    {
        self.handle.index().count()
    }

    /// The header of unit `unit`.
    ///
    /// # Errors
    /// Those of [`unit_headers::UnitIndex::header`].
    pub fn header(&self, unit: u32) -> Result<UnitHeader, Fault>
        requires { unit < unit_count self.now.info self.now.order }
        ensures header { result ≡ unit_header self.now unit }
        ensures unit { IfOk result (IsUnitOf self.now) }
    {
        self.handle.header(unit)
    }

    /// What the header and the first entry of unit `unit` say of it.
    ///
    /// # Errors
    /// Those of [`Handle::unit`].
    pub fn facts(&mut self, unit: u32) -> Result<UnitFacts, Fault>
        requires { unit < unit_count self.old.info self.old.order }
        ensures facts { result ≡ unit_facts self.old unit }
        ensures same { self.new ≡ self.old }
    {
        let mut steps = Steps::start(());
        self.handle.unit(self.pass, unit, &mut steps)
    }

    /// Appends the range lists and location lists of all entries of the unit of a header with these
    /// facts. Of the entries only the declarations lie in the arena.
    ///
    /// # Errors
    /// Those of [`stream_lists`]. `out` is then as it was.
    pub fn write_lists(
        &mut self,
        alloc: Global,
        arena: &Bump,
        header: &UnitHeader,
        facts: &UnitFacts,
        out: &mut Vec<u8>,
    ) -> Result<(), UnitRefusal>
        requires { IsUnitOf self.old header.now }
        ensures text { Writes result out.old.items out.new.items
            (streamed_lists (unit_of self.old header.now facts.now)) }
        ensures same { self.new ≡ self.old }
    {
        write_unit_lists(
            alloc,
            arena,
            self.handle,
            self.pass,
            &mut self.walker,
            &mut self.lists,
            header,
            facts,
            out,
        )
    }
}

/// Appends the lists of the unit of a header, whose declarations are looked up through the pass.
#[inline(never)]
fn write_unit_lists<'a, 'f: 'a>(
    alloc: Global,
    arena: &'a Bump,
    handle: &Handle<'f>,
    pass: &mut HandlePass<'f>,
    walker: &mut TableWalker<'f>,
    lists: &mut LastLists<'f>,
    header: &UnitHeader,
    facts: &UnitFacts,
    out: &mut Vec<u8>,
) -> Result<(), UnitRefusal>
    requires belongs { Belongs handle.now pass.old }
    requires walks { walker.old ≡ (sections_in handle.now).«abbrev» }
    requires lists { lists.old ≡ sections_in handle.now }
    requires unit { IsUnitOf (sections_in handle.now) header.now }
    ensures text { Writes result out.old.items out.new.items
        (streamed_lists (unit_of (sections_in handle.entry.now) header.now facts.now)) }
    ensures belongs { Belongs handle.entry.now pass.new }
    ensures walks { walker.new ≡ (sections_in handle.entry.now).«abbrev» }
    ensures lists { lists.new ≡ sections_in handle.entry.now }
{
    let mut steps = Steps::start(());
    let mut cached = CachedWalk {
        handle,
        pass,
        walker,
    };
    stream_lists(
        alloc,
        lists,
        arena,
        &mut cached,
        header,
        handle.sections(),
        facts,
        out,
        &mut steps,
    )
}
