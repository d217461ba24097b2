//! The lists of a unit, made as its entries are read.

ghost use Rattle.std.specs.Prelude.{◌≡◌, IfOk};
ghost use Rattle.elf_sections.specs.Shapes.{AreShort, sections_view};
ghost use Rattle.entry_tree.specs.Keys.{GainsOnly, IsFoundKey, KeysKnown};
ghost use Rattle.entry_tree.specs.Units.{IsUnitOf, entries_of};
ghost use Rattle.unit_text.specs.Pieces.{Writes};
ghost use Rattle.unit_text.specs.UnitStreams.{streamed_lists};
ghost use Rattle.unit_text.specs.UnitView.{unit_of};

use crate::last_lists::LastLists;
use crate::list_attrs::ListAttrs;
use crate::list_sink::ListSink;
use crate::unit::Unit;
use abbrev_decl::{Decls, Steps};
use bumpalo::Bump;
use elf_sections::Sections;
use entry_tree::read_unit_into;
use form_values::UnitFacts;
use std::alloc::Global;
use std::mem;
use unit_headers::{UnitHeader, UnitRefusal};

/// Reads the entries of a unit and appends their lists, in the order of the entries and of their attributes (DWARF 5
/// sections 2.6.2 and 2.17.3). A list that the attribute before named too is not read again, where the units' bases and
/// lowest addresses are the same; `lists` goes from unit to unit for that.
///
/// The header is that of a unit of these sections, `lists` are of them too, the facts are the unit's, and the source's section is
/// `.debug_abbrev`. `decls` is asked for the codes of the unit's entries, and for no other. Of the entries only the declarations
/// lie in the arena.
///
/// # Errors
/// Those of [`entry_tree::read_entries`] first, wherever the entry stands; else the first refusal of a list: at the
/// attribute where its value can't be resolved, otherwise where the list can't be read. Want of memory may come at any
/// time. `out` is then as it was.
pub fn stream_lists<'a, 'f: 'a, D: Decls<'f>, L>(
    alloc: Global,
    lists: &mut LastLists<'f>,
    arena: &'a Bump,
    decls: &mut D,
    header: &UnitHeader,
    sections: &Sections<'f>,
    facts: &UnitFacts,
    out: &mut Vec<u8>,
    steps: &mut Steps<L>,
) -> Result<(), UnitRefusal>
    requires section { D.section decls.old ≡ (sections_view sections.now).«abbrev» }
    requires lists { lists.old ≡ sections_view sections.now }
    requires unit { IsUnitOf (sections_view sections.now) header.now }
    requires short { AreShort (sections_view sections.now) }
    ensures text { Writes result out.old.items out.new.items
        (streamed_lists (unit_of (sections_view sections.entry.now) header.now facts.now)) }
    ensures lists { lists.new ≡ lists.old }
    ensures follows { D.follows decls.old decls.new }
    ensures placed { GainsOnly (IsFoundKey (D.section decls.old) header.now.«abbrev»)
        (D.placed decls.old) (D.placed decls.new) }
    ensures known { IfOk (entries_of (sections_view sections.entry.now) header.now)
        (λ entries. KeysKnown (D.seen decls.old) header.now.«abbrev» entries
        → steps.new ≡ steps.old) }
{
    let unit = Unit {
        sections,
        header,
        facts,
    };
    let last = mem::replace(lists, LastLists::new(sections));
    let mut sink = ListSink::new(alloc, unit, last);
    read_unit_into::<D, ListAttrs, ListSink<'_, 'f>, L>(
        arena, decls, header, sections, &mut sink, steps,
    )?;
    sink.finish(lists, out)
}
