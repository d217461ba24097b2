//! The text of a unit, made as its entries are read.

ghost use Rattle.std.specs.Prelude.{◌≡◌, [], IfOk, OnErr, OnOk};
ghost use Rattle.elf_sections.specs.Shapes.{AreShort, sections_view};
ghost use Rattle.entry_tree.specs.Keys.{GainsOnly, IsFoundKey, IsKeyAmong, KeysKnown, KeysNoted};
ghost use Rattle.entry_tree.specs.Units.{IsUnitOf, entries_of};
ghost use Rattle.unit_headers.specs.Refusals.{Answers};
ghost use Rattle.unit_text.specs.UnitStreams.{count_of_entries, streamed_unit};
ghost use Rattle.unit_text.specs.UnitView.{unit_of};

use crate::unit::Unit;
use crate::unit_line::push_unit_line;
use crate::unit_sink::UnitSink;
use abbrev_decl::{Decls, Steps};
use bumpalo::Bump;
use elf_sections::Sections;
use entry_tree::{AllAttrs, read_unit_into};
use form_values::UnitFacts;
use std::alloc::Global;
use std::mem;
use unit_headers::{UnitHeader, UnitRefusal};

/// Reads the entries of a unit and puts the unit's text in the place of what `out` held: its line, and for each entry a
/// line with its place, depth and tag, and a line for each attribute with its name and its value, resolved. The answer
/// is how many entries the unit has. Of the entries only the declarations lie in the arena.
///
/// The header is that of a unit of these sections, the facts are the unit's, and the source's section is
/// `.debug_abbrev`. `decls` is asked for the codes of the unit's entries, and for no other.
///
/// # Errors
/// Those of [`entry_tree::read_entries`] first, wherever the entry stands; else where a value can't be resolved, at the
/// attribute's place: the first in the order of entries and attributes, with the causes of
/// [`form_values::resolve_text`], [`form_values::resolve_address`] and [`form_values::resolve_list`]. Want of memory
/// may come at any time. `out` is then empty.
pub fn stream_unit<'a, 'f: 'a, D: Decls<'f>, L>(
    alloc: Global,
    arena: &'a Bump,
    decls: &mut D,
    header: &UnitHeader,
    sections: &Sections<'f>,
    facts: &UnitFacts,
    out: &mut Vec<u8>,
    steps: &mut Steps<L>,
) -> Result<u32, UnitRefusal>
    requires section { D.section decls.old ≡ (sections_view sections.now).«abbrev» }
    requires unit { IsUnitOf (sections_view sections.now) header.now }
    requires short { AreShort (sections_view sections.now) }
    ensures text { Answers (λ count. out.new.items) result
        (streamed_unit (unit_of (sections_view sections.entry.now) header.now facts.now)) }
    ensures empty { OnErr result (out.new.items ≡ []) }
    ensures entries { IfOk result (λ count. count
        ≡ count_of_entries (entries_of (sections_view sections.entry.now) header.now)) }
    ensures follows { D.follows decls.old decls.new }
    ensures placed { GainsOnly (IsFoundKey (D.section decls.old) header.now.«abbrev»)
        (D.placed decls.old) (D.placed decls.new) }
    ensures keys { OnOk result (IfOk (entries_of (sections_view sections.entry.now) header.now)
        (λ entries. GainsOnly (IsKeyAmong header.now.«abbrev» entries)
        (D.placed decls.old) (D.placed decls.new))) }
    ensures noted { OnOk result (IfOk (entries_of (sections_view sections.entry.now) header.now)
        (λ entries. KeysNoted (D.seen decls.new) (D.spent decls.new) header.now.«abbrev» entries)) }
    ensures known { IfOk (entries_of (sections_view sections.entry.now) header.now)
        (λ entries. KeysKnown (D.seen decls.old) header.now.«abbrev» entries
        → steps.new ≡ steps.old) }
{
    let mut text = mem::replace(out, Vec::new(alloc));
    text.clear();
    push_unit_line(&mut text, header)?;
    let unit = Unit {
        sections,
        header,
        facts,
    };
    let mut sink = UnitSink::new(unit, text);
    read_unit_into::<D, AllAttrs, UnitSink<'_, 'f>, L>(
        arena, decls, header, sections, &mut sink, steps,
    )?;
    sink.finish(out)
}
