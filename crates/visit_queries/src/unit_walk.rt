//! The entries of units as a visitor is shown them, one unit after another.

ghost use Rattle.std.specs.Prelude.{◌≡◌, ◌<◌, ℕ, List, map, IfOk, OnOk};
ghost use Rattle.elf_sections.specs.Shapes.{AreShort, sections_view};
ghost use Rattle.unit_headers.specs.Headers.{unit_count};
ghost use Rattle.unit_headers.specs.Refusals.{Answers};
ghost use Rattle.entry_tree.specs.Keys.{GainsOnly, IsDeclaredKey, IsFoundKey};
ghost use Rattle.entry_tree.specs.Units.{IsUnitOf, unit_header, units_of};
ghost use Rattle.visit_queries.specs.Shown.{ShownEntry, met_in, met_in_unit, header_entries, shown_entry, unit_entries};
ghost use Rattle.visit_queries.specs.Seen.{Shows};

use crate::name_attrs::NameAttrs;
use crate::named_entries::NamedEntries;
use crate::names::NamedUnit;
use crate::show::show;
use crate::visitor::{EntryView, Turn, Visitor};
use crate::walk_stop::{WalkStop, stop_in};
use abbrev_decl::{Decls, Steps};
use bumpalo::Bump;
use dw_fields::Fault;
use elf_sections::Sections;
use entry_tree::{read_unit_into, renew, root_facts};
use form_values::Bases;
use std::alloc::Global;
use std::mem;
use unit_headers::{UnitHeader, UnitIndex, UnitRefusal};

/// The header of a unit, which is that of a unit of these sections.
#[tactic(auto, using(entry_tree::specs::Units::unit_of_shape))]
fn read_header(
    sections: &Sections<'_>,
    index: &UnitIndex<'_>,
    unit: u32,
) -> Result<UnitHeader, Fault>
    requires index { index.now ≡ units_of (sections_view sections.now) }
    requires inside { unit < unit_count (sections_view sections.now).info
        (sections_view sections.now).order }
    ensures header { result ≡ unit_header (sections_view sections.entry.now) unit }
    ensures unit { IfOk result (IsUnitOf (sections_view sections.entry.now)) }
{
    index.header(unit)
}

/// The entries of the unit of a header with their names.
#[tactic(auto, using(crate::proofs::KeptNames::named_of_read, crate::proofs::KeptNames::named_refused), unfolding(crate::specs::Shown::header_entries))]
fn read_named<'f, D: Decls<'f>, L>(
    arena: &Bump,
    decls: &mut D,
    unit: NamedUnit<'f>,
    views: Vec<EntryView<'f>>,
    steps: &mut Steps<L>,
) -> Result<Vec<EntryView<'f>>, UnitRefusal>
    requires section { D.section decls.old ≡ (sections_view unit.sections).«abbrev» }
    requires unit { IsUnitOf (sections_view unit.sections) unit.header }
    requires short { AreShort (sections_view unit.sections) }
    ensures entries { Answers (λ views. map shown_entry views.items) result
        (header_entries (sections_view unit.entry.sections) unit.entry.number unit.entry.header unit.entry.bases) }
    ensures follows { D.follows decls.old decls.new }
    ensures placed { GainsOnly (IsFoundKey (D.section decls.old) unit.entry.header.«abbrev»)
        (D.placed decls.old) (D.placed decls.new) }
{
    let header = unit.header;
    let sections = unit.sections;
    let mut entries = NamedEntries::new(unit, views);
    read_unit_into::<D, NameAttrs, NamedEntries<'f>, L>(
        arena,
        decls,
        &header,
        &sections,
        &mut entries,
        steps,
    )?;
    entries.finish()
}

/// The entries of a unit with their names. The list's room is used again; what stands in it is given up.
#[tactic(auto, unfolding(crate::specs::Shown::unit_entries, crate::specs::Shown::header_entries))]
fn read_unit<'f, D: Decls<'f>, L>(
    arena: &Bump,
    sections: &Sections<'f>,
    index: &UnitIndex<'f>,
    decls: &mut D,
    unit: u32,
    views: Vec<EntryView<'f>>,
    steps: &mut Steps<L>,
) -> Result<Vec<EntryView<'f>>, UnitRefusal>
    requires section { D.section decls.old ≡ (sections_view sections.now).«abbrev» }
    requires index { index.now ≡ units_of (sections_view sections.now) }
    requires short { AreShort (sections_view sections.now) }
    requires inside { unit < unit_count (sections_view sections.now).info
        (sections_view sections.now).order }
    ensures entries { Answers (λ views. map shown_entry views.items) result
        (unit_entries (sections_view sections.entry.now) unit) }
    ensures follows { D.follows decls.old decls.new }
    ensures placed { GainsOnly (IsDeclaredKey (D.section decls.old)) (D.placed decls.old)
        (D.placed decls.new) }
{
    let header = read_header(sections, index, unit)?;
    let facts = root_facts(decls, &header, sections, steps)?;
    let unit = NamedUnit {
        number: unit,
        header,
        sections: *sections,
        bases: facts.bases,
    };
    read_named(arena, decls, unit, views, steps)
}

/// Shows the entries of a unit, which are read into the room of this list.
fn show_unit<'f, D: Decls<'f>, L, V: Visitor>(
    alloc: Global,
    arena: &Bump,
    sections: &Sections<'f>,
    index: &UnitIndex<'f>,
    decls: &mut D,
    visitor: &mut V,
    unit: u32,
    views: &mut Vec<EntryView<'f>>,
    steps: &mut Steps<L>,
) -> Result<Turn, WalkStop>
    requires section { D.section decls.old ≡ (sections_view sections.now).«abbrev» }
    requires index { index.now ≡ units_of (sections_view sections.now) }
    requires short { AreShort (sections_view sections.now) }
    requires inside { unit < unit_count (sections_view sections.now).info
        (sections_view sections.now).order }
    ensures shown { Shows result (V.step visitor.old)
        (met_in_unit (sections_view sections.entry.now) unit)
        (V.state visitor.old) (V.state visitor.new) }
    ensures same_step { OnOk result ((e : ShownEntry) (s : List ℕ)
        → V.step visitor.new e s ≡ V.step visitor.old e s) }
    ensures same_text { OnOk result ((s : List ℕ) → V.text visitor.new s ≡ V.text visitor.old s) }
    ensures follows { D.follows decls.old decls.new }
    ensures placed { GainsOnly (IsDeclaredKey (D.section decls.old)) (D.placed decls.old)
        (D.placed decls.new) }
{
    let room = mem::replace(views, Vec::new(alloc));
    match read_unit(arena, sections, index, decls, unit, room, steps) {
        Ok(read) => {
            *views = read;
            show(visitor, views.as_slice())
        }
        Err(refusal) => Err(stop_in(unit, refusal)),
    }
}

/// Shows the entries of all units, up to and with the first that is answered `Enough`.
#[tactic(auto, unfolding(crate::specs::Shown::met_in))]
pub(crate) fn show_units<'f, D: Decls<'f>, L, V: Visitor>(
    alloc: Global,
    sections: &Sections<'f>,
    index: &UnitIndex<'f>,
    decls: &mut D,
    visitor: &mut V,
    steps: &mut Steps<L>,
) -> Result<Turn, WalkStop>
    requires section { D.section decls.old ≡ (sections_view sections.now).«abbrev» }
    requires index { index.now ≡ units_of (sections_view sections.now) }
    requires short { AreShort (sections_view sections.now) }
    ensures shown { Shows result (V.step visitor.old) (met_in (sections_view sections.entry.now))
        (V.state visitor.old) (V.state visitor.new) }
    ensures same_step { OnOk result ((e : ShownEntry) (s : List ℕ)
        → V.step visitor.new e s ≡ V.step visitor.old e s) }
    ensures same_text { OnOk result ((s : List ℕ) → V.text visitor.new s ≡ V.text visitor.old s) }
    ensures follows { D.follows decls.old decls.new }
    ensures placed { GainsOnly (IsDeclaredKey (D.section decls.old)) (D.placed decls.old)
        (D.placed decls.new) }
{
    let mut arena = Bump::new(alloc);
    let mut views = Vec::new(alloc);
    'units: for unit in 0..index.count() {
        match show_unit(
            alloc, &arena, sections, index, decls, visitor, unit, &mut views, steps,
        ) {
            Ok(Turn::More) => {}
            Ok(Turn::Enough) => return Ok(Turn::Enough),
            Err(stop) => return Err(stop),
        }
        renew(alloc, &mut arena);
    }
    Ok(Turn::More)
}
