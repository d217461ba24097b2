//! The entries of a unit.

ghost use Rattle.std.specs.Prelude.{◌≡◌, map, IfOk};
ghost use Rattle.elf_sections.specs.Shapes.{sections_view, AreShort};
ghost use Rattle.unit_headers.specs.Refusals.{Answers};
ghost use Rattle.entry_tree.specs.Views.{entry_view};
ghost use Rattle.entry_tree.specs.Kept.{kept_entries};
ghost use Rattle.entry_tree.specs.Keys.{GainsOnly, IsFoundKey, IsKeyAmong, KeysKnown, KeysNoted};
ghost use Rattle.entry_tree.specs.Taken.{Takes, TookEntries};
ghost use Rattle.entry_tree.specs.Units.{IsUnitOf, entries_of};

use crate::attr_names::{AllAttrs, AttrNames};
use crate::batch::{EntryBatch, list_entries};
use crate::cursor::EntryCursor;
use crate::entry::Entry;
use crate::sink::EntrySink;
use abbrev_decl::{Decls, Steps};
use bumpalo::Bump;
use elf_sections::Sections;
use unit_headers::{UnitHeader, UnitRefusal};

/// Reads the entries of a unit into the arena, in their order (DWARF 5 section 7.5.2). Places are
/// offsets from the start of `.debug_info`.
///
/// The header is that of a unit of these sections, and the source's section is `.debug_abbrev`.
/// `decls` is asked for the codes of the unit's entries, and for no other.
///
/// # Errors
/// The first refusal in the order of reading. `CodeMissing` at an entry whose code isn't in the unit's
/// table; `DeclTruncated`, `LebTooLarge` and `ChildrenByte` in `.debug_abbrev` where the walk to its
/// declaration ends at a fault; `Truncated` and `LebTooLarge` at a code; and the refusals of
/// `read_value`. `OutOfMemory` where the arena has no room.
pub fn read_entries<'a, 'f: 'a, D: Decls<'f>, L>(
    arena: &'a Bump,
    decls: &mut D,
    header: &UnitHeader,
    sections: &Sections<'f>,
    steps: &mut Steps<L>,
) -> Result<&'a [Entry<'a>], UnitRefusal>
    requires section { D.section decls.old ≡ (sections_view sections.now).«abbrev» }
    requires unit { IsUnitOf (sections_view sections.now) header.now }
    requires short { AreShort (sections_view sections.now) }
    ensures entries { Answers (λ s. map entry_view s.now)
        result (entries_of (sections_view sections.entry.now) header.now) }
    ensures follows { D.follows decls.old decls.new }
    ensures placed { GainsOnly (IsFoundKey (D.section decls.old) header.now.«abbrev»)
        (D.placed decls.old) (D.placed decls.new) }
    ensures keys { IfOk result
        (λ s. GainsOnly (IsKeyAmong header.now.«abbrev» (map entry_view s.now)) (D.placed decls.old)
        (D.placed decls.new)) }
    ensures noted { IfOk result
        (λ s. KeysNoted (D.seen decls.new) (D.spent decls.new)
        header.now.«abbrev» (map entry_view s.now)) }
    ensures known { IfOk (entries_of (sections_view sections.entry.now) header.now)
        (λ entries. KeysKnown (D.seen decls.old) header.now.«abbrev» entries
        → steps.new ≡ steps.old) }
{
    read_kept_entries::<D, AllAttrs, L>(arena, decls, header, sections, steps)
}

/// Reads the entries of a unit as [`read_entries`] does, and keeps of each the attributes that `K` names,
/// in their order. The values of the others are read and refused as there.
///
/// # Errors
/// Those of [`read_entries`].
pub fn read_kept_entries<'a, 'f: 'a, D: Decls<'f>, K: AttrNames, L>(
    arena: &'a Bump,
    decls: &mut D,
    header: &UnitHeader,
    sections: &Sections<'f>,
    steps: &mut Steps<L>,
) -> Result<&'a [Entry<'a>], UnitRefusal>
    requires section { D.section decls.old ≡ (sections_view sections.now).«abbrev» }
    requires unit { IsUnitOf (sections_view sections.now) header.now }
    requires short { AreShort (sections_view sections.now) }
    ensures entries { Answers (λ s. map entry_view s.now)
        result (kept_entries K.keeps (entries_of (sections_view sections.entry.now) header.now)) }
    ensures follows { D.follows decls.old decls.new }
    ensures placed { GainsOnly (IsFoundKey (D.section decls.old) header.now.«abbrev»)
        (D.placed decls.old) (D.placed decls.new) }
    ensures keys { IfOk result
        (λ s. GainsOnly (IsKeyAmong header.now.«abbrev» (map entry_view s.now)) (D.placed decls.old)
        (D.placed decls.new)) }
    ensures noted { IfOk result
        (λ s. KeysNoted (D.seen decls.new) (D.spent decls.new)
        header.now.«abbrev» (map entry_view s.now)) }
    ensures known { IfOk (entries_of (sections_view sections.entry.now) header.now)
        (λ entries. KeysKnown (D.seen decls.old) header.now.«abbrev» entries
        → steps.new ≡ steps.old) }
{
    let mut batch = EntryBatch::new(arena);
    read_unit_into::<D, K, EntryBatch<'_, 'f>, L>(
        arena, decls, header, sections, &mut batch, steps,
    )?;
    Ok(list_entries(arena, &batch)?)
}

/// Gives the sink the entries of a unit, in their order; of each those attributes that `K` names (DWARF 5 section 7.5.2). The
/// values of the others are read and refused as they are.
///
/// The header is that of a unit of these sections, and the source's section is `.debug_abbrev`. `decls` is
/// asked for the codes of the unit's entries, and for no other. The arena holds the declarations that are remembered, and
/// not the entries.
///
/// # Errors
/// Those of [`read_entries`]; `OutOfMemory` also from the sink.
pub fn read_unit_into<'a, 'f: 'a, D: Decls<'f>, K: AttrNames, S: EntrySink<'f>, L>(
    arena: &'a Bump,
    decls: &mut D,
    header: &UnitHeader,
    sections: &Sections<'f>,
    sink: &mut S,
    steps: &mut Steps<L>,
) -> Result<(), UnitRefusal>
    requires section { D.section decls.old ≡ (sections_view sections.now).«abbrev» }
    requires unit { IsUnitOf (sections_view sections.now) header.now }
    requires short { AreShort (sections_view sections.now) }
    ensures entries { Takes result
        (kept_entries K.keeps (entries_of (sections_view sections.entry.now) header.now))
        (TookEntries (S.took sink.old sink.new) header.now.«abbrev» (D.seen decls.new)
        (D.spent decls.new) (D.placed decls.old) (D.placed decls.new)) }
    ensures follows { D.follows decls.old decls.new }
    ensures placed { GainsOnly (IsFoundKey (D.section decls.old) header.now.«abbrev»)
        (D.placed decls.old) (D.placed decls.new) }
    ensures known { IfOk (entries_of (sections_view sections.entry.now) header.now)
        (λ entries. KeysKnown (D.seen decls.old) header.now.«abbrev» entries
        → steps.new ≡ steps.old) }
{
    let mut cursor = EntryCursor::new(arena, header, sections);
    cursor.read_into::<D, K, S, L>(decls, sink, None, steps)
}
