//! One unit, read through the table of an opened file.

ghost use Rattle.std.specs.Prelude.{◌≡◌, ◌<◌, ◌≤◌, [], IfOk, OnOk};
ghost use Rattle.unit_headers.specs.Headers.{unit_count};
ghost use Rattle.unit_headers.specs.Refusals.{Answers};
ghost use Rattle.entry_tree.specs.Keys.{GainsOnly, IsKeyAmong, KeysKnown, KeysNoted};
ghost use Rattle.entry_tree.specs.Units.{IsUnitOf, entries_of};
ghost use Rattle.map_cells.specs.Seen.{Follows};
ghost use Rattle.handle_cache.specs.Handles.{Belongs, front_keys, is_spent, own_keys, sections_in};
ghost use Rattle.unit_text.specs.UnitStreams.{count_of_entries, streamed_unit};
ghost use Rattle.unit_text.specs.UnitView.{unit_of};
ghost use Rattle.dump_workers.specs.FileKeys.{CountsUnits, GainsUnits, IsUnitKey, NotesUnit, RefusesNone};
ghost use Rattle.dump_workers.specs.Readings.{IsRead};
ghost use Rattle.dump_workers.specs.UnitDumps.{entry_count, unit_dump};

use crate::reading::{Reading, UnitRead};
use abbrev_decl::Steps;
use bumpalo::Bump;
use entry_tree::{facts_are_of_the_first_entry, root_facts};
use form_values::UnitFacts;
use handle_cache::{CachedWalk, Handle, HandlePass};
use std::alloc::{AllocError, Global};
use unit_headers::{UnitHeader, UnitRefusal};
use unit_text::stream_unit;
use walked_tables::TableWalker;

/// Puts the text of the unit of a header in the place of what `text` held, and answers how many entries the
/// unit has. Their declarations are looked up through the pass.
fn stream_entries<'f, L>(
    alloc: Global,
    arena: &Bump,
    handle: &Handle<'f>,
    pass: &mut HandlePass<'f>,
    walker: &mut TableWalker<'f>,
    header: &UnitHeader,
    facts: &UnitFacts,
    text: &mut Vec<u8>,
    steps: &mut Steps<L>,
) -> Result<u32, UnitRefusal>
    requires belongs { Belongs handle.now pass.old }
    requires walks { walker.old ≡ (sections_in handle.now).«abbrev» }
    requires unit { IsUnitOf (sections_in handle.now) header.now }
    ensures text { Answers (λ count. text.new.items) result
        (streamed_unit (unit_of (sections_in handle.now) header.now facts.now)) }
    ensures entries { IfOk result (λ count. count
        ≡ count_of_entries (entries_of (sections_in handle.now) header.now)) }
    ensures belongs { Belongs handle.now pass.new }
    ensures walks { walker.new ≡ (sections_in handle.now).«abbrev» }
    ensures follows { Follows pass.old pass.new }
    ensures keys { OnOk result (IfOk (entries_of (sections_in handle.now) header.now)
        (λ entries. GainsOnly (IsKeyAmong header.now.«abbrev» entries)
        (own_keys pass.old) (own_keys pass.new))) }
    ensures noted { OnOk result (IfOk (entries_of (sections_in handle.now) header.now)
        (λ entries. KeysNoted (front_keys pass.new) (is_spent pass.new)
        header.now.«abbrev» entries)) }
    ensures known { IfOk (entries_of (sections_in handle.now) header.now)
        (λ entries. KeysKnown (front_keys pass.old) header.now.«abbrev» entries
        → steps.new ≡ steps.old) }
{
    let mut cached = CachedWalk {
        handle,
        pass,
        walker,
    };
    stream_unit(
        alloc,
        arena,
        &mut cached,
        header,
        handle.sections(),
        facts,
        text,
        steps,
    )
}

/// Reads a unit: puts its text in the place of what `text` held, and answers how many entries it has. In the
/// arena lie the declarations of its entries.
///
/// # Errors
/// The first fault of the unit, or want of memory.
#[tactic(auto, unfolding(crate::specs::UnitDumps::unit_dump, crate::specs::UnitDumps::unit_entries, crate::specs::UnitDumps::entry_count, entry_tree::specs::Units::unit_facts, unit_text::specs::UnitStreams::streamed_unit))]
pub(crate) fn read_text<'f, L>(
    alloc: Global,
    arena: &Bump,
    handle: &Handle<'f>,
    pass: &mut HandlePass<'f>,
    walker: &mut TableWalker<'f>,
    unit: u32,
    text: &mut Vec<u8>,
    steps: &mut Steps<L>,
) -> Result<u32, UnitRefusal>
    requires belongs { Belongs handle.now pass.old }
    requires walks { walker.old ≡ (sections_in handle.now).«abbrev» }
    requires unit { unit
        < unit_count (sections_in handle.now).info (sections_in handle.now).order }
    ensures text { Answers (λ count. text.new.items) result
        (unit_dump (sections_in handle.now) unit) }
    ensures entries { IfOk result (λ count. count ≡ entry_count (sections_in handle.now) unit) }
    ensures belongs { Belongs handle.now pass.new }
    ensures walks { walker.new ≡ (sections_in handle.now).«abbrev» }
    ensures follows { Follows pass.old pass.new }
    ensures noted { OnOk result (NotesUnit (sections_in handle.now) unit pass.new) }
    ensures gains { OnOk result (GainsOnly (IsUnitKey (sections_in handle.now) unit)
        (own_keys pass.old) (own_keys pass.new)) }
    ensures counts { CountsUnits (sections_in handle.now) pass.old steps.old steps.new }
{
    let header = handle.header(unit)?;
    let facts = handle.unit(pass, unit, steps)?;
    let entries = stream_entries(
        alloc, arena, handle, pass, walker, &header, &facts, text, steps,
    )?;
    facts_are_of_the_first_entry(handle.sections(), &header);
    Ok(entries)
}

/// For each byte of a unit's entries there is room for so many bytes of text at first. Units of C++ have about 14;
/// what isn't written costs nothing.
const TEXT_OF_A_BYTE: u64 = 16;

/// An empty text with room for that of a unit, as far as the unit's bytes tell, so that it is seldom outgrown; or with
/// none where there is no memory for it.
pub(crate) fn room_for_text(alloc: Global, handle: &Handle<'_>, unit: u32) -> Vec<u8>
    requires { unit < unit_count (sections_in handle.now).info (sections_in handle.now).order }
    ensures { result.items ≡ [] }
{
    let bytes = match handle.header(unit) {
        Ok(header) => header.end.saturating_sub(header.entries),
        Err(_) => 0,
    };
    match Vec::with_capacity(alloc, bytes.saturating_mul(TEXT_OF_A_BYTE) as usize) {
        Ok(text) => text,
        Err(_) => Vec::new(alloc),
    }
}

/// Reads a unit as [`read_text`] does, but walks to each declaration, without the table.
///
/// # Errors
/// The first fault of the unit, or want of memory.
#[cold]
#[tactic(auto, unfolding(crate::specs::UnitDumps::unit_dump, crate::specs::UnitDumps::unit_entries, crate::specs::UnitDumps::entry_count, entry_tree::specs::Units::unit_facts, unit_text::specs::UnitStreams::streamed_unit))]
pub(crate) fn read_anew(
    alloc: Global,
    handle: &Handle<'_>,
    unit: u32,
    text: &mut Vec<u8>,
) -> Result<u32, UnitRefusal>
    requires unit { unit
        < unit_count (sections_in handle.now).info (sections_in handle.now).order }
    ensures text { Answers (λ count. text.new.items) result
        (unit_dump (sections_in handle.now) unit) }
    ensures entries { IfOk result (λ count. count ≡ entry_count (sections_in handle.now) unit) }
{
    let arena = Bump::new(alloc);
    let mut walker = TableWalker::new(alloc, handle.sections().abbrev);
    let mut steps = Steps::start(());
    let header = handle.header(unit)?;
    let facts = root_facts(&mut walker, &header, handle.sections(), &mut steps)?;
    let entries = stream_unit(
        alloc,
        &arena,
        &mut walker,
        &header,
        handle.sections(),
        &facts,
        text,
        &mut steps,
    )?;
    facts_are_of_the_first_entry(handle.sections(), &header);
    Ok(entries)
}

/// Reads a unit: its text, in the place of what `text` held, or its first fault.
///
/// # Errors
/// Want of memory.
pub(crate) fn read_unit<'f, L>(
    alloc: Global,
    arena: &Bump,
    handle: &Handle<'f>,
    pass: &mut HandlePass<'f>,
    walker: &mut TableWalker<'f>,
    unit: u32,
    text: Vec<u8>,
    steps: &mut Steps<L>,
) -> Result<Reading, AllocError>
    requires belongs { Belongs handle.now pass.old }
    requires walks { walker.old ≡ (sections_in handle.now).«abbrev» }
    requires unit { unit
        < unit_count (sections_in handle.now).info (sections_in handle.now).order }
    ensures unit { IfOk result (λ r. r.unit ≡ unit) }
    ensures read { IfOk result (λ r. IsRead (sections_in handle.now) unit r.read) }
    ensures belongs { Belongs handle.now pass.new }
    ensures walks { walker.new ≡ (sections_in handle.now).«abbrev» }
    ensures follows { Follows pass.old pass.new }
    ensures noted { OnOk result (RefusesNone (sections_in handle.now)
        → NotesUnit (sections_in handle.now) unit pass.new) }
    ensures gains { OnOk result (GainsUnits (sections_in handle.now) pass.old pass.new) }
    ensures counts { CountsUnits (sections_in handle.now) pass.old steps.old steps.new }
{
    let mut text = text;
    match read_text(alloc, arena, handle, pass, walker, unit, &mut text, steps) {
        Ok(entries) => Ok(Reading {
            unit,
            read: UnitRead::Whole { text, entries },
        }),
        Err(UnitRefusal::Refused(fault)) => Ok(Reading {
            unit,
            read: UnitRead::Refused(fault),
        }),
        Err(UnitRefusal::OutOfMemory) => Err(AllocError),
    }
}
