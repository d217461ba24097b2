//! A cursor over the entries of a unit (DWARF 5 section 7.5.2).

ghost use Rattle.std.specs.Prelude.{◌≡◌, ◌+◌, ◌<◌, ◌≤◌, ◌^◌, ◌∷◌, [], length, true, false, None, IfOk, OnOk, Contains};
ghost use Rattle.dw_fields.specs.Reading.{IsAddressSize};
ghost use Rattle.abbrev_decl.specs.Lookup.{IsSmallFound, Notes, PlacesAtMost, first_declaration, key};
ghost use Rattle.elf_sections.specs.Shapes.{sections_view, AreShort};
ghost use Rattle.form_values.specs.View.{widths_of};
ghost use Rattle.entry_tree.specs.Entries.{depth_behind, behind_entry};
ghost use Rattle.entry_tree.specs.Kept.{kept_coded_at, kept_entry_at};
ghost use Rattle.entry_tree.specs.Keys.{GainsOnly, IsFoundKey, KeysKnown};
ghost use Rattle.entry_tree.specs.Remembered.{AreBlank, Remembers};
ghost use Rattle.entry_tree.specs.Taken.{CursorTakes, ServesCursor, TakesAt, TookEntries, entries_left};
ghost use Rattle.entry_tree.specs.Units.{IsUnitOf, area_of};

use crate::attr_names::AttrNames;
use crate::attributes::give_attrs;
use crate::entry::EntryHead;
use crate::remembered::{DeclMemo, find_remembered};
use crate::sink::EntrySink;
use abbrev_decl::{Decls, Steps};
use bumpalo::Bump;
use dw_fields::Cut;
use elf_sections::Sections;
use std::marker::Model;
use unit_headers::{UnitHeader, UnitRefusal};

/// Goes over the entries of a unit in their order, as many at a time as its caller wants.
///
/// It remembers the declarations of the first codes of the unit's table in an arena, from when each was found.
///
/// ```
/// let mut cursor = EntryCursor::new(&arena, &header, &sections);
/// let mut batch = EntryBatch::new(&arena);
/// while !cursor.is_at_end() {
///     batch.clear();
///     cursor.read_into::<_, AllAttrs, _, _>(&mut decls, &mut batch, Some(1000), &mut steps)?;
///     for index in 0..batch.len() {
///         look_at(&batch.entry(index));
///     }
/// }
/// ```
#[derive(Drop)]
pub struct EntryCursor<'a, 'h, 'f> {
    memo: DeclMemo<'a>,
    header: &'h UnitHeader,
    cut: Cut<'f>,
    depth: u32,
}

impl<'a, 'h, 'f> Model for EntryCursor<'a, 'h, 'f> {
    ghost use Rattle.std.specs.Prelude.{◌<◌, ◌≤◌, ◌+◌, ◌-◌, ◌^◌};
    ghost use Rattle.entry_tree.specs.Taken.{CursorView};

    ghost Value = { CursorView };

    ghost view = { λ c. record {
      header = c.header.now;
      left = c.cut;
      depth = c.depth;
      slots = c.memo.slots.items;
    } };

    ghost invariant = { λ c. (c.cut.end < 2 ^ 32) × (c.depth ≤ c.cut.place) };
}

/// What was passed: the depth behind it, and how many entries and attributes it is; a code 0 is none.
#[derive(Clone, Copy)]
struct Passed {
    depth: u32,
    count: u64,
}

/// The depth behind an entry.
fn depth_behind(children: bool, depth: u32) -> u32
    requires { depth + 1 < 2 ^ 32 }
    ensures depth { result ≡ depth_behind children depth }
    ensures most { result ≤ depth + 1 }
{
    if children { depth + 1 } else { depth }
}

/// Gives the sink the entry at `place`, whose code isn't 0 and ends where the cut stands.
#[inline(always)]
#[tactic(auto, unfolding(crate::specs::Kept::kept_coded_at))]
fn read_coded<'a, 'f: 'a, D: Decls<'f>, K: AttrNames, S: EntrySink<'f>, L>(
    memo: &mut DeclMemo<'a>,
    decls: &mut D,
    header: &UnitHeader,
    cut: &mut Cut<'f>,
    depth: u32,
    place: u64,
    code: u64,
    sink: &mut S,
    steps: &mut Steps<L>,
) -> Result<Passed, UnitRefusal>
    requires inside { header.now.«abbrev» ≤ length (D.section decls.old) }
    requires size { IsAddressSize header.now.address_size }
    requires some { 0 < code }
    requires room { depth + 1 < 2 ^ 32 }
    requires remembers { Remembers (D.section decls.old) header.now.«abbrev» (D.seen decls.old)
        (D.spent decls.old) memo.old.slots.items }
    ensures entry { TakesAt result (λ s. behind_entry depth
        (kept_coded_at K.keeps (D.section decls.old) header.now.«abbrev» (widths_of header.now)
        depth place code s)) cut.old cut.new
        (λ passed read. (read.0 ≡ passed.depth) × (read.1.code ≡ code)
        × S.took sink.old sink.new (read.1 ∷ [])) }
    ensures forward { IfOk result
        (λ passed. (cut.old.place ≤ cut.new.place) × (passed.depth ≤ depth + 1)) }
    ensures follows { D.follows decls.old decls.new }
    ensures placed { PlacesAtMost (D.placed decls.old) (D.placed decls.new)
        (key header.now.«abbrev» code)
        (IsSmallFound code (first_declaration (D.section decls.old) header.now.«abbrev» code)) }
    ensures noted { code < 2 ^ 32
        → OnOk result (Notes (D.seen decls.new) (D.spent decls.new)
        (key header.now.«abbrev» code)) }
    ensures known { code < 2 ^ 32 → Contains (D.seen decls.old) (key header.now.«abbrev» code)
        → steps.new ≡ steps.old }
    ensures remembers { OnOk result (Remembers (D.section decls.new) header.now.«abbrev»
        (D.seen decls.new) (D.spent decls.new) memo.new.slots.items) }
{
    let declaration = find_remembered(memo, decls, header.abbrev, code, place, steps)?;
    let pairs = declaration.attrs();
    let room = K::room(&pairs);
    let head = EntryHead {
        place,
        depth,
        code,
        tag: declaration.tag(),
    };
    sink.begin(head, room)?;
    give_attrs::<K, S>(cut, header, pairs, sink)?;
    sink.end()?;
    Ok(Passed {
        depth: depth_behind(declaration.children(), depth),
        count: (room as u64).saturating_add(1),
    })
}

/// Passes what stands at a depth: a code 0, or an entry, which the sink is given.
#[inline(always)]
#[tactic(auto, unfolding(crate::specs::Kept::kept_entry_at))]
fn read_entry<'a, 'f: 'a, D: Decls<'f>, K: AttrNames, S: EntrySink<'f>, L>(
    memo: &mut DeclMemo<'a>,
    decls: &mut D,
    header: &UnitHeader,
    cut: &mut Cut<'f>,
    depth: u32,
    sink: &mut S,
    steps: &mut Steps<L>,
) -> Result<Passed, UnitRefusal>
    requires inside { header.now.«abbrev» ≤ length (D.section decls.old) }
    requires size { IsAddressSize header.now.address_size }
    requires room { depth + 1 < 2 ^ 32 }
    requires remembers { Remembers (D.section decls.old) header.now.«abbrev» (D.seen decls.old)
        (D.spent decls.old) memo.old.slots.items }
    ensures entry { TakesAt result
        (kept_entry_at K.keeps (D.section decls.old) header.now.«abbrev» (widths_of header.now)
        depth) cut.old cut.new
        (λ passed read. (read.0 ≡ passed.depth)
        × TookEntries (S.took sink.old sink.new) header.now.«abbrev» (D.seen decls.new)
        (D.spent decls.new) (D.placed decls.old) (D.placed decls.new) read.1) }
    ensures forward { IfOk result (λ passed.
        (cut.old.place + 1 ≤ cut.new.place) × (passed.depth ≤ depth + 1)) }
    ensures follows { D.follows decls.old decls.new }
    ensures placed { GainsOnly (IsFoundKey (D.section decls.old) header.now.«abbrev»)
        (D.placed decls.old) (D.placed decls.new) }
    ensures known { IfOk
        (kept_entry_at K.keeps (D.section decls.old) header.now.«abbrev» (widths_of header.now)
        depth cut.old)
        (λ read. KeysKnown (D.seen decls.old) header.now.«abbrev» read.0.1
        → steps.new ≡ steps.old) }
    ensures remembers { OnOk result (Remembers (D.section decls.new) header.now.«abbrev»
        (D.seen decls.new) (D.spent decls.new) memo.new.slots.items) }
{
    let place = cut.place();
    let code = cut.uleb()?;
    if code == 0 {
        return Ok(Passed {
            depth: depth.saturating_sub(1),
            count: 0,
        });
    }
    read_coded::<D, K, S, L>(memo, decls, header, cut, depth, place, code, sink, steps)
}

impl<'a, 'h, 'f: 'a> EntryCursor<'a, 'h, 'f> {
    /// A cursor before the first entry of a unit. The header is that of a unit of these sections.
    pub fn new(
        arena: &'a Bump,
        header: &'h UnitHeader,
        sections: &Sections<'f>,
    ) -> EntryCursor<'a, 'h, 'f>
        requires unit { IsUnitOf (sections_view sections.now) header.now }
        requires short { AreShort (sections_view sections.now) }
        ensures header { result.header ≡ header.entry.now }
        ensures left { result.left ≡ area_of (sections_view sections.entry.now) header.entry.now }
        ensures depth { result.depth ≡ 0 }
        ensures blank { AreBlank result.slots }
    {
        let cut = Cut::new(sections.info, header.entries, header.end, sections.order);
        let memo = DeclMemo::new(arena, cut.left());
        EntryCursor {
            memo,
            header,
            cut,
            depth: 0,
        }
    }

    /// Whether no byte of the unit is left.
    pub fn is_at_end(&self) -> bool
        ensures ended { result ≡ true → self.now.left.end ≤ self.now.left.place }
        ensures left { result ≡ false → self.now.left.place < self.now.left.end }
    {
        self.cut.left() == 0
    }

    /// Gives the sink the entries from the cursor's place on: all that are left where no `most` is given, else
    /// until so many entries and attributes together were passed, the attributes as [`AttrNames::room`] counts
    /// them. It goes on by one entry at least, where one is left. Of each entry the attributes that `K` names are given; the values of the others are read and refused
    /// as they are.
    ///
    /// `decls` is asked for the codes of the unit's entries, and for no other.
    ///
    /// # Errors
    /// Those of [`crate::read_entries`]; `OutOfMemory` also from the sink. Nothing is said of the cursor and of the
    /// sink then.
    pub fn read_into<D: Decls<'f>, K: AttrNames, S: EntrySink<'f>, L>(
        &mut self,
        decls: &mut D,
        sink: &mut S,
        most: Option<u64>,
        steps: &mut Steps<L>,
    ) -> Result<(), UnitRefusal>
        requires serves { ServesCursor (D.section decls.old) (D.seen decls.old) (D.spent decls.old)
            self.old }
        ensures entries { CursorTakes result K.keeps (D.section decls.old) self.old self.new
            (TookEntries (S.took sink.old sink.new) self.old.header.«abbrev» (D.seen decls.new)
            (D.spent decls.new) (D.placed decls.old) (D.placed decls.new)) }
        ensures end { most ≡ None → OnOk result (self.new.left.end ≤ self.new.left.place) }
        ensures moved { self.old.left.place < self.old.left.end
            → OnOk result (self.old.left.place < self.new.left.place) }
        ensures serves { OnOk result (ServesCursor (D.section decls.new) (D.seen decls.new)
            (D.spent decls.new) self.new) }
        ensures follows { D.follows decls.old decls.new }
        ensures placed { GainsOnly (IsFoundKey (D.section decls.old) self.old.header.«abbrev»)
            (D.placed decls.old) (D.placed decls.new) }
        ensures known { IfOk (entries_left K.keeps (D.section decls.old) self.old)
            (λ entries. KeysKnown (D.seen decls.old) self.old.header.«abbrev» entries
            → steps.new ≡ steps.old) }
    {
        let turns = self.cut.left();
        let mut passed: u64 = 0;
        'entries: for _turn in 0..turns {
            if self.cut.left() == 0 {
                return Ok(());
            }
            if is_enough(passed, most) {
                return Ok(());
            }
            let mut cut = self.cut.fork();
            let entry = read_entry::<D, K, S, L>(
                &mut self.memo,
                decls,
                self.header,
                &mut cut,
                self.depth,
                sink,
                steps,
            );
            let entry = match entry {
                Ok(entry) => entry,
                Err(refusal) => return Err(refusal),
            };
            self.cut = cut;
            self.depth = entry.depth;
            passed = passed.saturating_add(entry.count);
        }
        Ok(())
    }
}

/// Whether some were passed, and so many that no more are wanted.
fn is_enough(passed: u64, most: Option<u64>) -> bool
    ensures none { most ≡ None → result ≡ false }
    ensures some { result ≡ true → 0 < passed }
{
    match most {
        Some(most) => 0 < passed && most <= passed,
        None => false,
    }
}
