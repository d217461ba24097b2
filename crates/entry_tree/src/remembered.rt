//! The declarations that the entries of a unit had before.

ghost use Rattle.std.specs.Prelude.{◌≡◌, ◌<◌, ◌≤◌, ◌^◌, length, OnOk, IfOk, IfSome, Contains};
ghost use Rattle.abbrev_decl.specs.Lookup.{IsSmallFound, Notes, PlacesAtMost, first_declaration, key};
ghost use Rattle.entry_tree.specs.Entries.{found_at};
ghost use Rattle.entry_tree.specs.Remembered.{AreBlank, IsInSlot, Remembers, SetsAtMost};

use crate::declared::find_declaration;
use abbrev_decl::{AttrSpec, Decl, Decls, Steps};
use bumpalo::Bump;
use bumpalo::collections::into_bump_slice;
use dw_fields::Fault;
use std::alloc::AllocError;

/// So many codes of a table have a slot at most.
const MOST_SLOTS: u64 = 1024;

/// For so many bytes of entries there is one slot.
const BYTES_A_SLOT: u64 = 32;

/// The declarations of the first codes of a table, each from when it was found, with its pairs in a
/// list; and the arena where the lists lie. A code has a slot of its own, so a list is made once.
#[derive(Drop)]
pub(crate) struct DeclMemo<'a> {
    pub arena: &'a Bump,
    pub slots: Vec<Option<Decl<'a>>, &'a Bump>,
}

/// As many slots without a declaration, or fewer where the arena has no room.
fn blank_slots<'a>(arena: &'a Bump, count: usize) -> Vec<Option<Decl<'a>>, &'a Bump>
    ensures { AreBlank result.items }
{
    let mut slots: Vec<Option<Decl<'a>>, &'a Bump> = match Vec::with_capacity(arena, count) {
        Ok(slots) => slots,
        Err(_) => return Vec::new(arena),
    };
    'slots: for _slot in 0..count {
        match slots.push(None) {
            Ok(()) => {}
            Err(_) => return slots,
        }
    }
    slots
}

/// The pairs of a declaration, in the arena.
fn list_pairs<'a>(arena: &'a Bump, declaration: &Decl<'_>) -> Result<&'a [AttrSpec], AllocError>
    ensures { IfOk result (λ s. s.now ≡ declaration.entry.now.pairs) }
{
    let mut left = declaration.attrs();
    let mut pairs: Vec<AttrSpec, &'a Bump> = Vec::with_capacity(arena, left.count())?;
    'pairs: while let Some(pair) = left.next() {
        match pairs.push(pair) {
            Ok(()) => {}
            Err(_) => return Err(AllocError),
        }
    }
    Ok(into_bump_slice(pairs))
}

/// The declaration with a list of its pairs; as it is where the arena has no room for one.
fn with_list<'a, 'f: 'a>(arena: &'a Bump, declaration: &Decl<'f>) -> Decl<'a>
    ensures { result ≡ declaration.entry.now }
{
    let Ok(pairs) = list_pairs(arena, declaration) else {
        return declaration.again();
    };
    declaration.listed(pairs)
}

impl<'a> DeclMemo<'a> {
    /// Nothing remembered yet, for so many bytes of entries.
    pub fn new(arena: &'a Bump, bytes: u64) -> DeclMemo<'a>
        ensures { AreBlank result.slots.items }
    {
        let count = (bytes / BYTES_A_SLOT).min(MOST_SLOTS);
        DeclMemo {
            arena,
            slots: blank_slots(arena, count as usize),
        }
    }

    /// The slot of a code, if it has one.
    fn slot(&self, code: u64) -> Option<usize>
        ensures { IfSome result (λ slot. slot < length self.now.slots.items) }
    {
        if 0 < code && code <= self.slots.len() as u64 {
            Some((code - 1) as usize)
        } else {
            None
        }
    }

    /// The declaration of a code, if it was remembered.
    fn recall(&self, code: u64) -> Option<Decl<'a>>
        ensures { IfSome result (IsInSlot self.now.slots.items code) }
    {
        let slot = self.slot(code)?;
        match &self.slots[slot] {
            Some(declaration) => {
                if declaration.code() == code {
                    Some(declaration.again())
                } else {
                    None
                }
            }
            None => None,
        }
    }

    /// Remembers a declaration, if its code has a slot.
    fn remember<'f: 'a>(&mut self, declaration: &Decl<'f>) -> Decl<'a>
        ensures same { result ≡ declaration.entry.now }
        ensures sets { SetsAtMost self.old.slots.items self.new.slots.items declaration.entry.now }
    {
        let Some(slot) = self.slot(declaration.code()) else {
            return declaration.again();
        };
        let listed = with_list(self.arena, declaration);
        self.slots[slot] = Some(listed.again());
        listed
    }
}

/// The declaration of the entry at `place`, whose code isn't 0, as `find_declaration` gives it.
/// `decls` is asked for one that isn't remembered.
#[inline(always)]
pub(crate) fn find_remembered<'a, 'f: 'a, D: Decls<'f>, L>(
    memo: &mut DeclMemo<'a>,
    decls: &mut D,
    table: u32,
    code: u64,
    place: u64,
    steps: &mut Steps<L>,
) -> Result<Decl<'a>, Fault>
    requires inside { table ≤ length (D.section decls.old) }
    requires some { 0 < code }
    requires remembers { Remembers (D.section decls.old) table (D.seen decls.old)
        (D.spent decls.old) memo.old.slots.items }
    ensures answer { result ≡ found_at place (first_declaration (D.section decls.old) table code) }
    ensures follows { D.follows decls.old decls.new }
    ensures placed { PlacesAtMost (D.placed decls.old) (D.placed decls.new) (key table code)
        (IsSmallFound code (first_declaration (D.section decls.old) table code)) }
    ensures noted { code < 2 ^ 32
        → OnOk result (Notes (D.seen decls.new) (D.spent decls.new) (key table code)) }
    ensures known { code < 2 ^ 32 → Contains (D.seen decls.old) (key table code)
        → steps.new ≡ steps.old }
    ensures remembers { OnOk result (Remembers (D.section decls.new) table (D.seen decls.new)
        (D.spent decls.new) memo.new.slots.items) }
{
    if let Some(declaration) = memo.recall(code) {
        return Ok(declaration);
    }
    let declaration = find_declaration(decls, table, code, place, steps)?;
    Ok(memo.remember(&declaration))
}
