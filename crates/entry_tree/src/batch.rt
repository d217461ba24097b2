//! Entries in a batch.

ghost use Rattle.std.specs.Prelude.{◌≡◌, ◌≤◌, ◌<◌, ◌+◌, ◌++◌, ◌∷◌, [], All, length, drop, map, IfOk, OnOk};
ghost use Rattle.entry_tree.specs.Batches.{entry_in, is_inside};
ghost use Rattle.entry_tree.specs.Views.{attr_view, entry_view};

use crate::entry::{Attr, Entry, EntryHead};
use crate::sink::EntrySink;
use bumpalo::Bump;
use bumpalo::collections::into_bump_slice;
use std::alloc::AllocError;
use std::marker::Model;

/// The head of an entry, and where its attributes begin and end among those of the batch.
#[derive(Clone, Copy, Debug)]
pub(crate) struct BatchHead {
    pub head: EntryHead,
    pub from: usize,
    pub to: usize,
}

/// Entries in the order in which they were read, with their attributes in one list; both lie in an arena. A cursor reads
/// into it ([`crate::EntryCursor::read_into`]).
#[derive(Drop)]
pub struct EntryBatch<'x, 'f> {
    heads: Vec<BatchHead, &'x Bump>,
    attrs: Vec<Attr<'f>, &'x Bump>,
    /// The head of the entry that was begun last, whose attributes begin at `from`.
    head: EntryHead,
    from: usize,
}

impl<'x, 'f> Model for EntryBatch<'x, 'f> {
    ghost use Rattle.std.specs.Prelude.{◌≤◌, All, length, map};
    ghost use Rattle.entry_tree.specs.Batches.{BatchView, entry_in, is_inside};

    ghost Value = { BatchView };

    ghost view = { λ b. record {
      entries = map (entry_in b.attrs.items) b.heads.items;
      begun = entry_in b.attrs.items
          (record { head = b.head; from = b.from; to = length b.attrs.items });
    } };

    ghost invariant = { λ b. All (is_inside (length b.attrs.items)) b.heads.items
        × (b.from ≤ length b.attrs.items) };
}

impl<'x, 'f> EntryBatch<'x, 'f> {
    /// A batch without entries, which will lie in the arena.
    pub fn new(arena: &'x Bump) -> EntryBatch<'x, 'f>
        ensures { result.entries ≡ [] }
    {
        EntryBatch {
            heads: Vec::new(arena),
            attrs: Vec::new(arena),
            head: EntryHead {
                place: 0,
                depth: 0,
                code: 0,
                tag: 0,
            },
            from: 0,
        }
    }

    /// How many entries there are.
    pub fn len(&self) -> usize
        ensures { result ≡ length self.now.entries }
    {
        self.heads.len()
    }

    /// Drops the entries. The room that they had is kept for others.
    pub fn clear(&mut self)
        ensures { self.new.entries ≡ [] }
    {
        self.heads.clear();
        self.attrs.clear();
        self.from = 0;
    }

    /// The entry with that number, counted from 0.
    pub fn entry(&self, index: usize) -> Entry<'_>
        requires { index < length self.now.entries }
        ensures { drop index self.now.entries
            ≡ entry_view result ∷ drop (index + 1) self.now.entries }
    {
        entry_at(self.heads[index], &self.attrs)
    }
}

/// The entry of a head, with its attributes among these.
fn entry_at<'a>(stored: BatchHead, attrs: &'a [Attr<'a>]) -> Entry<'a>
    requires { is_inside (length attrs.now) stored }
    ensures { entry_view result ≡ entry_in attrs.entry.now stored }
{
    Entry {
        place: stored.head.place,
        depth: stored.head.depth,
        code: stored.head.code,
        tag: stored.head.tag,
        attrs: &attrs[stored.from..stored.to],
    }
}

/// Attributes as a list in the arena.
fn list_attrs<'a, 'f: 'a>(arena: &'a Bump, attrs: &[Attr<'f>]) -> Result<&'a [Attr<'a>], AllocError>
    ensures { IfOk result (λ s. s.now ≡ attrs.entry.now) }
{
    match arena.try_alloc_slice_copy(attrs) {
        Ok(attrs) => Ok(attrs),
        Err(_) => Err(AllocError),
    }
}

/// Puts an entry at the list's end.
fn add_entry<'a>(entries: &mut Vec<Entry<'a>, &'a Bump>, entry: Entry<'a>) -> Result<(), AllocError>
    ensures { OnOk result (map entry_view entries.new.items
        ≡ map entry_view entries.old.items ++ entry_view entry.entry ∷ []) }
{
    match entries.push(entry) {
        Ok(()) => Ok(()),
        Err(_) => Err(AllocError),
    }
}

/// The entries of these heads as a list in the arena.
fn list_heads<'a>(
    arena: &'a Bump,
    heads: &[BatchHead],
    attrs: &'a [Attr<'a>],
) -> Result<&'a [Entry<'a>], AllocError>
    requires { All (is_inside (length attrs.now)) heads.now }
    ensures { IfOk result
        (λ s. map entry_view s.now ≡ map (entry_in attrs.entry.now) heads.entry.now) }
{
    let mut entries: Vec<Entry<'a>, &'a Bump> = Vec::with_capacity(arena, heads.len())?;
    for index in 0..heads.len() {
        match add_entry(&mut entries, entry_at(heads[index], attrs)) {
            Ok(()) => {}
            Err(_) => return Err(AllocError),
        }
    }
    Ok(into_bump_slice(entries))
}

/// The entries of a batch as a list in the arena, with their attributes.
pub(crate) fn list_entries<'a, 'f: 'a>(
    arena: &'a Bump,
    batch: &EntryBatch<'_, 'f>,
) -> Result<&'a [Entry<'a>], AllocError>
    ensures { IfOk result (λ s. map entry_view s.now ≡ batch.entry.now.entries) }
{
    let attrs = list_attrs(arena, &batch.attrs)?;
    list_heads(arena, &batch.heads, attrs)
}

impl<'x, 'f> EntrySink<'f> for EntryBatch<'x, 'f> {
    ghost use Rattle.std.specs.Prelude.{◌≡◌, ◌++◌};
    ghost use Rattle.entry_tree.specs.Batches.{nothing_taken, taken_together};

    ghost took = { λ x y es. y.entries ≡ x.entries ++ es };

    ghost began = { λ x y e. (y.entries ≡ x.entries) × (y.begun ≡ e) };

    fn begin(&mut self, head: EntryHead, _room: usize) -> Result<(), AllocError> {
        self.head = head;
        self.from = self.attrs.len();
        Ok(())
    }

    #[inline(always)]
    fn add(&mut self, attr: Attr<'f>) -> Result<(), AllocError> {
        match self.attrs.push(attr) {
            Ok(()) => Ok(()),
            Err(_) => Err(AllocError),
        }
    }

    fn end(&mut self) -> Result<(), AllocError> {
        let stored = BatchHead {
            head: self.head,
            from: self.from,
            to: self.attrs.len(),
        };
        match self.heads.push(stored) {
            Ok(()) => Ok(()),
            Err(_) => Err(AllocError),
        }
    }

    ghost nothing = { λ x. nothing_taken x };

    ghost together = { λ x y z es fs p q. taken_together x y z es fs p q };
}
