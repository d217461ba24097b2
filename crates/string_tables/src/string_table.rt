//! A string table with the ends of its texts (gABI chapter 4, "String Table").

ghost use Rattle.std.specs.Prelude.{◌≡◌, ◌≤◌, ◌<◌, ℕ, length, option_map, IfOk};
ghost use Rattle.string_tables.specs.StringTables.{end_from, ends_of, text_in_table};

use crate::search::first_zero;
use std::alloc::{AllocError, Global};
use std::marker::Model;

/// The bytes of a block.
const BLOCK: usize = 128;

/// The bytes of a string table, and where the texts end that stand at the ends of its blocks.
///
/// A file may name any place, and many times places of one long text. With the ends kept, a text
/// costs a walk over one block at most, so that the work grows no faster than the file. The table
/// costs one walk over all of its bytes, and 8 bytes of memory for each block of 128.
#[derive(Drop)]
pub struct StringTable<'f> {
    bytes: &'f [u8],
    /// For the end of each whole block, the place of the next zero byte, or the table's length.
    ends: Vec<usize>,
}

impl<'f> Model for StringTable<'f> {
    ghost use Rattle.std.specs.Prelude.{◌≡◌, List, ℕ};
    ghost use Rattle.string_tables.specs.StringTables.{ends_of};

    ghost Value = { List ℕ };

    ghost view = { λ t. t.bytes.now };

    ghost invariant = { λ t. t.ends.items ≡ ends_of t.bytes.now };
}

impl<'f> StringTable<'f> {
    /// The table of these bytes, which are walked over once.
    ///
    /// # Errors
    /// Only want of memory for the ends.
    pub fn new(alloc: Global, bytes: &'f [u8]) -> Result<StringTable<'f>, AllocError>
        ensures { IfOk result (λ t. t ≡ bytes.entry.now) }
    {
        let ends = ends_of(alloc, bytes)?;
        Ok(StringTable { bytes, ends })
    }

    /// The length of the table in bytes.
    #[inline]
    pub fn len(&self) -> usize
        ensures { result ≡ length self.now }
    {
        self.bytes.len()
    }

    /// The text that begins at a place, without the zero byte that ends it: none at or past the
    /// table's end, or where no zero byte follows.
    #[tactic(auto, unfolding(crate::specs::StringTables::text_in_table))]
    pub fn text_at(&self, place: usize) -> Option<&'f [u8]>
        ensures { option_map (λ b. b.now) result ≡ text_in_table self.now place }
    {
        if place >= self.bytes.len() {
            return None;
        }
        let end = self.end_of(place);
        if end == self.bytes.len() {
            return None;
        }
        Some(&self.bytes[place..end])
    }

    /// Where the text at a place ends: at the next zero byte, or at the table's end.
    fn end_of(&self, place: usize) -> usize
        requires { place < length self.now }
        ensures end { result ≡ end_from self.now place }
        ensures least { place ≤ result }
        ensures most { result ≤ length self.now }
    {
        let near = (self.bytes.len() - place).min(BLOCK - place % BLOCK);
        match first_zero(&self.bytes[place..place + near]) {
            Some(count) => place + count,
            None => match self.ends.get(place / BLOCK) {
                Some(end) => *end,
                None => self.bytes.len(),
            },
        }
    }
}

/// Where the text at a place ends, by a walk over all of it.
fn end_from(bytes: &[u8], place: usize) -> usize
    requires { place ≤ length bytes.now }
    ensures { result ≡ end_from bytes.now place }
{
    match first_zero(&bytes[place..]) {
        Some(count) => place + count,
        None => bytes.len(),
    }
}

/// The same, from the end of a text that stands before the place: where that is at or behind the
/// place, it is the end of the text there too.
fn next_end(bytes: &[u8], end: usize, place: usize) -> usize
    requires { place ≤ length bytes.now }
    ensures { (start : ℕ) → start ≤ place → end ≡ end_from bytes.now start → result
        ≡ end_from bytes.now place }
{
    if end < place {
        end_from(bytes, place)
    } else {
        end
    }
}

/// Where the texts end that stand at the ends of the blocks.
#[tactic(auto, unfolding(crate::specs::StringTables::ends_of))]
fn ends_of(alloc: Global, bytes: &[u8]) -> Result<Vec<usize>, AllocError>
    ensures { IfOk result (λ v. v.items ≡ ends_of bytes.now) }
{
    let blocks = bytes.len() / BLOCK;
    let mut ends = Vec::with_capacity(alloc, blocks)?;
    let mut end = end_from(bytes, 0);
    for block in 1..blocks + 1 {
        end = next_end(bytes, end, block * BLOCK);
        ends.push(end)?;
    }
    Ok(ends)
}
