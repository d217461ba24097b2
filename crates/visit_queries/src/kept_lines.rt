//! The lines that a visitor keeps, up to a limit.

ghost use Rattle.std.specs.Prelude.{◌≡◌, ◌<◌, [], ◌∷◌, IfOk};
ghost use Rattle.dw_text.specs.Added.{Adds};
ghost use Rattle.visit_queries.specs.Kept.{keep_entry, keep_named, kept_line, kept_text, lines_state, turn_at};
ghost use Rattle.visit_queries.specs.Seen.{Reports};
ghost use Rattle.visit_queries.specs.Shown.{shown_entry};

use crate::visitor::{EntryView, Turn};
use dw_text::{push_escaped_after, push_hex_after, push_text};
use std::alloc::{AllocError, Global};

/// A line for each entry that was kept, and how many more may be kept.
#[derive(Drop)]
pub(crate) struct KeptLines {
    pub left: u64,
    pub text: Vec<u8>,
}

/// Appends the line of an entry.
#[tactic(auto, unfolding(crate::specs::Kept::kept_line))]
fn push_line(out: &mut Vec<u8>, place: u64, name: &[u8]) -> Result<(), AllocError>
    ensures { Adds result out.old.items out.new.items (kept_line place name.now) }
{
    push_hex_after(out, b"0x", place)?;
    push_escaped_after(out, b" ", name)?;
    push_text(out, b"\n")?;
    Ok(())
}

/// Enough where nothing is left of the limit.
fn turn_at(left: u64) -> Turn
    ensures { result ≡ turn_at left }
{
    if left == 0 { Turn::Enough } else { Turn::More }
}

impl KeptLines {
    /// No lines, of which this many may be kept.
    pub(crate) fn new(alloc: Global, limit: u64) -> KeptLines
        ensures { lines_state result ≡ limit ∷ [] }
    {
        KeptLines {
            left: limit,
            text: Vec::new(alloc),
        }
    }

    /// Keeps the line of an entry that is wanted and has a name, where the limit leaves one.
    #[tactic(auto, unfolding(crate::specs::Kept::keep_entry))]
    pub(crate) fn see(&mut self, wanted: bool, entry: EntryView<'_>) -> Result<Turn, AllocError>
        ensures { IfOk result (λ turn. keep_entry wanted (shown_entry entry.entry)
            (lines_state self.old) ≡ (lines_state self.new, turn)) }
    {
        if self.left == 0 {
            return Ok(Turn::Enough);
        }
        match entry.name {
            Some(name) if wanted => self.keep(entry.place, name),
            _ => Ok(Turn::More),
        }
    }

    /// Keeps the line of an entry.
    fn keep(&mut self, place: u64, name: &[u8]) -> Result<Turn, AllocError>
        requires { 0 < self.old.left }
        ensures { IfOk result (λ turn. keep_named place (Some name.now) self.old.left
            self.old.text.items ≡ (lines_state self.new, turn)) }
    {
        push_line(&mut self.text, place, name)?;
        self.left -= 1;
        Ok(turn_at(self.left))
    }

    /// Appends the lines.
    pub(crate) fn report(&self, out: &mut Vec<u8>) -> Result<(), AllocError>
        ensures { Reports result out.old.items out.new.items (kept_text (lines_state self.now)) }
    {
        out.extend_from_slice(self.text.as_slice())
    }
}
