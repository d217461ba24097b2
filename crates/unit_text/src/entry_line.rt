//! The line of an entry: its place, its depth and its tag.

ghost use Rattle.std.specs.Prelude.{◌≡◌, []};
ghost use Rattle.dw_text.specs.Added.{Adds};
ghost use Rattle.entry_tree.specs.Views.{entry_view};
ghost use Rattle.unit_text.specs.Units.{entry_line};

use dw_names::prepend_tag_after;
use dw_text::{LineBuffer, push_text};
use entry_tree::Entry;
use std::alloc::AllocError;

/// Prepends the pieces of an entry's line, from the last to the first.
#[tactic(auto, unfolding(crate::specs::Units::entry_line))]
fn prepend_entry(line: &mut LineBuffer, entry: &Entry<'_>)
    requires { line.old ≡ [] }
    ensures { line.new ≡ entry_line (entry_view entry.now) }
{
    line.prepend_text(b"\n");
    prepend_tag_after(line, b" ", entry.tag);
    line.prepend_decimal_after(b"] ", u64::from(entry.depth));
    line.prepend_hex_after(b"[0x", entry.place);
}

/// Appends the line of an entry, which is made in `line`.
#[inline(always)]
pub(crate) fn push_entry_line(
    out: &mut Vec<u8>,
    line: &mut LineBuffer,
    entry: &Entry<'_>,
) -> Result<(), AllocError>
    ensures { Adds result out.old.items out.new.items (entry_line (entry_view entry.now)) }
{
    line.clear();
    prepend_entry(line, entry);
    push_text(out, line.text())
}
