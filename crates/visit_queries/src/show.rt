//! Entries that are shown to a visitor, one after another.

ghost use Rattle.std.specs.Prelude.{◌≡◌, ℕ, List, map, OnOk};
ghost use Rattle.visit_queries.specs.Shown.{ShownEntry, met_shown, shown_entry};
ghost use Rattle.visit_queries.specs.Seen.{Shows};

use crate::visitor::{EntryView, Turn, Visitor};
use crate::walk_stop::WalkStop;

/// Shows the entries in order, up to and with the first that is answered `Enough`; answers the last
/// turn.
///
/// # Errors
/// Want of memory.
pub(crate) fn show<V: Visitor>(visitor: &mut V, entries: &[EntryView<'_>]) -> Result<Turn, WalkStop>
    ensures shown { Shows result (V.step visitor.old) (met_shown (map shown_entry entries.now))
        (V.state visitor.old) (V.state visitor.new) }
    ensures same_step { OnOk result ((e : ShownEntry) (s : List ℕ)
        → V.step visitor.new e s ≡ V.step visitor.old e s) }
    ensures same_text { OnOk result ((s : List ℕ) → V.text visitor.new s ≡ V.text visitor.old s) }
{
    for entry in entries {
        match visitor.see(*entry) {
            Ok(Turn::More) => {}
            Ok(Turn::Enough) => return Ok(Turn::Enough),
            Err(_) => return Err(WalkStop::OutOfMemory),
        }
    }
    Ok(Turn::More)
}
