//! An entry's declaration, and what the asking leaves.

ghost use Rattle.std.specs.Prelude.{◌≡◌, ◌<◌, ◌≤◌, ◌^◌, length, OnOk, Contains};
ghost use Rattle.abbrev_decl.specs.Lookup.{IsSmallFound, Notes, PlacesAtMost, first_declaration, key};
ghost use Rattle.entry_tree.specs.Entries.{found_at};

use abbrev_decl::{Decl, Decls, FindFault, Steps};
use dw_fields::{Code, Fault};

/// The declaration of the entry at `place`, whose code isn't 0.
pub(crate) fn find_declaration<'f, D: Decls<'f>, L>(
    decls: &mut D,
    table: u32,
    code: u64,
    place: u64,
    steps: &mut Steps<L>,
) -> Result<Decl<'f>, Fault>
    requires inside { table ≤ length (D.section decls.old) }
    requires some { 0 < code }
    ensures answer { result ≡ found_at place (first_declaration (D.section decls.old) table code) }
    ensures follows { D.follows decls.old decls.new }
    ensures counted { D.counts decls.old table code steps.old steps.new }
    ensures never_less { steps.old ≤ steps.new }
    ensures placed { PlacesAtMost (D.placed decls.old) (D.placed decls.new) (key table code)
        (IsSmallFound code (first_declaration (D.section decls.old) table code)) }
    ensures noted { code < 2 ^ 32
        → OnOk result (Notes (D.seen decls.new) (D.spent decls.new) (key table code)) }
    ensures known { code < 2 ^ 32 → Contains (D.seen decls.old) (key table code)
        → steps.new ≡ steps.old }
{
    match decls.find(table, code, steps) {
        Ok(declaration) => Ok(declaration),
        Err(FindFault::CodeMissing) => Err(Fault::at(Code::CodeMissing, place)),
        Err(FindFault::Broken(fault)) => Err(fault),
    }
}
