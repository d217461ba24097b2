//! The first entry's code.

ghost use Rattle.std.specs.Prelude.{◌≡◌, ◌<◌, ◌≤◌, IfOk, IfSome};
ghost use Rattle.dw_fields.specs.Span.{at};
ghost use Rattle.entry_tree.specs.Entries.{first_code_in};

use dw_fields::{Cut, Fault};

/// The code of a unit's root: its first code that isn't 0 (DWARF 5 section 7.5.2).
#[derive(Clone, Copy, Debug)]
pub struct RootCode {
    /// Its place in `.debug_info`, which is the root's.
    pub place: u64,
    /// The code.
    pub code: u64,
    /// The place behind it.
    pub next: u64,
}

/// The first code that isn't 0; the cut then stands behind it.
#[tactic(auto, unfolding(crate::specs::Entries::first_code_in))]
pub(crate) fn first_code(cut: &mut Cut<'_>) -> Result<Option<RootCode>, Fault>
    ensures first { result ≡ first_code_in cut.old }
    ensures behind { IfOk result (λ found. IfSome found (λ root.
        (cut.new ≡ at cut.old root.next) × (0 < root.code))) }
{
    let turns = cut.left();
    'zeros: for _turn in 0..turns {
        if cut.left() == 0 {
            return Ok(None);
        }
        let place = cut.place();
        let code = cut.uleb()?;
        if code != 0 {
            return Ok(Some(RootCode {
                place,
                code,
                next: cut.place(),
            }));
        }
    }
    Ok(None)
}
