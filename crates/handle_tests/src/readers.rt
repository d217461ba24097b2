//! What a test asks of an opened file, and what it then compares.
ghost use Rattle.std.specs.Prelude.{◌<◌, ◌≤◌, length};
ghost use Rattle.map_cells.specs.Seen.{Follows};
ghost use Rattle.handle_cache.specs.Handles.{Belongs, sections_in};

use abbrev_decl::{Decls, FindFault, Steps};
use form_values::UnitFacts;
use handle_cache::{Cached, Handle, HandlePass};
use std::process::Abort;

/// The place of the first declaration with this code, from this place on.
pub(crate) fn find_place<'f>(
    handle: &Handle<'f>,
    pass: &mut HandlePass<'f>,
    table: u32,
    code: u64,
    steps: &mut Steps<()>,
) -> Result<u64, FindFault>
    requires ready { Belongs handle.now pass.old }
    requires inside { table ≤ length (sections_in handle.now).«abbrev» }
    requires some { 0 < code }
    ensures ready { Belongs handle.now pass.new }
    ensures follows { Follows pass.old pass.new }
{
    let mut cached = Cached { handle, pass };
    match cached.find(table, code, steps) {
        Ok(declaration) => Ok(declaration.place()),
        Err(fault) => Err(fault),
    }
}

/// Compares how many steps were counted, and how many entries the pass has placed.
fn check_counts<'f, R: Abort>(
    rt: &R,
    handle: &Handle<'f>,
    pass: &HandlePass<'f>,
    steps: &Steps<()>,
    wanted: (u64, u64),
)
    requires { Belongs handle.now pass.now }
{
    handle.entries_are_scanned(pass);
    assert_eq!(rt; (steps.count(), pass.placed()), wanted);
}

/// Finds a code of the first table. Compares its place, the steps, and the entries placed.
pub(crate) fn check_find<'f, R: Abort>(
    rt: &R,
    handle: &Handle<'f>,
    pass: &mut HandlePass<'f>,
    code: u64,
    steps: &mut Steps<()>,
    place: Result<u64, FindFault>,
    counts: (u64, u64),
)
    requires ready { Belongs handle.now pass.old }
    requires some { 0 < code }
    ensures { Belongs handle.now pass.new }
{
    let found = find_place(handle, pass, 0, code, steps);
    assert_eq!(rt; found, place);
    check_counts(rt, handle, pass, steps, counts);
}

/// Asks for the facts of the first unit. Compares them, the steps, and the entries placed.
pub(crate) fn check_unit<'f, R: Abort>(
    rt: &R,
    handle: &Handle<'f>,
    pass: &mut HandlePass<'f>,
    steps: &mut Steps<()>,
    wanted: UnitFacts,
    counts: (u64, u64),
)
    requires { Belongs handle.now pass.old }
    ensures { Belongs handle.now pass.new }
{
    assert!(rt; 0 < handle.index().count());
    let facts = handle.unit(pass, 0, steps);
    assert_eq!(rt; facts, Ok(wanted));
    check_counts(rt, handle, pass, steps, counts);
}
