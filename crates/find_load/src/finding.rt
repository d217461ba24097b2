//! Finds, and what they answered.

ghost use Rattle.handle_cache.specs.Handles.{Belongs};

use abbrev_decl::{Decls, Steps};
use handle_cache::{Cached, Handle, HandlePass};

/// How many finds answered a declaration and how many did not, and the sum of the declarations' places.
#[derive(Clone, Copy)]
pub(crate) struct Tally {
    pub found: u64,
    pub missing: u64,
    pub places: u64,
}

impl Tally {
    pub fn new() -> Tally {
        Tally {
            found: 0,
            missing: 0,
            places: 0,
        }
    }

    #[inline]
    fn note(&mut self, place: Option<u64>) {
        match place {
            Some(place) => {
                self.found = self.found.wrapping_add(1);
                self.places = self.places.wrapping_add(place);
            }
            None => self.missing = self.missing.wrapping_add(1),
        }
    }
}

/// The place of the first declaration of a code that isn't 0, from a place of `.debug_abbrev` on.
#[inline]
fn find_place<'f>(
    handle: &Handle<'f>,
    pass: &mut HandlePass<'f>,
    table: u32,
    code: u64,
    steps: &mut Steps<()>,
) -> Option<u64>
    requires { Belongs handle.now pass.old }
    ensures { Belongs handle.now pass.new }
{
    if table as usize > handle.sections().abbrev.len() || code == 0 {
        return None;
    }
    let mut cached = Cached { handle, pass };
    match cached.find(table, code, steps) {
        Ok(declaration) => Some(declaration.place()),
        Err(_) => None,
    }
}

/// Finds the codes from 1 to `declarations` of a table.
fn find_table<'f>(
    handle: &Handle<'f>,
    pass: &mut HandlePass<'f>,
    table: u32,
    declarations: u32,
    steps: &mut Steps<()>,
    tally: &mut Tally,
)
    requires { Belongs handle.now pass.old }
    ensures { Belongs handle.now pass.new }
{
    for before in 0..declarations {
        let code = u64::from(before) + 1;
        let place = find_place(handle, pass, table, code, steps);
        tally.note(place);
    }
}

/// Finds the codes from 1 to `declarations` of each table.
pub(crate) fn find_all<'f>(
    handle: &Handle<'f>,
    pass: &mut HandlePass<'f>,
    tables: &[u32],
    declarations: u32,
    steps: &mut Steps<()>,
    tally: &mut Tally,
)
    requires { Belongs handle.now pass.old }
    ensures { Belongs handle.now pass.new }
{
    for table in tables {
        find_table(handle, pass, *table, declarations, steps, tally);
    }
}
