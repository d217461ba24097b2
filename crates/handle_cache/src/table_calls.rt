//! What a reader asks of the table, and what it puts there.

ghost use Rattle.std.specs.Prelude.{◌≡◌, Some, IfSome, IsSome, Contains};
ghost use Rattle.abbrev_decl.specs.Lookup.{Notes, PlacesAtMost};
ghost use Rattle.map_core.specs.Machine.{IsWord};
ghost use Rattle.map_cells.specs.Seen.{Follows};
ghost use Rattle.handle_cache.specs.Handles.{Belongs, front_keys, is_spent, own_keys};
ghost use Rattle.handle_cache.specs.Scanned.{FitsFile};

use crate::facts::HandlePass;
use crate::handle::Handle;

impl<'f> Handle<'f> {
    /// The value of a key, if the table has one: it is the one that scanning the file gives.
    pub(crate) fn find_value(&self, pass: &mut HandlePass<'f>, key: u64) -> Option<u64>
        requires belongs { Belongs self.now pass.old }
        requires key { IsWord key }
        ensures belongs { Belongs self.now pass.new }
        ensures follows { Follows pass.old pass.new }
        ensures own { own_keys pass.new ≡ own_keys pass.old }
        ensures value { IfSome result (FitsFile self.now.file key) }
        ensures held { IfSome result (λ v. Contains (front_keys pass.new) key) }
        ensures kept { Contains (front_keys pass.old) key → IsSome result }
    {
        self.table.find(pass, key)
    }

    /// Puts the value of a key into the table, unless it has one. A table without room stays as it is.
    pub(crate) fn keep_value(&self, pass: &mut HandlePass<'f>, key: u64, value: u64)
        requires belongs { Belongs self.now pass.old }
        requires key { IsWord key }
        requires word { IsWord value }
        requires value { FitsFile self.now.file key value }
        ensures belongs { Belongs self.now pass.new }
        ensures follows { Follows pass.old pass.new }
        ensures noted { Notes (front_keys pass.new) (is_spent pass.new) key }
        ensures placed { PlacesAtMost (own_keys pass.old) (own_keys pass.new) key
            (FitsFile self.now.file key value) }
    {
        let _ = self.table.insert(pass, key, value);
    }
}
