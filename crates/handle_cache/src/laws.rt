//! What every entry of an opened file's table is.

ghost use Rattle.std.specs.Prelude.{◌≡◌, ℕ, Some};
ghost use Rattle.map_core.specs.History.{value_in};
ghost use Rattle.handle_cache.specs.Handles.{Belongs};
ghost use Rattle.handle_cache.specs.Scanned.{scanned};

use crate::facts::HandlePass;
use crate::handle::Handle;

impl<'f> Handle<'f> {
    /// Each entry of the table that a pass has seen is the one that scanning the file gives.
    ///
    /// This is a law, for proofs; the call does nothing.
    pub fn entries_are_scanned(&self, pass: &HandlePass<'f>)
        requires { Belongs self.now pass.now }
        ensures { (key value : ℕ) → value_in pass.now.knows.front key ≡ Some value
            → scanned self.now.file key ≡ Some value }
    {
        self.recall();
        pass.recall();
    }
}
