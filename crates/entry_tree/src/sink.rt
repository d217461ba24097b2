//! What takes the entries of a unit as they are read.

ghost use Rattle.std.specs.Prelude.{◌≡◌, ◌++◌, ◌∷◌, [], List, OnOk};
ghost use Rattle.entry_tree.specs.Views.{EntryView, attr_view};
ghost use Rattle.entry_tree.specs.Taken.{begun, with_attr};

use crate::entry::{Attr, EntryHead};
use std::alloc::AllocError;

/// Takes entries one after another as they are read, and of each its attributes one by one, so that they need
/// not lie in memory.
///
/// Its meanings: `took` says which entries it took between two of its states; `began` says that between them
/// it took nothing whole, but began an entry, with these attributes so far.
///
/// The laws say that between a state and itself nothing was taken, and that what was taken one after the other was
/// taken together.
pub trait EntrySink<'f> {
    ghost took: { Self → Self → List EntryView → Type 0 };

    ghost began: { Self → Self → EntryView → Type 0 };

    /// Takes the head of the next entry, for so many attributes at most; that number is a matter of speed
    /// alone.
    ///
    /// # Errors
    /// Want of memory.
    fn begin(&mut self, head: EntryHead, room: usize) -> Result<(), AllocError>
        ensures { OnOk result (began self.old self.new (begun head)) };

    /// Takes the next attribute of the entry that was begun.
    ///
    /// # Errors
    /// Want of memory.
    fn add(&mut self, attr: Attr<'f>) -> Result<(), AllocError>
        ensures { OnOk result ((x : Self) (e : EntryView) → began x self.old e
            → began x self.new (with_attr e (attr_view attr.entry))) };

    /// Ends the entry that was begun.
    ///
    /// # Errors
    /// Want of memory.
    fn end(&mut self) -> Result<(), AllocError>
        ensures { OnOk result ((x : Self) (e : EntryView) → began x self.old e
            → took x self.new (e ∷ [])) };

    ghost nothing: { (x : Self) → took x x [] };

    ghost together: { (x y z : Self) (es fs : List EntryView) → took x y es → took y z fs
        → took x z (es ++ fs) };
}
