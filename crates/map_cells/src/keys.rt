//! Steps on a key word.
ghost use Rattle.std.specs.Prelude.{◌≡◌, ◌<◌, None};
ghost use Rattle.map_core.specs.Places.{IsCell};
ghost use Rattle.map_core.specs.Machine.{IsWord, Reaches};
ghost use Rattle.map_core.specs.Passes.{look};
ghost use Rattle.map_cells.specs.Seen.{IsOf};
ghost use Rattle.map_cells.specs.Words.{key_number, IsProperKey};
ghost use Rattle.map_cells.specs.Steps.{SettledTo, KeySeen, KeyTried, KeySealed};

use crate::about::Facts;
use crate::cells::Cells;
use crate::pass::Pass;
use crate::places::key_word;
use crate::plays::{Claim, KeyLoad, SealKey};
use crate::words::KeyWord;
use map_core::Cell;

impl<F: Facts> Cells<F> {
    /// Loads the key word of a cell.
    pub fn key_at(&self, pass: &mut Pass<F>, cell: Cell) -> KeyWord
        requires of { IsOf self.now pass.old }
        requires cell { IsCell self.now.layout cell.generation cell.index }
        ensures of { IsOf self.now pass.new }
        ensures word { IsProperKey result }
        ensures seen { KeySeen F.fits cell.generation cell.index (key_number result)
            pass.old.knows pass.new.knows }
    {
        let word = key_word(&self.layout, cell);
        let found = self.table.shared.load::<KeyLoad<F>>(&mut pass.seat, word);
        KeyWord::of(found)
    }

    /// Claims an empty cell for a key, and answers the word before the step: `Empty` where this step made the change.
    pub fn claim(&self, pass: &mut Pass<F>, cell: Cell, key: u64) -> KeyWord
        requires of { IsOf self.now pass.old }
        requires cell { IsCell self.now.layout cell.generation cell.index }
        requires key { IsWord key }
        requires free { pass.old.knows.claim ≡ None }
        requires reached { Reaches pass.old.knows.layout (look pass.old.knows.known)
            cell.generation cell.index key }
        requires settled { SettledTo pass.old.knows cell.generation key }
        ensures of { IsOf self.now pass.new }
        ensures word { IsProperKey result }
        ensures tried { KeyTried F.fits cell.generation cell.index key (key_number result)
            pass.old.knows pass.new.knows }
    {
        let word = key_word(&self.layout, cell);
        let before = self
            .table
            .shared
            .compare_exchange::<Claim<F>>(&mut pass.seat, word, 0, key);
        KeyWord::of(before)
    }

    /// Seals an empty key word, so that no key can be claimed there, and answers the word before the step: `Empty`
    /// where this step made the change.
    pub fn seal_key(&self, pass: &mut Pass<F>, cell: Cell) -> KeyWord
        requires of { IsOf self.now pass.old }
        requires cell { IsCell self.now.layout cell.generation cell.index }
        requires below { cell.generation < self.now.layout.last }
        ensures of { IsOf self.now pass.new }
        ensures word { IsProperKey result }
        ensures sealed { KeySealed F.fits cell.generation cell.index (key_number result)
            pass.old.knows pass.new.knows }
    {
        let word = key_word(&self.layout, cell);
        let old = self
            .table
            .shared
            .compare_exchange::<SealKey<F>>(&mut pass.seat, word, 0, u64::MAX);
        KeyWord::of(old)
    }
}
