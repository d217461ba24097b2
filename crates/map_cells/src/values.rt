//! Steps on a value word.
ghost use Rattle.std.specs.Prelude.{◌≡◌, ◌<◌, true};
ghost use Rattle.map_core.specs.History.{is_in};
ghost use Rattle.map_core.specs.Places.{IsCell, key_place};
ghost use Rattle.map_core.specs.Machine.{IsWord};
ghost use Rattle.map_core.specs.Passes.{look};
ghost use Rattle.map_cells.specs.Seen.{IsOf};
ghost use Rattle.map_cells.specs.Words.{value_number, IsProperValue};
ghost use Rattle.map_cells.specs.Steps.{MayPublish, ValueSeen, ValueTried, ValueSealed};

use crate::about::Facts;
use crate::cells::Cells;
use crate::pass::Pass;
use crate::places::value_word;
use crate::plays::{Publish, SealValue, ValueLoad};
use crate::words::ValueWord;
use map_core::Cell;

impl<F: Facts> Cells<F> {
    /// Loads the value word of a cell.
    pub fn value_at(&self, pass: &mut Pass<F>, cell: Cell) -> ValueWord
        requires of { IsOf self.now pass.old }
        requires cell { IsCell self.now.layout cell.generation cell.index }
        ensures of { IsOf self.now pass.new }
        ensures word { IsProperValue result }
        ensures seen { ValueSeen F.fits cell.generation cell.index (value_number result)
            pass.old.knows pass.new.knows }
    {
        let word = value_word(&self.layout, cell);
        let found = self.table.shared.load::<ValueLoad<F>>(&mut pass.seat, word);
        ValueWord::of(found)
    }

    /// Publishes a value in a cell whose key was seen, and answers the word before the step: `Unset` where this step
    /// made the change.
    pub fn publish(&self, pass: &mut Pass<F>, cell: Cell, key: u64, value: u64) -> ValueWord
        requires of { IsOf self.now pass.old }
        requires cell { IsCell self.now.layout cell.generation cell.index }
        requires key { IsWord key }
        requires value { IsWord value }
        requires seen { look pass.old.knows.known
            (key_place pass.old.knows.layout cell.generation cell.index) ≡ key }
        requires fits { MayPublish F.fits cell.generation key value pass.old.knows }
        ensures of { IsOf self.now pass.new }
        ensures word { IsProperValue result }
        ensures tried { ValueTried F.fits cell.generation cell.index key value (value_number result)
            pass.old.knows pass.new.knows }
    {
        let word = value_word(&self.layout, cell);
        let found = self
            .table
            .shared
            .compare_exchange::<Publish<F>>(&mut pass.seat, word, 0, value);
        ValueWord::of(found)
    }

    /// Closes an unset value word at a key that was seen, so that no value can be published there, and answers the
    /// word before the step: `Unset` where this step made the change. The cell's generation was seen current.
    pub fn seal_value(&self, pass: &mut Pass<F>, cell: Cell) -> ValueWord
        requires of { IsOf self.now pass.old }
        requires cell { IsCell self.now.layout cell.generation cell.index }
        requires below { cell.generation < self.now.layout.last }
        requires key { IsWord (look pass.old.knows.known
            (key_place pass.old.knows.layout cell.generation cell.index)) }
        requires current { is_in cell.generation pass.old.knows.currents ≡ true }
        ensures of { IsOf self.now pass.new }
        ensures word { IsProperValue result }
        ensures sealed { ValueSealed F.fits cell.generation cell.index (value_number result)
            pass.old.knows pass.new.knows }
    {
        let word = value_word(&self.layout, cell);
        let found = self
            .table
            .shared
            .compare_exchange::<SealValue<F>>(&mut pass.seat, word, 0, u64::MAX);
        ValueWord::of(found)
    }
}
