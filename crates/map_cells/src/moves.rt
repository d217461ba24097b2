//! Steps on the words of moves: which generation is current, which blocks of it were taken, and which are moved.
ghost use Rattle.std.specs.Prelude.{◌≡◌, ◌↔◌, ◌+◌, ◌*◌, ◌/◌, ◌<◌, ◌≤◌, ◌==◌, ℕ, IsTrue, if◌then◌else◌};
ghost use Rattle.map_core.specs.Sizes.{cells_of};
ghost use Rattle.map_core.specs.Places.{finish_place, Within, IsBlock};
ghost use Rattle.map_core.specs.Machine.{BlockMoved};
ghost use Rattle.map_core.specs.Passes.{look};
ghost use Rattle.map_cells.specs.Seen.{IsOf};
ghost use Rattle.map_cells.specs.Steps.{LeavesClaim, CurrentSeen, BlockTaken, BlockFinished, Switched};

use crate::about::Facts;
use crate::cells::Cells;
use crate::pass::Pass;
use crate::places::{finish_word, take_word};
use crate::plays::{BlockLoad, CurrentLoad, FinishBlock, Switch, TakeBlock};
use map_core::CURRENT_WORD;

/// The generation that is current after an exchange that found another one in its place, or made the next one current.
fn after_exchange(found: u64, generation: u32) -> u32
    requires found { found ≤ 17 }
    requires generation { generation ≤ 17 }
    ensures { result ≡ (if found == generation then generation + 1 else found) }
{
    if found == generation as u64 {
        generation + 1
    } else {
        found as u32
    }
}

impl<F: Facts> Cells<F> {
    /// Loads which generation is current. The pass is then in that generation.
    pub fn current(&self, pass: &mut Pass<F>) -> u32
        requires { IsOf self.now pass.old }
        ensures of { IsOf self.now pass.new }
        ensures table { pass.new.table ≡ pass.old.table }
        ensures seen { CurrentSeen F.fits result pass.old.knows pass.new.knows }
    {
        let found = self
            .table
            .shared
            .load::<CurrentLoad<F>>(&mut pass.seat, CURRENT_WORD);
        let generation = found as u32;
        pass.generation = generation;
        generation
    }

    /// Loads whether a block of 64 cells is moved.
    pub fn block_done(&self, pass: &mut Pass<F>, generation: u32, block: u64) -> bool
        requires of { IsOf self.now pass.old }
        requires block { IsBlock self.now.layout generation block }
        ensures of { IsOf self.now pass.new }
        ensures table { pass.new.table ≡ pass.old.table }
        ensures leaves { LeavesClaim F.fits pass.old.knows pass.new.knows }
        ensures done { IsTrue result ↔ (look pass.new.knows.known
            (finish_place pass.new.knows.layout generation block) ≡ 1) }
    {
        let word = finish_word(&self.layout, generation, block);
        let found = self.table.shared.load::<BlockLoad<F>>(&mut pass.seat, word);
        found == 1
    }

    /// Takes the next block of a generation to move it, and answers its number. The numbers go on behind the last
    /// block, and wrap.
    pub fn take_block(&self, pass: &mut Pass<F>, generation: u32) -> u64
        requires of { IsOf self.now pass.old }
        requires generation { Within self.now.layout generation }
        ensures of { IsOf self.now pass.new }
        ensures table { pass.new.table ≡ pass.old.table }
        ensures taken { BlockTaken F.fits generation pass.old.knows pass.new.knows }
    {
        let word = take_word(&self.layout, generation);
        self.table
            .shared
            .fetch_add::<TakeBlock<F>>(&mut pass.seat, word, 1)
    }

    /// Marks a block as moved, each of whose cells was seen moved.
    pub fn finish(&self, pass: &mut Pass<F>, generation: u32, block: u64)
        requires of { IsOf self.now pass.old }
        requires block { IsBlock self.now.layout generation block }
        requires moved { BlockMoved pass.old.knows.layout (look pass.old.knows.known)
            generation block }
        ensures of { IsOf self.now pass.new }
        ensures table { pass.new.table ≡ pass.old.table }
        ensures finished { BlockFinished F.fits generation block pass.old.knows pass.new.knows }
    {
        let word = finish_word(&self.layout, generation, block);
        self.table
            .shared
            .compare_exchange::<FinishBlock<F>>(&mut pass.seat, word, 0, 1);
    }

    /// Makes the next generation current, where this one is and each of its blocks was seen moved, and answers which
    /// generation is current afterwards. The pass is then in that generation.
    pub fn switch(&self, pass: &mut Pass<F>, generation: u32) -> u32
        requires of { IsOf self.now pass.old }
        requires generation { Within self.now.layout generation }
        requires finished { (b : ℕ) → b < cells_of generation / 64
            → look pass.old.knows.known (finish_place pass.old.knows.layout generation b) ≡ 1 }
        requires full { 3 * cells_of generation ≤ 4 * pass.old.knows.count_seen }
        ensures of { IsOf self.now pass.new }
        ensures table { pass.new.table ≡ pass.old.table }
        ensures switched { Switched F.fits generation result pass.old.knows pass.new.knows }
    {
        let old = generation as u64;
        let found = self
            .table
            .shared
            .compare_exchange::<Switch<F>>(&mut pass.seat, CURRENT_WORD, old, old + 1);
        let current = after_exchange(found, generation);
        pass.generation = current;
        current
    }
}
