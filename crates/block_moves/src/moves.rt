//! Helping with a move.
ghost use Rattle.std.specs.Prelude.{◌≡◌, ◌+◌, ◌*◌, ◌/◌, ◌<◌, ◌≤◌, ℕ, None, MatchBool, true};
ghost use Rattle.map_core.specs.Sizes.{cells_of};
ghost use Rattle.map_core.specs.History.{is_in};
ghost use Rattle.map_core.specs.Passes.{AtRest, PassFacts};
ghost use Rattle.map_core.specs.Places.{IsBlock, Within};
ghost use Rattle.map_cells.specs.Seen.{IsOf};
ghost use Rattle.map_cells.specs.Steps.{Rises};
ghost use Rattle.map_cells.specs.Walks.{Walks};
ghost use Rattle.block_moves.specs.Moved.{SeenFinished, IsFull, Helps};

use crate::blocks::move_block;
use map_cells::{Cells, Facts, Pass};

/// What came of helping.
#[derive(Clone, Copy, Debug, PartialEq, Eq)]
pub enum Helped {
    /// No move is due: by the count of entries the current generation is less than three quarters full, or it is the last.
    Nothing,
    /// The move that was due is made. This generation, the one above the one that was current, is current now, or a
    /// higher one.
    Switched { generation: u32 },
    /// A pair had no room in the table, which has as many entries as its capacity. The blocks moved so far stay moved.
    LastFull,
}

/// Moves blocks that nobody has taken, at most as many as the generation has.
fn move_taken<F: Facts>(cells: &Cells<F>, pass: &mut Pass<F>, generation: u32, blocks: u64) -> bool
    requires of { IsOf cells.now pass.old }
    requires below { generation < cells.now.layout.last }
    requires blocks { blocks ≡ cells_of generation / 64 }
    requires current { is_in generation pass.old.knows.currents ≡ true }
    requires free { pass.old.knows.claim ≡ None }
    ensures of { IsOf cells.now pass.new }
    ensures walk { Walks F.fits pass.old.knows pass.new.knows }
    ensures full { MatchBool result (Unit {0}) (IsFull pass.new.knows) }
{
    pass.recall();
    let mut taken = 0;
    while taken < blocks {
        let block = cells.take_block(pass, generation);
        if block >= blocks {
            return true;
        }
        if !move_block(cells, pass, generation, block) {
            return false;
        }
        taken += 1;
    }
    true
}

/// Moves a block, unless it is moved already.
fn move_unless_done<F: Facts>(
    cells: &Cells<F>,
    pass: &mut Pass<F>,
    generation: u32,
    block: u64,
) -> bool
    requires of { IsOf cells.now pass.old }
    requires block { IsBlock cells.now.layout generation block }
    requires below { generation < cells.now.layout.last }
    requires current { is_in generation pass.old.knows.currents ≡ true }
    requires free { pass.old.knows.claim ≡ None }
    ensures of { IsOf cells.now pass.new }
    ensures walk { Walks F.fits pass.old.knows pass.new.knows }
    ensures finished { MatchBool result
        (SeenFinished generation block pass.new.knows) (IsFull pass.new.knows) }
{
    if cells.block_done(pass, generation, block) {
        return true;
    }
    move_block(cells, pass, generation, block)
}

/// Goes over all blocks, and moves those that are not moved.
fn move_rest<F: Facts>(cells: &Cells<F>, pass: &mut Pass<F>, generation: u32, blocks: u64) -> bool
    requires of { IsOf cells.now pass.old }
    requires below { generation < cells.now.layout.last }
    requires blocks { blocks ≡ cells_of generation / 64 }
    requires current { is_in generation pass.old.knows.currents ≡ true }
    requires free { pass.old.knows.claim ≡ None }
    ensures of { IsOf cells.now pass.new }
    ensures walk { Walks F.fits pass.old.knows pass.new.knows }
    ensures finished { MatchBool result
        ((b : ℕ) → b < blocks → SeenFinished generation b pass.new.knows)
        (IsFull pass.new.knows) }
{
    pass.recall();
    let mut block = 0;
    while block < blocks {
        if !move_unless_done(cells, pass, generation, block) {
            return false;
        }
        block += 1;
    }
    true
}

/// Moves what is left of the current generation, and makes the next one current.
fn move_generation<F: Facts>(cells: &Cells<F>, pass: &mut Pass<F>, generation: u32) -> bool
    requires of { IsOf cells.now pass.old }
    requires below { generation < cells.now.layout.last }
    requires here { pass.old.knows.generation ≡ generation }
    requires current { is_in generation pass.old.knows.currents ≡ true }
    requires free { pass.old.knows.claim ≡ None }
    requires due { 3 * cells_of generation ≤ 4 * pass.old.knows.count_seen }
    ensures of { IsOf cells.now pass.new }
    ensures rises { Rises pass.old.knows pass.new.knows }
    ensures facts { PassFacts F.fits pass.new.knows }
    ensures moved { MatchBool result
        (generation + 1 ≤ pass.new.knows.generation) (IsFull pass.new.knows) }
{
    let blocks = cells.layout().cells(generation) / 64;
    if !move_taken(cells, pass, generation, blocks) {
        return false;
    }
    if !move_rest(cells, pass, generation, blocks) {
        return false;
    }
    cells.switch(pass, generation);
    true
}

/// Helps where the table's current generation is three quarters full and isn't the last: it moves what is left of it, and
/// makes the next generation current.
pub fn help<F: Facts>(cells: &Cells<F>, pass: &mut Pass<F>) -> Helped
    requires of { IsOf cells.now pass.old }
    requires rest { AtRest pass.old.knows }
    ensures of { IsOf cells.now pass.new }
    ensures table { pass.new.table ≡ pass.old.table }
    ensures rest { AtRest pass.new.knows }
    ensures rises { Rises pass.old.knows pass.new.knows }
    ensures facts { PassFacts F.fits pass.new.knows }
    ensures helps { Helps pass.old.knows pass.new.knows result }
{
    let generation = cells.current(pass);
    let count = cells.counted(pass);
    let layout = cells.layout();
    if generation == layout.last {
        return Helped::Nothing;
    }
    if 4 * count < 3 * layout.cells(generation) {
        return Helped::Nothing;
    }
    if move_generation(cells, pass, generation) {
        Helped::Switched {
            generation: generation + 1,
        }
    } else {
        Helped::LastFull
    }
}
