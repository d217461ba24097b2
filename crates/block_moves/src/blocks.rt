//! How the cells of a block are moved.
ghost use Rattle.std.specs.Prelude.{◌≡◌, ◌+◌, ◌<◌, ◌/◌, ℕ, None, IfSome, IfNone, MatchBool, true};
ghost use Rattle.map_core.specs.Sizes.{cells_of};
ghost use Rattle.map_core.specs.History.{is_in};
ghost use Rattle.map_core.specs.Places.{IsCell, IsBlock};
ghost use Rattle.map_cells.specs.Seen.{IsOf};
ghost use Rattle.map_cells.specs.Walks.{Walks};
ghost use Rattle.block_moves.specs.Moved.{HoldsWord, HoldsValue, IsSealed, IsClosedAt};
ghost use Rattle.block_moves.specs.Moved.{SeenMoved, SeenFinished, IsFull};

use map_cells::{Cell, Cells, Facts, KeyWord, Pass, Put, ValueWord};

/// The key of a cell, or that it has none and never will: an empty key word is sealed.
fn key_or_seal<F: Facts>(cells: &Cells<F>, pass: &mut Pass<F>, cell: Cell) -> Option<u64>
    requires of { IsOf cells.now pass.old }
    requires cell { IsCell cells.now.layout cell.generation cell.index }
    requires below { cell.generation < cells.now.layout.last }
    ensures of { IsOf cells.now pass.new }
    ensures walk { Walks F.fits pass.old.knows pass.new.knows }
    ensures some { IfSome result (λ k. HoldsWord cell.generation cell.index k pass.new.knows) }
    ensures none { IfNone result (IsSealed cell.generation cell.index pass.new.knows) }
{
    match cells.key_at(pass, cell) {
        KeyWord::Empty => match cells.seal_key(pass, cell) {
            KeyWord::Empty => None,
            KeyWord::Sealed => None,
            KeyWord::Key(key) => Some(key),
        },
        KeyWord::Sealed => None,
        KeyWord::Key(key) => Some(key),
    }
}

/// The value of a cell with a key, or that it has none and never will: an unset value word is closed.
fn value_or_seal<F: Facts>(
    cells: &Cells<F>,
    pass: &mut Pass<F>,
    cell: Cell,
    key: u64,
) -> Option<u64>
    requires of { IsOf cells.now pass.old }
    requires cell { IsCell cells.now.layout cell.generation cell.index }
    requires below { cell.generation < cells.now.layout.last }
    requires current { is_in cell.generation pass.old.knows.currents ≡ true }
    requires key { HoldsWord cell.generation cell.index key pass.old.knows }
    ensures of { IsOf cells.now pass.new }
    ensures walk { Walks F.fits pass.old.knows pass.new.knows }
    ensures key { HoldsWord cell.generation cell.index key pass.new.knows }
    ensures some { IfSome result (λ x. HoldsValue cell.generation cell.index x pass.new.knows) }
    ensures none { IfNone result (IsClosedAt cell.generation cell.index pass.new.knows) }
{
    match cells.value_at(pass, cell) {
        ValueWord::Unset => match cells.seal_value(pass, cell) {
            ValueWord::Unset => None,
            ValueWord::Closed => None,
            ValueWord::Value(value) => Some(value),
        },
        ValueWord::Closed => None,
        ValueWord::Value(value) => Some(value),
    }
}

/// Puts the pair of a cell into the next generation. It answers false where there is no room for it in the table.
fn carry<F: Facts>(cells: &Cells<F>, pass: &mut Pass<F>, cell: Cell, key: u64, value: u64) -> bool
    requires of { IsOf cells.now pass.old }
    requires cell { IsCell cells.now.layout cell.generation cell.index }
    requires below { cell.generation < cells.now.layout.last }
    requires current { is_in cell.generation pass.old.knows.currents ≡ true }
    requires free { pass.old.knows.claim ≡ None }
    requires key { HoldsWord cell.generation cell.index key pass.old.knows }
    requires value { HoldsValue cell.generation cell.index value pass.old.knows }
    ensures of { IsOf cells.now pass.new }
    ensures walk { Walks F.fits pass.old.knows pass.new.knows }
    ensures moved { MatchBool result
        (SeenMoved cell.generation cell.index pass.new.knows) (IsFull pass.new.knows) }
{
    match cells.put_from(pass, cell.generation + 1, key, value) {
        Put::Placed => true,
        Put::Found(_found) => true,
        Put::Exhausted => false,
    }
}

/// Moves one cell of the current generation. It answers false where there is no room for its pair.
fn move_cell<F: Facts>(cells: &Cells<F>, pass: &mut Pass<F>, cell: Cell) -> bool
    requires of { IsOf cells.now pass.old }
    requires cell { IsCell cells.now.layout cell.generation cell.index }
    requires below { cell.generation < cells.now.layout.last }
    requires current { is_in cell.generation pass.old.knows.currents ≡ true }
    requires free { pass.old.knows.claim ≡ None }
    ensures of { IsOf cells.now pass.new }
    ensures walk { Walks F.fits pass.old.knows pass.new.knows }
    ensures moved { MatchBool result
        (SeenMoved cell.generation cell.index pass.new.knows) (IsFull pass.new.knows) }
{
    match key_or_seal(cells, pass, cell) {
        None => true,
        Some(key) => match value_or_seal(cells, pass, cell, key) {
            None => true,
            Some(value) => carry(cells, pass, cell, key, value),
        },
    }
}

/// Moves a block of the current generation, and marks it as moved. It answers false where there is no room for one of its
/// pairs.
pub fn move_block<F: Facts>(
    cells: &Cells<F>,
    pass: &mut Pass<F>,
    generation: u32,
    block: u64,
) -> bool
    requires of { IsOf cells.now pass.old }
    requires block { IsBlock cells.now.layout generation block }
    requires below { generation < cells.now.layout.last }
    requires current { is_in generation pass.old.knows.currents ≡ true }
    requires free { pass.old.knows.claim ≡ None }
    ensures of { IsOf cells.now pass.new }
    ensures walk { Walks F.fits pass.old.knows pass.new.knows }
    ensures finished { MatchBool result
        (SeenFinished generation block pass.new.knows) (IsFull pass.new.knows) }
{
    pass.recall();
    let start = 64 * block;
    let mut step = 0;
    while step < 64 {
        let index = start + step;
        if !move_cell(cells, pass, Cell { generation, index }) {
            return false;
        }
        step += 1;
    }
    cells.finish(pass, generation, block);
    true
}
