//! Where the words lie in a table, and how a key walks through the cells.
ghost use Rattle.std.specs.Prelude.{◌≡◌, ◌+◌, ◌<◌, ◌≤◌, ◌==◌, MatchBool};
ghost use Rattle.map_core.specs.Sizes.{cells_of};
ghost use Rattle.map_core.specs.Places.{Within, IsCell, IsBlock, home, key_place, value_place};
ghost use Rattle.map_core.specs.Places.{finish_place, take_word, offset, word_count};

use map_core::{Cell, FIRST_CELL_WORD, FIRST_TAKE_WORD, HASH_MULTIPLIER, Layout};

/// How many cells lie below a generation.
fn cells_below(generation: u32) -> usize
    requires { generation ≤ 18 }
    ensures cells { result + 64 ≡ cells_of generation }
    ensures small { result ≤ 16777152 }
{
    (64usize << generation) - 64
}

/// How many words a table of these sizes has.
pub(crate) fn count_words(layout: &Layout) -> usize
    ensures { result ≡ word_count layout.now }
{
    let cells = cells_below(layout.last + 1);
    2 * cells + cells / 64 + FIRST_CELL_WORD
}

/// The index of a generation's take word.
pub(crate) fn take_word(layout: &Layout, generation: u32) -> usize
    requires { Within layout.now generation }
    ensures place { result ≡ take_word generation }
    ensures within { result < word_count layout.now }
{
    // the proof needs the layout's facts, which a look at it brings
    let _ = layout;
    FIRST_TAKE_WORD + generation as usize
}

/// The index of a block's finish word.
pub(crate) fn finish_word(layout: &Layout, generation: u32, block: u64) -> usize
    requires { IsBlock layout.now generation block }
    ensures place { result ≡ finish_place layout.now generation block + offset layout.now }
    ensures within { result < word_count layout.now }
{
    let blocks_below = cells_below(generation) / 64;
    2 * cells_below(layout.last + 1) + (blocks_below + block as usize) + FIRST_CELL_WORD
}

/// The index of a cell's key word.
pub(crate) fn key_word(layout: &Layout, cell: Cell) -> usize
    requires { IsCell layout.now cell.generation cell.index }
    ensures place { result ≡ key_place layout.now cell.generation cell.index + offset layout.now }
    ensures within { result < word_count layout.now }
{
    let _ = layout;
    2 * (cells_below(cell.generation) + cell.index as usize) + FIRST_CELL_WORD
}

/// The index of a cell's value word.
pub(crate) fn value_word(layout: &Layout, cell: Cell) -> usize
    requires { IsCell layout.now cell.generation cell.index }
    ensures place { result ≡ value_place layout.now cell.generation cell.index + offset layout.now }
    ensures within { result < word_count layout.now }
{
    key_word(layout, cell) + 1
}

/// The home cell of a key: the top bits of its product with a constant.
pub(crate) fn home(generation: u32, key: u64) -> u64
    requires { generation ≤ 17 }
    ensures { result ≡ home generation key }
{
    key.wrapping_mul(HASH_MULTIPLIER) >> (58 - generation)
}

/// The cell after this one, which wraps at the end.
pub(crate) fn next(index: u64, cells: u64) -> u64
    requires { index < cells }
    ensures { MatchBool (index + 1 == cells)
        (result ≡ 0)
        ((result ≡ index + 1) × (result < cells)) }
{
    if index + 1 == cells { 0 } else { index + 1 }
}
