//! Single steps on the cells of generation 0 and above, as the table's calls make them, by a pass that may stop for good
//! behind each of them.
ghost use Rattle.std.specs.Prelude.{◌≡◌, ◌<◌, ◌≤◌, Some, IfSome, MatchBool};
ghost use Rattle.map_core.specs.Places.{Within, IsCell, spot};
ghost use Rattle.map_core.specs.Machine.{IsWord, Reaches};
ghost use Rattle.map_core.specs.Passes.{look};
ghost use Rattle.map_cells.specs.Steps.{StepFrame, SettledTo};
ghost use Rattle.block_moves.specs.Moved.{HoldsWord, HoldsValue};
ghost use Rattle.table_tests.specs.States.{Idle, SeesFirst, HasClaimed};

use map_cells::{Cell, Cells, KeyWord, Layout, ValueWord};
use map_core::HASH_MULTIPLIER;
use share_map::{AnyPair, Pass};

/// How many steps a pass makes before it stops for good.
#[derive(Drop)]
pub(crate) struct Steps {
    pub left: u64,
}

impl Steps {
    /// Takes a step off, if one is left.
    pub(crate) fn take(&mut self) -> bool {
        if self.left == 0 {
            return false;
        }
        self.left -= 1;
        true
    }
}

/// The number of a key word, as it stands in the table.
pub(crate) fn key_number(word: KeyWord) -> u64 {
    match word {
        KeyWord::Empty => 0,
        KeyWord::Sealed => u64::MAX,
        KeyWord::Key(key) => key,
    }
}

/// The number of a value word, as it stands in the table.
pub(crate) fn value_number(word: ValueWord) -> u64 {
    match word {
        ValueWord::Unset => 0,
        ValueWord::Closed => u64::MAX,
        ValueWord::Value(value) => value,
    }
}

/// The cell that the walk of a key comes to after so many steps.
pub(crate) fn cell_of_walk(layout: &Layout, generation: u32, key: u64, steps: u64) -> u64
    requires generation { Within layout.now generation }
    requires steps { steps ≤ 64 }
    ensures { result ≡ spot generation key steps }
{
    let home = key.wrapping_mul(HASH_MULTIPLIER) >> (58 - generation);
    (home + steps) % layout.cells(generation)
}

/// The home cell of a key in generation 0.
pub(crate) fn home_of(cells: &Cells<AnyPair>, key: u64) -> u64
    ensures place { result ≡ spot 0 key 0 }
    ensures low { result < 64 }
{
    cell_of_walk(cells.layout(), 0, key, 0)
}

/// Loads which generation is current: whether it is the first, and the table has others.
pub(crate) fn sees_first(cells: &Cells<AnyPair>, pass: &mut Pass<AnyPair>) -> bool
    requires { Idle cells.now pass.old }
    ensures { MatchBool result (SeesFirst cells.now pass.new) (Idle cells.now pass.new) }
{
    let last = cells.layout().last;
    let current = cells.current(pass);
    if last == 0 {
        return false;
    }
    current == 0
}

/// The first cell of a key's walk that holds no other key, if it is empty. Each load is a step.
fn find_empty(
    cells: &Cells<AnyPair>,
    pass: &mut Pass<AnyPair>,
    steps: &mut Steps,
    generation: u32,
    key: u64,
) -> Option<u64>
    requires sees { SeesFirst cells.now pass.old }
    requires generation { Within cells.now.layout generation }
    ensures sees { SeesFirst cells.now pass.new }
    ensures frame { StepFrame pass.old.knows pass.new.knows }
    ensures reached { IfSome result (λ i. Reaches pass.new.knows.layout
        (look pass.new.knows.known) generation i key) }
    ensures cell { IfSome result (λ i. IsCell cells.now.layout generation i) }
{
    let layout = cells.layout();
    for passed in 0..64 {
        if !steps.take() {
            return None;
        }
        let index = cell_of_walk(layout, generation, key, passed);
        match cells.key_at(pass, Cell { generation, index }) {
            KeyWord::Empty => return Some(index),
            KeyWord::Sealed => return None,
            KeyWord::Key(found) => {
                if found == key {
                    return None;
                }
            }
        }
    }
    None
}

/// Claims the first empty cell of a key's walk for the key.
pub(crate) fn claim_on_walk(
    cells: &Cells<AnyPair>,
    pass: &mut Pass<AnyPair>,
    steps: &mut Steps,
    generation: u32,
    key: u64,
) -> Option<u64>
    requires sees { SeesFirst cells.now pass.old }
    requires generation { Within cells.now.layout generation }
    requires key { IsWord key }
    requires settled { SettledTo pass.old.knows generation key }
    ensures frame { StepFrame pass.old.knows pass.new.knows }
    ensures claimed { IfSome result (λ i. HasClaimed cells.now generation i key pass.new) }
{
    let Some(index) = find_empty(cells, pass, steps, generation, key) else {
        return None;
    };
    if !steps.take() {
        return None;
    }
    match cells.claim(pass, Cell { generation, index }, key) {
        KeyWord::Empty => Some(index),
        KeyWord::Sealed => None,
        KeyWord::Key(_winner) => None,
    }
}

/// Tries to claim the home cell of a key in generation 0, and answers the word before the step.
pub(crate) fn claim_home(cells: &Cells<AnyPair>, pass: &mut Pass<AnyPair>, key: u64) -> u64
    requires sees { SeesFirst cells.now pass.old }
    requires key { IsWord key }
{
    let cell = Cell {
        generation: 0,
        index: home_of(cells, key),
    };
    key_number(cells.claim(pass, cell, key))
}

/// Puts a pair of generation 0 into the next one: a walk, a claim, and the value.
fn carry_pair(
    cells: &Cells<AnyPair>,
    pass: &mut Pass<AnyPair>,
    steps: &mut Steps,
    index: u64,
    key: u64,
    value: u64,
) -> bool
    requires sees { SeesFirst cells.now pass.old }
    requires index { index < 64 }
    requires key { HoldsWord 0 index key pass.old.knows }
    requires value { HoldsValue 0 index value pass.old.knows }
    ensures { MatchBool result (SeesFirst cells.now pass.new) (Unit {0}) }
{
    let Some(above) = claim_on_walk(cells, pass, steps, 1, key) else {
        return false;
    };
    if !steps.take() {
        return false;
    }
    let cell = Cell {
        generation: 1,
        index: above,
    };
    match cells.publish(pass, cell, key, value) {
        ValueWord::Unset => true,
        ValueWord::Closed => false,
        ValueWord::Value(_found) => false,
    }
}

/// Moves a cell of generation 0 in which a key was seen.
fn move_key(
    cells: &Cells<AnyPair>,
    pass: &mut Pass<AnyPair>,
    steps: &mut Steps,
    index: u64,
    key: u64,
) -> bool
    requires sees { SeesFirst cells.now pass.old }
    requires index { index < 64 }
    requires key { HoldsWord 0 index key pass.old.knows }
    ensures { MatchBool result (SeesFirst cells.now pass.new) (Unit {0}) }
{
    if !steps.take() {
        return false;
    }
    let cell = Cell {
        generation: 0,
        index,
    };
    match cells.value_at(pass, cell) {
        ValueWord::Unset => {
            if !steps.take() {
                return false;
            }
            cells.seal_value(pass, cell);
            true
        }
        ValueWord::Closed => true,
        ValueWord::Value(value) => carry_pair(cells, pass, steps, index, key, value),
    }
}

/// Moves a cell of generation 0, where there are steps enough.
pub(crate) fn move_cell(
    cells: &Cells<AnyPair>,
    pass: &mut Pass<AnyPair>,
    steps: &mut Steps,
    index: u64,
) -> bool
    requires sees { SeesFirst cells.now pass.old }
    requires index { index < 64 }
    ensures { MatchBool result (SeesFirst cells.now pass.new) (Unit {0}) }
{
    if !steps.take() {
        return false;
    }
    let cell = Cell {
        generation: 0,
        index,
    };
    match cells.key_at(pass, cell) {
        KeyWord::Empty => {
            if !steps.take() {
                return false;
            }
            cells.seal_key(pass, cell);
            true
        }
        KeyWord::Sealed => true,
        KeyWord::Key(key) => move_key(cells, pass, steps, index, key),
    }
}

/// Seals an empty key word of generation 0, and answers the word before the step.
pub(crate) fn seal_key(cells: &Cells<AnyPair>, pass: &mut Pass<AnyPair>, index: u64) -> u64
    requires sees { SeesFirst cells.now pass.old }
    requires index { index < 64 }
    ensures { SeesFirst cells.now pass.new }
{
    let cell = Cell {
        generation: 0,
        index,
    };
    key_number(cells.seal_key(pass, cell))
}

/// Closes an unset value word of generation 0 at the key that a load finds there, and answers the word before the step.
pub(crate) fn close_value(
    cells: &Cells<AnyPair>,
    pass: &mut Pass<AnyPair>,
    index: u64,
) -> Option<u64>
    requires sees { SeesFirst cells.now pass.old }
    requires index { index < 64 }
    ensures { SeesFirst cells.now pass.new }
{
    let cell = Cell {
        generation: 0,
        index,
    };
    match cells.key_at(pass, cell) {
        KeyWord::Empty => None,
        KeyWord::Sealed => None,
        KeyWord::Key(_key) => Some(value_number(cells.seal_value(pass, cell))),
    }
}

/// Publishes a value in a cell of generation 0 at the key that a load finds there, counts it where it is new, and
/// answers the word before the step.
pub(crate) fn publish_value(
    cells: &Cells<AnyPair>,
    pass: &mut Pass<AnyPair>,
    index: u64,
    value: u64,
) -> Option<u64>
    requires sees { SeesFirst cells.now pass.old }
    requires index { index < 64 }
    requires value { IsWord value }
    ensures { SeesFirst cells.now pass.new }
{
    let cell = Cell {
        generation: 0,
        index,
    };
    let KeyWord::Key(key) = cells.key_at(pass, cell) else {
        return None;
    };
    match cells.publish(pass, cell, key, value) {
        ValueWord::Unset => {
            cells.count(pass);
            Some(0)
        }
        ValueWord::Closed => Some(u64::MAX),
        ValueWord::Value(found) => Some(found),
    }
}
