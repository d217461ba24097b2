//! Helpers that stop for good within their move: the other callers go on without them.
ghost use Rattle.std.specs.Prelude.{◌≡◌, ◌<◌, MatchBool};
ghost use Rattle.block_moves.specs.Moved.{SeenFinished};
ghost use Rattle.table_tests.specs.States.{Idle, SeesFirst};

use crate::calls::{Call, cells_for, check_calls, check_found, fill, new_table, split};
use crate::hand_steps::{Steps, claim_on_walk, close_value, move_cell, seal_key, sees_first};
use block_moves::move_block;
use map_cells::{Cells, Put};
use share_map::{AnyPair, Pass, Table};
use std::process::Abort;
use std::test::Fail;

// With the keys 1 to 48 this cell of generation 0 is empty, and key 1 stands in that one. The walk of key 200 passes six
// cells with other keys before it comes to the third.
const EMPTY_CELL: u64 = 1;

const CELL_OF_1: u64 = 39;

const CELL_OF_200: u64 = 44;

// The steps of a move of generation 0 with 48 entries and a claimed cell: three loads and a block that is taken; five
// for each entry (its key and its value are loaded, its cell above is loaded, claimed and set), three for the claimed
// cell (two loads, and its value is closed), two for each of 15 empty cells (a load, and the key is sealed); the block is
// finished and the generation left.
const MOVE_STEPS: u64 = 3 + 5 * 48 + 3 + 2 * 15 + 2;

/// Which of its steps is a helper's last.
#[derive(Clone, Copy, Debug)]
enum LastStep {
    TakesBlock,
    SealsEmptyKey,
    ClosesClaimedValue,
    ClaimsAbove,
    PublishesAbove,
    FinishesBlock,
    Switches,
}

// Puts the 48th entry in and counts it, but doesn't help, so that a move is due.
fn make_move_due(cells: &Cells<AnyPair>, pass: &mut Pass<AnyPair>) -> bool
    requires { SeesFirst cells.now pass.old }
    ensures { SeesFirst cells.now pass.new }
{
    match cells.put_from(pass, 0, 48, 148) {
        Put::Placed => {
            cells.count(pass);
            true
        }
        Put::Found(_value) => false,
        Put::Exhausted => false,
    }
}

// Claims a cell of generation 0 for key 200, and publishes no value.
fn claim_for_200(cells: &Cells<AnyPair>, pass: &mut Pass<AnyPair>) -> bool
    requires { SeesFirst cells.now pass.old }
{
    let mut steps = Steps { left: 64 };
    claim_on_walk(cells, pass, &mut steps, 0, 200) == Some(CELL_OF_200)
}

// The first steps of a move: which generation is current, the count, and a block.
fn begin_move(cells: &Cells<AnyPair>, pass: &mut Pass<AnyPair>, steps: &mut Steps) -> bool
    requires { Idle cells.now pass.old }
    ensures { MatchBool result (SeesFirst cells.now pass.new) (Unit {0}) }
{
    if !steps.take() || !sees_first(cells, pass) {
        return false;
    }
    if !steps.take() || cells.counted(pass) != 48 {
        return false;
    }
    if !steps.take() {
        return false;
    }
    cells.take_block(pass, 0) == 0
}

// Moves the cells of block 0.
fn move_cells(cells: &Cells<AnyPair>, pass: &mut Pass<AnyPair>, steps: &mut Steps) -> bool
    requires { SeesFirst cells.now pass.old }
    ensures { MatchBool result (SeesFirst cells.now pass.new) (Unit {0}) }
{
    for index in 0..64 {
        if !move_cell(cells, pass, steps, index) {
            return false;
        }
    }
    true
}

// Moves what is left of block 0 and finishes it.
fn finish_block(cells: &Cells<AnyPair>, pass: &mut Pass<AnyPair>) -> bool
    requires { SeesFirst cells.now pass.old }
    ensures sees { SeesFirst cells.now pass.new }
    ensures finished { MatchBool result (SeenFinished 0 0 pass.new.knows) (Unit {0}) }
{
    move_block(cells, pass, 0, 0)
}

// Makes generation 1 current.
fn switch(cells: &Cells<AnyPair>, pass: &mut Pass<AnyPair>) -> bool
    requires sees { SeesFirst cells.now pass.old }
    requires finished { SeenFinished 0 0 pass.old.knows }
{
    if cells.counted(pass) < 48 {
        return false;
    }
    cells.switch(pass, 0) == 1
}

// Helps as `help` does, and stops for good behind so many steps. Those that are left where a whole move takes fewer.
fn help_for<R: Abort>(rt: &R, cells: &Cells<AnyPair>, pass: &mut Pass<AnyPair>, limit: u64) -> u64
    requires { Idle cells.now pass.old }
{
    let mut steps = Steps { left: limit };
    if !begin_move(cells, pass, &mut steps) || !move_cells(cells, pass, &mut steps) {
        return steps.left;
    }
    // all cells are moved, so that this loads their words, and finishes the block
    if !steps.take() || !finish_block(cells, pass) {
        return steps.left;
    }
    if !steps.take() {
        return 0;
    }
    assert!(rt; switch(cells, pass));
    steps.left
}

// Moves the pair of key 1 by so many steps.
fn carry_for(cells: &Cells<AnyPair>, pass: &mut Pass<AnyPair>, limit: u64) -> bool
    requires { SeesFirst cells.now pass.old }
{
    let mut steps = Steps { left: limit };
    let moved = move_cell(cells, pass, &mut steps, CELL_OF_1);
    steps.left == 0 && moved == (limit == 5)
}

// Makes the steps of a helper up to its last one.
fn stop_behind(cells: &Cells<AnyPair>, pass: &mut Pass<AnyPair>, last: LastStep) -> bool
    requires { SeesFirst cells.now pass.old }
{
    match last {
        LastStep::TakesBlock => cells.take_block(pass, 0) == 0,
        LastStep::SealsEmptyKey => seal_key(cells, pass, EMPTY_CELL) == 0,
        LastStep::ClosesClaimedValue => close_value(cells, pass, CELL_OF_200) == Some(0),
        LastStep::ClaimsAbove => carry_for(cells, pass, 4),
        LastStep::PublishesAbove => carry_for(cells, pass, 5),
        LastStep::FinishesBlock => finish_block(cells, pass),
        LastStep::Switches => finish_block(cells, pass) && switch(cells, pass),
    }
}

// What a pass does that finds a move due and a helper stopped: it inserts to the end of the next generation, and finds
// all entries.
fn go_on<R: Abort>(rt: &R, table: &Table<AnyPair>, pass: &mut Pass<AnyPair>)
    requires { Idle table.now pass.old }
    ensures { Idle table.now pass.new }
{
    fill(rt, table, pass, 49, 97);
    check_found(rt, table, pass, 97);
    check_calls(
        rt,
        table,
        pass,
        &[Call::Lacks(97), Call::Lacks(200), Call::IsIn(2, 256, false)],
    );
}

// A pass with which a move is due, and that has claimed a cell for key 200 or hasn't.
fn prepare<R: Abort>(rt: &R, table: &Table<AnyPair>, mut pass: Pass<AnyPair>, claims: bool)
    requires { Idle table.now pass }
{
    let cells = cells_for(table, &pass);
    assert!(rt; sees_first(cells, &mut pass));
    assert!(rt; make_move_due(cells, &mut pass));
    if claims {
        assert!(rt; claim_for_200(cells, &mut pass));
    }
}

// A helper makes its steps up to its last.
fn stop_helper<R: Abort>(rt: &R, table: &Table<AnyPair>, mut pass: Pass<AnyPair>, last: LastStep)
    requires { Idle table.now pass }
{
    let cells = cells_for(table, &pass);
    assert!(rt; sees_first(cells, &mut pass));
    assert!(rt; stop_behind(cells, &mut pass, last), "{last:?}");
}

// A helper makes so many steps.
fn limit_helper<R: Abort>(rt: &R, table: &Table<AnyPair>, mut pass: Pass<AnyPair>, limit: u64)
    requires { Idle table.now pass }
{
    let cells = cells_for(table, &pass);
    let left = help_for(rt, cells, &mut pass, limit);
    assert!(rt; left == limit.saturating_sub(MOVE_STEPS), "step {limit}");
}

#[test]
fn a_helper_may_stop_at_each_kind_of_step(rt: HostRuntime) -> Result<(), Fail> {
    let last_steps = [
        LastStep::TakesBlock,
        LastStep::SealsEmptyKey,
        LastStep::ClosesClaimedValue,
        LastStep::ClaimsAbove,
        LastStep::PublishesAbove,
        LastStep::FinishesBlock,
        LastStep::Switches,
    ];
    for last in last_steps {
        let (table, mut a) = new_table(rt.alloc(), 1000, 3)?;
        let b = split(&rt, &table, &mut a);
        let c = split(&rt, &table, &mut a);
        fill(&rt, &table, &mut a, 1, 48);
        prepare(&rt, &table, c, matches!(last, LastStep::ClosesClaimedValue));
        stop_helper(&rt, &table, b, last);
        go_on(&rt, &table, &mut a);
    }
    Ok(())
}

#[test]
fn a_helper_may_stop_between_any_two_steps(rt: HostRuntime) -> Result<(), Fail> {
    for limit in 0..MOVE_STEPS + 2 {
        let (table, mut a) = new_table(rt.alloc(), 1000, 3)?;
        let b = split(&rt, &table, &mut a);
        let c = split(&rt, &table, &mut a);
        fill(&rt, &table, &mut a, 1, 48);
        prepare(&rt, &table, c, true);
        limit_helper(&rt, &table, b, limit);
        go_on(&rt, &table, &mut a);
    }
    Ok(())
}
