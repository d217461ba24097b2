//! Cells that a pass claims, sets and seals by hand, and help that is asked for.
ghost use Rattle.std.specs.Prelude.{◌<◌, ◌≤◌};
ghost use Rattle.map_core.specs.Passes.{AtRest};
ghost use Rattle.map_cells.specs.Seen.{IsOf};
ghost use Rattle.table_tests.specs.States.{Idle};

use crate::calls::{Call, check_calls, check_found, fill, new_table, split, word};
use crate::hand_steps::{claim_home, close_value, home_of, publish_value, seal_key, sees_first};
use block_moves::{Helped, help};
use map_cells::{Cell, Cells, KeyWord};
use share_map::{AnyPair, Pass, Table};
use std::process::Abort;
use std::test::Fail;

/// A step by hand on the home cell of a key in generation 0, and the word that it must find there.
#[derive(Clone, Copy)]
enum Step {
    /// A pass of its own claims the cell for the key, and stops for good.
    Claims(u64, u64),
    /// A value for the key that stands in the cell.
    Publishes(u64, u64, u64),
    /// The key word is sealed.
    Seals(u64, u64),
    /// The value word is closed at the key that stands in the cell.
    Closes(u64, u64),
}

// Claims the home cell of a key by a pass that stops then.
fn claim_and_stop(cells: &Cells<AnyPair>, mut pass: Pass<AnyPair>, key: u64) -> Option<u64>
    requires { Idle cells.now pass }
{
    if !sees_first(cells, &mut pass) {
        return None;
    }
    Some(claim_home(cells, &mut pass, word(key)))
}

// The word that a step finds.
fn word_before(cells: &Cells<AnyPair>, pass: &mut Pass<AnyPair>, step: Step) -> Option<u64>
    requires { Idle cells.now pass.old }
    ensures { Idle cells.now pass.new }
{
    if !sees_first(cells, pass) || pass.spare() == 0 {
        return None;
    }
    match step {
        Step::Claims(key, _) => {
            let other = cells.split(pass);
            claim_and_stop(cells, other, key)
        }
        Step::Publishes(key, value, _) => {
            publish_value(cells, pass, home_of(cells, key), word(value))
        }
        Step::Seals(key, _) => Some(seal_key(cells, pass, home_of(cells, key))),
        Step::Closes(key, _) => close_value(cells, pass, home_of(cells, key)),
    }
}

// Whether a step finds the word that it must.
fn finds_word(table: &Table<AnyPair>, pass: &mut Pass<AnyPair>, step: Step) -> bool
    requires { Idle table.now pass.old }
    ensures { Idle table.now pass.new }
{
    let wanted = match step {
        Step::Claims(_, found) => found,
        Step::Publishes(_, _, found) => found,
        Step::Seals(_, found) => found,
        Step::Closes(_, found) => found,
    };
    let cells = table.cells();
    word_before(cells, pass, step) == Some(wanted)
}

// Makes steps one after another.
fn check_steps<R: Abort>(rt: &R, table: &Table<AnyPair>, pass: &mut Pass<AnyPair>, steps: &[Step])
    requires { Idle table.now pass.old }
    ensures { Idle table.now pass.new }
{
    for number in 0..steps.len() {
        assert!(rt; finds_word(table, pass, steps[number]), "step {number}");
    }
}

// Seals the key words of these cells of generation 0, and answers how many were empty.
fn seal_cells(cells: &Cells<AnyPair>, pass: &mut Pass<AnyPair>, from: u64, end: u64) -> u64
    requires of { IsOf cells.now pass.old }
    requires rest { AtRest pass.old.knows }
    requires end { end ≤ 64 }
    requires below { 0 < cells.now.layout.last }
    ensures of { IsOf cells.now pass.new }
    ensures rest { AtRest pass.new.knows }
{
    let mut sealed = 0u64;
    for index in from..end {
        let cell = Cell {
            generation: 0,
            index,
        };
        if let KeyWord::Empty = cells.seal_key(pass, cell) {
            sealed = u64::saturating_add(sealed, 1);
        }
    }
    sealed
}

fn call_seal_cells<R: Abort>(
    rt: &R,
    table: &Table<AnyPair>,
    pass: &mut Pass<AnyPair>,
    from: u64,
    end: u64,
) -> u64
    requires { Idle table.now pass.old }
    ensures { Idle table.now pass.new }
{
    let cells = table.cells();
    assert!(rt; cells.layout().last > 0);
    assert!(rt; end <= 64);
    seal_cells(cells, pass, from, end)
}

fn call_help(table: &Table<AnyPair>, pass: &mut Pass<AnyPair>) -> Helped
    requires { Idle table.now pass.old }
    ensures { Idle table.now pass.new }
{
    let cells = table.cells();
    help(cells, pass)
}

// Keys 5 and 149 have one home among 64 cells.
#[test]
fn each_step_finds_the_word_before_it(rt: HostRuntime) -> Result<(), Fail> {
    let (table, mut pass) = new_table(rt.alloc(), 1000, 8)?;
    check_steps(
        &rt,
        &table,
        &mut pass,
        &[
            Step::Claims(5, 0),
            Step::Claims(5, 5),
            Step::Claims(149, 5),
            Step::Seals(5, 5),
        ],
    );
    check_calls(&rt, &table, &mut pass, &[Call::Lacks(5), Call::Lacks(149)]);
    check_steps(
        &rt,
        &table,
        &mut pass,
        &[
            Step::Publishes(5, 7, 0),
            Step::Publishes(5, 9, 7),
            Step::Closes(5, 7),
        ],
    );
    check_calls(
        &rt,
        &table,
        &mut pass,
        &[
            Call::Finds(5, 7),
            Call::Meets(5, 7),
            Call::Lacks(149),
            Call::Places(149, 8),
            Call::HasPlaced(2),
            Call::IsIn(0, 64, false),
        ],
    );
    Ok(())
}

#[test]
fn a_key_of_a_closed_cell_goes_to_the_next_generation(rt: HostRuntime) -> Result<(), Fail> {
    let (table, mut pass) = new_table(rt.alloc(), 1000, 8)?;
    check_steps(
        &rt,
        &table,
        &mut pass,
        &[
            Step::Claims(5, 0),
            Step::Closes(5, 0),
            Step::Closes(5, u64::MAX),
            Step::Publishes(5, 7, u64::MAX),
            Step::Seals(6, 0),
            Step::Seals(6, u64::MAX),
            Step::Claims(6, u64::MAX),
        ],
    );
    check_calls(
        &rt,
        &table,
        &mut pass,
        &[
            Call::Lacks(5),
            Call::Lacks(6),
            Call::Places(5, 8),
            Call::Places(6, 9),
            Call::Finds(5, 8),
            Call::Meets(6, 9),
            Call::HasPlaced(2),
            Call::IsIn(0, 64, false),
        ],
    );
    Ok(())
}

#[test]
fn keys_go_past_a_sealed_generation(rt: HostRuntime) -> Result<(), Fail> {
    let (table, mut pass) = new_table(rt.alloc(), 100, 1)?;
    assert!(rt; call_seal_cells(&rt, &table, &mut pass, 0, 64) == 64);
    fill(&rt, &table, &mut pass, 1, 61);
    check_found(&rt, &table, &mut pass, 61);
    check_calls(
        &rt,
        &table,
        &mut pass,
        &[Call::Meets(7, 107), Call::IsIn(1, 128, false)],
    );
    Ok(())
}

#[test]
fn a_pass_that_stops_within_a_block_holds_nobody_up(rt: HostRuntime) -> Result<(), Fail> {
    let (table, mut a) = new_table(rt.alloc(), 1000, 2)?;
    let mut b = split(&rt, &table, &mut a);
    fill(&rt, &table, &mut a, 1, 48);
    call_seal_cells(&rt, &table, &mut b, 0, 32);
    check_calls(
        &rt,
        &table,
        &mut a,
        &[Call::Places(48, 148), Call::IsIn(1, 128, false)],
    );
    assert!(rt; call_seal_cells(&rt, &table, &mut b, 32, 64) == 0);
    check_found(&rt, &table, &mut a, 49);
    check_found(&rt, &table, &mut b, 49);
    Ok(())
}

#[test]
fn no_move_is_due_of_47_entries(rt: HostRuntime) -> Result<(), Fail> {
    let (table, mut pass) = new_table(rt.alloc(), 1000, 1)?;
    fill(&rt, &table, &mut pass, 1, 48);
    assert!(rt; call_help(&table, &mut pass) == Helped::Nothing);
    fill(&rt, &table, &mut pass, 48, 49);
    assert!(rt; call_help(&table, &mut pass) == Helped::Nothing);
    check_calls(&rt, &table, &mut pass, &[Call::IsIn(1, 128, false)]);
    Ok(())
}
