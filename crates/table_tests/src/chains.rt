//! Chains of calls under facts that refuse some pairs. What a call wants follows from what the calls before it say, with
//! no test at run time.
ghost use Rattle.std.specs.Prelude.{◌≡◌, ◌≢◌, ◌+◌, ◌<◌, ◌≤◌, [], ◌∷◌, length};
ghost use Rattle.map_core.specs.Calls.{own};
ghost use Rattle.map_core.specs.Machine.{IsWord};
ghost use Rattle.table_tests.specs.States.{Idle};
ghost use Rattle.table_tests.specs.CallLists.{placed_count};

use crate::calls::{Call, check_calls, new_table, split};
use crate::sum_pairs::PairsOfSum;
use map_cells::TagOfFacts;
use map_core::calls_in_order;
use share_map::{AnyPair, Full, Kept, Pass, Table};
use std::test::Fail;

// The value that a key must have.
fn value_of(sum: u64, key: u64) -> u64
    requires { key < sum }
    ensures fits { key + result ≡ sum }
    ensures above { 0 < result }
    ensures below { result ≤ sum }
{
    sum - key
}

// Calls in a row, with a split and a join among them.
fn make_calls(table: &Table<PairsOfSum>, pass: &mut Pass<PairsOfSum>, sum: u64)
    requires idle { Idle table.now pass.old }
    requires spare { 0 < pass.old.knows.spare }
    requires tag { table.now.tag ≡ sum ∷ [] }
    requires sum { (100 < sum) × (sum ≤ 1000) }
    ensures { Idle table.now pass.new }
{
    let mut other = table.split(pass);
    let six = value_of(sum, 6);
    let _ = table.insert(&mut other, 6, six);
    table.join(pass, other);
    let _ = table.find(pass, 6);
}

#[test]
fn chains_of_calls_need_no_test_at_run_time(rt: HostRuntime) -> Result<(), Fail> {
    let facts = PairsOfSum { sum: 500 };
    let (table, mut pass) = Table::new(rt.alloc(), 100, 4, &facts)?;
    make_calls(&table, &mut pass, 500);
    assert_eq!(rt; table.find(&mut pass, 6), Some(494));
    Ok(())
}

// An insert, a find and a join. By the law over lists of calls the pass then has the entries that it had, those of the
// other and the insert's own.
fn insert_find_join(
    table: &Table<AnyPair>,
    pass: &mut Pass<AnyPair>,
    other: Pass<AnyPair>,
    key: u64,
    value: u64,
) -> Result<Kept, Full>
    requires idle { Idle table.now pass.old }
    requires also { Idle table.now other }
    requires number { other.knows.number ≢ 0 }
    requires key { IsWord key }
    requires value { IsWord value }
    ensures idle { Idle table.now pass.new }
    ensures own { length (own pass.new.knows)
        ≡ length (own pass.old.knows) + (length (own other.knows) + placed_count result) }
{
    pass.recall();
    let answer = table.insert(pass, key, value);
    let _ = table.find(pass, key);
    table.join(pass, other);
    calls_in_order::<TagOfFacts<AnyPair>>();
    answer
}

#[test]
fn a_join_puts_own_entries_together(rt: HostRuntime) -> Result<(), Fail> {
    let (table, mut a) = new_table(rt.alloc(), 100, 2)?;
    let mut b = split(&rt, &table, &mut a);
    check_calls(
        &rt,
        &table,
        &mut b,
        &[Call::Places(5, 7), Call::Places(6, 8)],
    );
    check_calls(&rt, &table, &mut a, &[Call::Places(7, 9)]);
    assert!(rt; b.number() != 0);
    let answer = insert_find_join(&table, &mut a, b, 8, 10);
    assert!(rt; answer == Ok(Kept::Placed));
    check_calls(&rt, &table, &mut a, &[Call::HasPlaced(4)]);
    Ok(())
}
