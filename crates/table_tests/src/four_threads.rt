//! Two and four threads that insert overlapping keys, while the table grows.
ghost use Rattle.std.specs.Prelude.{◌<◌};
ghost use Rattle.table_tests.specs.States.{Idle};

use crate::calls::{find, insert, join, new_table, split};
use crate::start::meet;
use share_map::{AnyPair, Full, Kept, Pass, Table};
use std::process::Abort;
use std::sync::atomic::AtomicU64;
use std::test::Fail;
use std::thread::{self, Threads};

// How many keys a worker inserts.
const EACH: usize = 70;

/// What a worker learned: of each of its keys the value in the table.
#[derive(Drop)]
struct WorkerValues {
    pass: Pass<AnyPair>,
    values: [u64; EACH],
}

// The number of a worker's i-th key. The workers begin at 1, 11, 21 and 31; the four of them insert the keys of number 1
// to 100, and the first two those of number 1 to 80.
fn number_of(worker: u64, i: usize) -> u64 {
    worker
        .wrapping_mul(10)
        .wrapping_add(1)
        .wrapping_add(i as u64)
}

// The key of a number. Each two keys in a row have the same home or homes next to one another.
fn key_of(number: u64) -> u64 {
    number.wrapping_mul(233)
}

// What a worker offers for a key.
fn offer_of(worker: u64, key: u64) -> u64 {
    worker
        .wrapping_add(1)
        .wrapping_mul(100000)
        .wrapping_add(key)
}

// The value that a key has behind an insert of this offer, or 0 where there is no room.
fn learn(table: &Table<AnyPair>, pass: &mut Pass<AnyPair>, key: u64, offer: u64) -> u64
    requires { Idle table.now pass.old }
    ensures { Idle table.now pass.new }
{
    match insert(table, pass, key, offer) {
        Ok(Kept::Placed) => offer,
        Ok(Kept::Found(value)) => value,
        Err(Full) => 0,
    }
}

// Inserts the keys of a worker once all threads run.
fn offer_all(
    table: &Table<AnyPair>,
    arrived: &AtomicU64,
    threads: u64,
    mut pass: Pass<AnyPair>,
    worker: u64,
) -> WorkerValues
    requires { Idle table.now pass }
    ensures { Idle table.now result.pass }
{
    let mut values = [0; EACH];
    meet(arrived, threads);
    for i in 0..EACH {
        let key = key_of(number_of(worker, i));
        values[i] = learn(table, &mut pass, key, offer_of(worker, key));
    }
    WorkerValues { pass, values }
}

// Two workers in two threads: this one and the next.
fn run_two_workers<R: Threads>(
    rt: &R,
    table: &Table<AnyPair>,
    arrived: &AtomicU64,
    threads: u64,
    one: Pass<AnyPair>,
    other: Pass<AnyPair>,
    worker: u64,
) -> (WorkerValues, WorkerValues)
    requires one { Idle table.now one }
    requires other { Idle table.now other }
    requires worker { worker < 3 }
    ensures first { Idle table.now result.0.pass }
    ensures second { Idle table.now result.1.pass }
{
    thread::join(
        rt,
        move || -> WorkerValues
            requires { Idle table.now one }
            ensures { Idle table.entry.now result.pass }
        { offer_all(table, arrived, threads, one, worker) },
        move || -> WorkerValues
            requires { Idle table.now other × (worker < 3) }
            ensures { Idle table.entry.now result.pass }
        { offer_all(table, arrived, threads, other, worker + 1) },
    )
}

// Four workers in four threads.
fn run_four_workers<R: Threads + Sync>(
    rt: &R,
    table: &Table<AnyPair>,
    arrived: &AtomicU64,
    a: Pass<AnyPair>,
    b: Pass<AnyPair>,
    c: Pass<AnyPair>,
    d: Pass<AnyPair>,
) -> ((WorkerValues, WorkerValues), (WorkerValues, WorkerValues))
    requires a { Idle table.now a }
    requires b { Idle table.now b }
    requires c { Idle table.now c }
    requires d { Idle table.now d }
    ensures first { Idle table.now result.0.0.pass }
    ensures second { Idle table.now result.0.1.pass }
    ensures third { Idle table.now result.1.0.pass }
    ensures fourth { Idle table.now result.1.1.pass }
{
    thread::join(
        rt,
        move || -> (WorkerValues, WorkerValues)
            requires { Idle table.now a × Idle table.now b }
            ensures { Idle table.entry.now result.0.pass × Idle table.entry.now result.1.pass }
        { run_two_workers(rt, table, arrived, 4, a, b, 0) },
        move || -> (WorkerValues, WorkerValues)
            requires { Idle table.now c × Idle table.now d }
            ensures { Idle table.entry.now result.0.pass × Idle table.entry.now result.1.pass }
        { run_two_workers(rt, table, arrived, 4, c, d, 2) },
    )
}

// Takes the pass of a worker into another. The values stay.
fn take_in<R: Abort>(
    rt: &R,
    table: &Table<AnyPair>,
    into: &mut Pass<AnyPair>,
    worker: WorkerValues,
) -> [u64; EACH]
    requires idle { Idle table.now into.old }
    requires also { Idle table.now worker.pass }
    ensures { Idle table.now into.new }
{
    let WorkerValues { pass, values } = worker;
    join(rt, table, into, pass);
    values
}

// Whether some worker offered this value for the key of this number.
fn is_offer(number: u64, value: u64) -> bool {
    for worker in 0..4 {
        let first = number_of(worker, 0);
        let inserts = first <= number && number < first.wrapping_add(EACH as u64);
        if inserts && value == offer_of(worker, key_of(number)) {
            return true;
        }
    }
    false
}

// The value of each key of the worker is one that was offered for it, and the worker learned it.
fn check_values<R: Abort>(
    rt: &R,
    table: &Table<AnyPair>,
    pass: &mut Pass<AnyPair>,
    worker: u64,
    values: &[u64; EACH],
)
    requires { Idle table.now pass.old }
    ensures { Idle table.now pass.new }
{
    for i in 0..EACH {
        let number = number_of(worker, i);
        let found = find(table, pass, key_of(number)) == Some(values[i]);
        assert!(rt; found && is_offer(number, values[i]), "number {number}");
    }
}

// One race of two workers. Behind it one pass finds what both learned.
fn race_two<R: Abort + Threads>(rt: &R, table: &Table<AnyPair>, mut a: Pass<AnyPair>)
    requires { Idle table.now a }
{
    let b = split(rt, table, &mut a);
    let arrived = AtomicU64::new(0);
    let (first, second) = run_two_workers(rt, table, &arrived, 2, a, b, 0);
    let WorkerValues {
        pass: mut all,
        values,
    } = first;
    let of_second = take_in(rt, table, &mut all, second);
    assert!(rt; all.placed() == 80);
    check_values(rt, table, &mut all, 0, &values);
    check_values(rt, table, &mut all, 1, &of_second);
}

// One race of four workers.
fn race_four<R: Abort + Threads + Sync>(rt: &R, table: &Table<AnyPair>, mut a: Pass<AnyPair>)
    requires { Idle table.now a }
{
    let b = split(rt, table, &mut a);
    let c = split(rt, table, &mut a);
    let d = split(rt, table, &mut a);
    let arrived = AtomicU64::new(0);
    let ((first, second), (third, fourth)) = run_four_workers(rt, table, &arrived, a, b, c, d);
    let WorkerValues {
        pass: mut all,
        values,
    } = first;
    let of_second = take_in(rt, table, &mut all, second);
    let of_third = take_in(rt, table, &mut all, third);
    let of_fourth = take_in(rt, table, &mut all, fourth);
    assert!(rt; all.placed() == 100);
    check_values(rt, table, &mut all, 0, &values);
    check_values(rt, table, &mut all, 1, &of_second);
    check_values(rt, table, &mut all, 2, &of_third);
    check_values(rt, table, &mut all, 3, &of_fourth);
}

#[test]
fn threads_agree_on_the_value_of_each_key(rt: HostRuntime) -> Result<(), Fail> {
    for _ in 0..100 {
        let (table, pass) = new_table(rt.alloc(), 100, 2)?;
        race_two(&rt, &table, pass);
        let (table, pass) = new_table(rt.alloc(), 100, 4)?;
        race_four(&rt, &table, pass);
    }
    Ok(())
}
