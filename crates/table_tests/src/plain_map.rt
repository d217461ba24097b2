//! Random lists of calls, beside a plain map that keeps the first value of each key.
ghost use Rattle.table_tests.specs.States.{Idle};

use crate::calls::{find, insert, new_table};
use share_map::{AnyPair, Full, Kept, Pass, Table};
use std::alloc::{AllocError, Global};
use std::process::Abort;
use std::test::Fail;

/// A plain map whose keys are the numbers below its length. It keeps the first value of each key, up to so many keys.
#[derive(Drop)]
struct PlainMap {
    values: Vec<Option<u64>>,
    room: u64,
}

impl PlainMap {
    fn new(alloc: Global, keys: usize, room: u64) -> Result<PlainMap, AllocError> {
        let values = vec![in alloc; None; keys]?;
        Ok(PlainMap { values, room })
    }

    fn find(&self, key: usize) -> Option<u64> {
        match self.values.get(key) {
            Some(value) => *value,
            None => None,
        }
    }

    fn insert(&mut self, key: usize, value: u64) -> Result<Kept, Full> {
        if let Some(found) = self.find(key) {
            return Ok(Kept::Found(found));
        }
        if self.room == 0 || key >= self.values.len() {
            return Err(Full);
        }
        self.room -= 1;
        self.values[key] = Some(value);
        Ok(Kept::Placed)
    }
}

// The next number of a linear congruential generator modulo 2^64.
fn next(seed: u64) -> u64 {
    seed.wrapping_mul(6364136223846793005)
        .wrapping_add(1442695040888963407)
}

// Keys of this distance have homes next to one another, so that walks go past other keys and wrap.
fn key_of(number: u64) -> u64 {
    number.wrapping_mul(89).wrapping_add(1)
}

/// How many of each answer came.
#[derive(Clone, Copy)]
struct Came {
    placed: u64,
    met: u64,
    full: u64,
    found: u64,
    absent: u64,
}

impl Came {
    fn note_insert(&mut self, answer: Result<Kept, Full>) {
        match answer {
            Ok(Kept::Placed) => self.placed = self.placed.wrapping_add(1),
            Ok(Kept::Found(_)) => self.met = self.met.wrapping_add(1),
            Err(_) => self.full = self.full.wrapping_add(1),
        }
    }

    // Whether keys were met, found and missed.
    fn is_mixed(&self) -> bool {
        self.met > 0 && self.found > 0 && self.absent > 0
    }

    fn note_find(&mut self, answer: Option<u64>) {
        match answer {
            Some(_) => self.found = self.found.wrapping_add(1),
            None => self.absent = self.absent.wrapping_add(1),
        }
    }
}

// An insert or a find of both maps, by a random number. Their answers are the same.
fn compare_call<R: Abort>(
    rt: &R,
    table: &Table<AnyPair>,
    pass: &mut Pass<AnyPair>,
    plain: &mut PlainMap,
    came: &mut Came,
    call: u64,
    seed: u64,
)
    requires { Idle table.now pass.old }
    ensures { Idle table.now pass.new }
{
    let number = (seed >> 33) % (plain.values.len() as u64).max(1);
    let key = key_of(number);
    if (seed >> 20) % 2 == 0 {
        let value = (seed >> 40) + 1;
        let wanted = plain.insert(number as usize, value);
        assert!(rt; insert(table, pass, key, value) == wanted, "call {call}");
        came.note_insert(wanted);
    } else {
        let wanted = plain.find(number as usize);
        assert!(rt; find(table, pass, key) == wanted, "call {call}");
        came.note_find(wanted);
    }
}

// Makes so many calls of both maps.
fn compare_calls<R: Abort>(
    rt: &R,
    table: &Table<AnyPair>,
    pass: &mut Pass<AnyPair>,
    plain: &mut PlainMap,
    calls: u64,
) -> Came
    requires { Idle table.now pass.old }
    ensures { Idle table.now pass.new }
{
    let mut came = Came {
        placed: 0,
        met: 0,
        full: 0,
        found: 0,
        absent: 0,
    };
    let mut seed = 20240229;
    for call in 0..calls {
        seed = next(seed);
        compare_call(rt, table, pass, plain, &mut came, call, seed);
    }
    came
}

#[test]
fn random_calls_answer_as_a_plain_map_until_it_is_full(rt: HostRuntime) -> Result<(), Fail> {
    let (table, mut pass) = new_table(rt.alloc(), 64, 1)?;
    let mut plain = PlainMap::new(rt.alloc(), 90, 64)?;
    let came = compare_calls(&rt, &table, &mut pass, &mut plain, 2000);
    assert!(rt; came.is_mixed());
    assert!(rt; came.full > 0);
    assert!(rt; came.placed == 64);
    Ok(())
}

#[test]
fn a_table_that_grows_answers_as_a_plain_map(rt: HostRuntime) -> Result<(), Fail> {
    let (table, mut pass) = new_table(rt.alloc(), 200000, 1)?;
    let mut plain = PlainMap::new(rt.alloc(), 150000, 200000)?;
    let came = compare_calls(&rt, &table, &mut pass, &mut plain, 400000);
    assert!(rt; came.is_mixed());
    assert!(rt; came.full == 0);
    assert!(rt; came.placed >= 100000);
    assert!(rt; pass.placed() == came.placed);
    Ok(())
}
