//! One load: its words, its phases and what it prints.
ghost use Rattle.std.specs.Prelude.{◌^◌, ◌<◌, ◌≤◌, IfSome};
ghost use Rattle.map_core.specs.declared.layout.TheConstants.{MOST_ENTRIES};
ghost use Rattle.table_load.specs.declared.load.TheConstants.{MOST_THREADS};

use crate::callers::{Caller, callers};
use crate::tally::Tally;
use map_core::MOST_ENTRIES;
use share_map::{AnyPair, Table};
use std::alloc::Global;
use std::ops::Range;
use std::rt::Clock;
use std::thread::Threads;
use std::time::{Duration, Instant};
use std::{io, thread};

const MOST_THREADS: u64 = 128;

/// Which keys the callers insert: each its own part, or each all of them. Or half of the callers look keys up while the
/// others insert.
#[derive(Clone, Copy)]
enum Mode {
    Own,
    Same,
    Mixed,
}

/// What the words ask for.
#[derive(Clone, Copy)]
pub(crate) struct Load {
    threads: u64,
    capacity: u64,
    keys: u64,
    rounds: u64,
    mode: Mode,
    times: bool,
    ghost threads_fit: { (1 ≤ threads) × (threads ≤ MOST_THREADS) },
    ghost capacity_fits: { (1 ≤ capacity) × (capacity ≤ MOST_ENTRIES) },
    ghost keys_fit: { keys ≤ MOST_ENTRIES },
}

impl Load {
    /// The load of these words, if they are right.
    pub fn of_words(words: &[String]) -> Option<Load> {
        let mut words = words.iter();
        let threads = number(words.next()?.as_str(), 1, MOST_THREADS)?;
        let capacity = number(words.next()?.as_str(), 1, MOST_ENTRIES)?;
        let keys = number(words.next()?.as_str(), 0, MOST_ENTRIES)?;
        let rounds = number(words.next()?.as_str(), 0, u64::MAX)?;
        let mode = match words.next()?.as_str() {
            "own" => Mode::Own,
            "same" => Mode::Same,
            "mixed" => Mode::Mixed,
            _ => return None,
        };
        let times = match words.next() {
            None => false,
            Some(word) => word.as_str() == "times",
        };
        Some(Load {
            threads,
            capacity,
            keys,
            rounds,
            mode,
            times,
        })
    }

    /// Makes the table and the threads' passes, runs the phases and prints what came of them. Before the inserts each
    /// thread looks all keys up once, so that the table's memory is as near as in the phases behind.
    pub fn run<R: Threads + Clock + Print + Sync>(&self, rt: &R, alloc: Global) -> io::Result<()> {
        let (table, pass) = Table::new(alloc, self.capacity, self.threads as u32, &AnyPair)?;
        let callers = callers(alloc, &table, pass, self.threads)?;
        let (callers, _) = self.find(rt, callers, 0, 1)?;
        let (callers, inserts) = self.insert(rt, callers)?;
        match self.mode {
            Mode::Mixed => {
                let (callers, mixed) = self.mix(rt, callers)?;
                print_tally(rt, sum(callers.as_slice()))?;
                self.print_time(rt, "mixed", mixed)
            }
            _ => self.run_alike(rt, callers, inserts),
        }
    }

    /// The phases in which all callers do alike, behind the inserts: the same inserts again, and finds.
    fn run_alike<'t, R: Threads + Clock + Print + Sync>(
        &self,
        rt: &R,
        callers: Vec<Caller<'t>>,
        inserts: Duration,
    ) -> io::Result<()> {
        let (callers, again) = self.insert(rt, callers)?;
        let (callers, hits) = self.find(rt, callers, 0, self.rounds)?;
        let (callers, misses) = self.find(rt, callers, self.keys, self.rounds)?;
        print_tally(rt, sum(callers.as_slice()))?;
        self.print_time(rt, "insert", inserts)?;
        self.print_time(rt, "again", again)?;
        self.print_time(rt, "present", hits)?;
        self.print_time(rt, "absent", misses)
    }

    /// The time of a phase, where times are asked for.
    fn print_time<R: Print>(&self, rt: &R, phase: &str, time: Duration) -> io::Result<()> {
        if self.times {
            let nanoseconds = time.as_nanos();
            println!(rt; "{phase} {nanoseconds} ns")?;
        }
        Ok(())
    }

    /// Each caller inserts its part of the keys. It answers the callers, and the time that this took.
    fn insert<'t, R: Threads + Clock + Sync>(
        &self,
        rt: &R,
        callers: Vec<Caller<'t>>,
    ) -> io::Result<(Vec<Caller<'t>>, Duration)> {
        let load = *self;
        let start = Instant::now(rt)?;
        let callers = thread::map_vec(rt, callers, &|caller| load.insert_part(caller))?;
        Ok((callers, start.elapsed(rt)?))
    }

    fn insert_part<'t>(&self, caller: Caller<'t>) -> Caller<'t> {
        let part = match self.mode {
            Mode::Own => share(0, self.keys, caller.index, self.threads),
            Mode::Same => share(0, self.keys, 0, 1),
            Mode::Mixed => share(0, self.keys / 2, caller.index, self.threads),
        };
        caller.insert_all(part)
    }

    /// The callers of even index look the first half of the keys up, while the others insert the second half.
    fn mix<'t, R: Threads + Clock + Sync>(
        &self,
        rt: &R,
        callers: Vec<Caller<'t>>,
    ) -> io::Result<(Vec<Caller<'t>>, Duration)> {
        let load = *self;
        let start = Instant::now(rt)?;
        let callers = thread::map_vec(rt, callers, &|caller| load.mix_part(caller))?;
        Ok((callers, start.elapsed(rt)?))
    }

    fn mix_part<'t>(&self, caller: Caller<'t>) -> Caller<'t> {
        let half = self.keys / 2;
        if caller.index % 2 == 0 {
            return caller.find_all(0..half, self.rounds);
        }
        let inserters = (self.threads / 2).max(1);
        let part = share(half, self.keys - half, caller.index / 2, inserters);
        caller.insert_all(part)
    }

    /// Each caller looks all keys from the first on up. It answers the callers, and the time that this took.
    fn find<'t, R: Threads + Clock + Sync>(
        &self,
        rt: &R,
        callers: Vec<Caller<'t>>,
        first: u64,
        rounds: u64,
    ) -> io::Result<(Vec<Caller<'t>>, Duration)>
        requires { first ≤ MOST_ENTRIES }
    {
        let end = first + self.keys;
        let start = Instant::now(rt)?;
        let callers = thread::map_vec(rt, callers, &|caller| caller.find_all(first..end, rounds))?;
        Ok((callers, start.elapsed(rt)?))
    }
}

/// One of so many parts of the numbers from the first on.
fn share(first: u64, count: u64, index: u64, parts: u64) -> Range<u64>
    requires first { first ≤ MOST_ENTRIES }
    requires count { count ≤ MOST_ENTRIES }
    requires parts { (1 ≤ parts) × (parts ≤ MOST_THREADS) }
    ensures { result.end < 2 ^ 32 }
{
    let index = index.min(parts);
    first + count * index / parts..first + count * (index + 1) / parts
}

/// The number that a word spells, if it lies between these.
fn number(word: &str, least: u64, most: u64) -> Option<u64>
    ensures { IfSome result (λ n. (least ≤ n) × (n ≤ most)) }
{
    let number = word.parse::<u64>().ok()?;
    if least <= number && number <= most {
        Some(number)
    } else {
        None
    }
}

fn sum(callers: &[Caller<'_>]) -> Tally {
    let mut all = Tally::new();
    for caller in callers {
        all.add(caller.tally);
    }
    all
}

fn print_tally<R: Print>(rt: &R, all: Tally) -> io::Result<()> {
    let (placed, found, full) = (all.placed, all.found, all.full);
    let (hits, missing, sum) = (all.hits, all.missing, all.sum);
    println!(rt; "placed {placed}\nfound {found}\nfull {full}")?;
    println!(rt; "hits {hits}\nmissing {missing}\nsum {sum}")
}
