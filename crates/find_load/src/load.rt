//! One load: its words, its phases and what it prints.

ghost use Rattle.handle_cache.specs.Handles.{Belongs};

use crate::finding::{Tally, find_all};
use crate::tables::TablesFile;
use abbrev_decl::Steps;
use handle_cache::{Handle, HandlePass};
use std::alloc::Global;
use std::io;
use std::rt::Clock;
use std::time::{Duration, Instant};

/// What the words ask for.
#[derive(Clone, Copy)]
pub(crate) struct Load {
    tables: u32,
    declarations: u32,
    rounds: u32,
    times: bool,
}

impl Load {
    /// The load of these words, if they are right.
    pub fn of_words(words: &[String]) -> Option<Load> {
        let mut words = words.iter();
        let tables = words.next()?.as_str().parse::<u32>().ok()?;
        let declarations = words.next()?.as_str().parse::<u32>().ok()?;
        let rounds = words.next()?.as_str().parse::<u32>().ok()?;
        let times = match words.next() {
            None => false,
            Some(word) => word.as_str() == "times",
        };
        Some(Load {
            tables,
            declarations,
            rounds,
            times,
        })
    }

    /// Makes and opens the file, finds all declarations, and prints what was found. It answers whether the file could
    /// be opened.
    pub fn run<R: Clock + Print>(&self, rt: &R, alloc: Global) -> io::Result<bool> {
        let file = TablesFile::new(alloc, self.tables, self.declarations)?;
        let Ok((handle, mut pass)) = Handle::open(alloc, file.bytes.as_slice(), 1) else {
            return Ok(false);
        };
        let mut steps = Steps::start(());
        let mut tally = Tally::new();
        let tables = file.tables.as_slice();
        let first = self.find_rounds(rt, &handle, &mut pass, tables, 1, &mut steps, &mut tally)?;
        let rounds = self.rounds;
        let again = self.find_rounds(
            rt, &handle, &mut pass, tables, rounds, &mut steps, &mut tally,
        )?;
        let (found, missing, places) = (tally.found, tally.missing, tally.places);
        let walked = steps.count();
        println!(rt; "found {found}\nmissing {missing}\nplaces {places}\nsteps {walked}")?;
        if self.times {
            let (first, again) = (first.as_nanos(), again.as_nanos());
            println!(rt; "first {first} ns\nagain {again} ns")?;
        }
        Ok(true)
    }

    /// Finds all declarations so many times. It answers the time that this took.
    fn find_rounds<'f, R: Clock>(
        &self,
        rt: &R,
        handle: &Handle<'f>,
        pass: &mut HandlePass<'f>,
        tables: &[u32],
        rounds: u32,
        steps: &mut Steps<()>,
        tally: &mut Tally,
    ) -> io::Result<Duration>
        requires { Belongs handle.now pass.old }
        ensures { Belongs handle.now pass.new }
    {
        let start = Instant::now(rt)?;
        'rounds: for _round in 0..rounds {
            find_all(handle, pass, tables, self.declarations, steps, tally);
        }
        start.elapsed(rt)
    }
}
