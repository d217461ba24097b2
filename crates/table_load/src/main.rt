//! Loads the shared table from several threads, and prints what its calls answered.
//!
//! The words are `THREADS CAPACITY KEYS ROUNDS own|same|mixed`, and perhaps `times`. A table for CAPACITY entries gets
//! KEYS keys: under `own` each thread inserts a part of them, under `same` each inserts them all. Then each inserts the
//! same once more, looks each key up ROUNDS times, and after that as many keys that the table hasn't. Under `mixed` half
//! of the keys are inserted first. Then every other thread looks these up ROUNDS times, while the others insert the rest.
//! What is printed is the same whatever the threads' order, but for the nanoseconds of the phases, which `times` adds.
//! Other words give status 2.
#![tactic(auto)]

mod callers;
mod keys;
mod load;
mod tally;

use callers::callers;
use load::Load;
use std::process::ExitCode;
use std::{env, io};

fn main(rt: HostRuntime) -> io::Result<ExitCode> {
    let alloc = rt.alloc();
    let mut words = Vec::new(alloc);
    for word in env::args(&rt)?.skip(1) {
        words.push(word)?;
    }
    let Some(load) = Load::of_words(words.as_slice()) else {
        return Ok(ExitCode::from(2));
    };
    load.run(&rt, alloc)?;
    Ok(ExitCode::from(0))
}
