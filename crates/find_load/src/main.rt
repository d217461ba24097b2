//! Finds the declarations of an opened file again and again, and prints what was found.
//!
//! The words are `TABLES DECLARATIONS ROUNDS`, and perhaps `times`. A file is made in memory with TABLES abbreviation
//! tables of DECLARATIONS declarations each, and opened. Each declaration is found once, which walks to it and puts it
//! into the table of the opened file, and then ROUNDS times more, which walks no more. What is printed is how many
//! finds answered a declaration and how many did not, the sum of the declarations' places, and the steps of the walks;
//! `times` adds the nanoseconds of both phases. Other words give status 2.
#![tactic(auto)]

mod finding;
mod load;
mod tables;

use load::Load;
use std::process::ExitCode;
use std::{env, io};

fn main(rt: HostRuntime) -> io::Result<ExitCode> {
    let alloc = rt.alloc();
    let mut words = Vec::new(alloc);
    for word in env::args(&rt)?.skip(1) {
        words.push(word)?;
    }
    let Some(load) = Load::of_words(words.as_slice()) else {
        return Ok(ExitCode::from(2));
    };
    if load.run(&rt, alloc)? {
        Ok(ExitCode::from(0))
    } else {
        Ok(ExitCode::from(1))
    }
}
