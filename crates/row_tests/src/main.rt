//! Runs the top call on small files that standard input spells, and compares what it prints with
//! what stands beside it. Standard output has a line `ok TITLE` for each row.
//!
//! A line of a row is one of these:
//!
//! - `# TITLE` begins a row.
//! - `elf NAME=BYTES ..` makes a 64-bit little-endian file of these sections, and a 32-bit
//!   big-endian one, its twin; BYTES are `HEX`, `N*HEX` for N times these bytes, or several of these
//!   with a `+` between them. `elf-32-little`, `elf-32-big` and `elf-64-big` make such a file
//!   alone, and `raw HEX` takes the bytes as they are. In HEX a `_` and what stands in brackets
//!   count for nothing. A `~` stands before a number whose bytes are turned in the twin.
//! - `name NAME` keeps the file under a name, and `file NAME` takes it again, also in later rows.
//! - `cut N` keeps the first N bytes of the file; `set N HEX` overwrites from byte N on; `long N`
//!   puts zeros behind the file in the next run, up to N bytes. Such a file has no twin.
//! - `fail NAME CALL` lets that call of the source, of out or of err fail in the next run.
//! - `run WORD ..` runs the top call, where the file is named F, and prints out, err and `status N`.
//!   A WORD may be `N*WORD` for N times that word.
//!   `last WORD ..` does the same, and prints of out the number of its lines and the last of them.
//!   Where the file has a twin and no call fails, the top call runs on that too, and what it prints
//!   stands behind it if it isn't the same. A dump whose words name no number of workers runs with 1, 2, 7 and 64 of them
//!   too, in the same way.
//! - `call NAME HEX` makes one call of a cut over these bytes, and prints its answer.
//! - `peak N` prints whether the program has taken at most N bytes of memory so far.
//! - `want TEXT` is the next line that was printed.
#![tactic(auto)]

mod calls;
mod cases;
mod commands;
mod files;
mod hex;
mod padded;
mod peak;

use cases::Case;
use commands::run_line;
use files::NamedFiles;
use std::io;

fn main(rt: HostRuntime) -> io::Result<()> {
    let mut case = Case::new(rt.alloc());
    let mut files = NamedFiles::new(rt.alloc());
    for line in rt.lines(rt.alloc()) {
        run_line(&rt, &mut case, &mut files, line?.as_str())?;
    }
    case.finish(&rt)
}
