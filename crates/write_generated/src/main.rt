//! Writes generated files in hexadecimal digits, so that they can be compared with what the format says and
//! read by other tools.
//!
//! A line of standard input is a number of units, and perhaps the word `length`. Standard output has a line with the number of
//! units and the number of the file's bytes, and then, without that word, the bytes, 32 on a line.
#![tactic(auto)]

use dw_text::push_hex_bytes;
use exercise_file::{MOST_UNITS, generate};
use std::alloc::Global;
use std::io;

fn main(rt: HostRuntime) -> io::Result<()> {
    for line in rt.lines(rt.alloc()) {
        write_file(&rt, rt.alloc(), line?.as_str())?;
    }
    Ok(())
}

/// Writes the file that a line asks for.
fn write_file<R: Print>(rt: &R, alloc: Global, line: &str) -> io::Result<()> {
    let (number, rest) = line.split_once(' ').unwrap_or((line, ""));
    let units = number.parse::<u64>().unwrap_or(u64::MAX);
    if units > MOST_UNITS {
        println!(rt; "not a number of units: {line}")?;
        return Ok(());
    }
    let file = generate(alloc, units)?;
    println!(rt; "{units} units, {} bytes", file.len())?;
    if rest == "length" {
        return Ok(());
    }
    write_digits(rt, alloc, file.as_slice())
}

/// Writes bytes, 32 on a line.
fn write_digits<R: Print>(rt: &R, alloc: Global, bytes: &[u8]) -> io::Result<()> {
    let mut text = Vec::new(alloc);
    for part in bytes.chunks(32) {
        text.clear();
        push_hex_bytes(&mut text, part)?;
        let digits = std::str::from_utf8(text.as_slice()).unwrap_or("");
        println!(rt; "{digits}")?;
    }
    Ok(())
}
