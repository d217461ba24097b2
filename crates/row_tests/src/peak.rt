//! How much memory the program has taken.

use std::rt::Files;
use std::{fs, io};

/// The most memory that the program has had at a time, in kilobytes, as the system counts it.
fn peak_kilobytes<R: Files + AllocGlobal>(rt: &R) -> io::Result<u64> {
    let status = fs::read_to_string(rt, "/proc/self/status")?;
    for line in status.as_str().lines() {
        if let Some(rest) = line.strip_prefix("VmHWM:") {
            let number = rest.trim().split(' ').next().unwrap_or("");
            return Ok(number.parse::<u64>().unwrap_or(u64::MAX));
        }
    }
    Ok(u64::MAX)
}

/// Whether the program has had at most so many bytes of memory at a time.
pub fn peak_text<R: Files + AllocGlobal>(rt: &R, most: u64) -> io::Result<String> {
    let alloc = rt.alloc();
    let peak = peak_kilobytes(rt)?;
    if peak <= most / 1024 {
        Ok(String::from_str(alloc, "within\n")?)
    } else {
        Ok(format!(in alloc; "{peak} kilobytes\n")?)
    }
}
