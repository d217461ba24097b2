//! A row: its file, the calls that are to fail in its next run, and what was printed.

use crate::files::RowFile;
use std::alloc::{AllocError, Global};
use std::io::{self, Write};

/// What the next run reads, which calls fail in it, and what the runs so far printed.
#[derive(Drop)]
pub struct Case {
    pub file: RowFile,
    /// How long the file is made by zeros behind it, where that is longer than it is.
    pub length: u64,
    pub failing_source: Vec<u64>,
    pub failing_out: Vec<u64>,
    pub failing_err: Vec<u64>,
    title: String,
    printed: Vec<u8>,
    /// Where the next line of what was printed begins that wasn't wanted yet.
    next: usize,
    failed: bool,
}

impl Case {
    /// A row with an empty file, in which no call fails.
    pub fn new(alloc: Global) -> Case {
        Case {
            file: RowFile::alone(Vec::new(alloc)),
            length: 0,
            failing_source: Vec::new(alloc),
            failing_out: Vec::new(alloc),
            failing_err: Vec::new(alloc),
            title: String::new(alloc),
            printed: Vec::new(alloc),
            next: 0,
            failed: false,
        }
    }

    /// Begins the row of this title.
    pub fn begin(&mut self, alloc: Global, title: &str) -> Result<(), AllocError> {
        self.title = String::from_str(alloc, title)?;
        self.printed.clear();
        self.next = 0;
        self.failed = false;
        Ok(())
    }

    /// Keeps the first `length` bytes of the file.
    pub fn cut(&mut self, length: usize) {
        self.file.twin = None;
        self.file.bytes.truncate(length);
    }

    /// Overwrites the file from byte `place` on, as far as it goes.
    pub fn set(&mut self, place: usize, bytes: &[u8]) {
        self.file.twin = None;
        for (i, byte) in bytes.iter().enumerate() {
            if let Some(at) = place.checked_add(i) {
                if let Some(old) = self.file.bytes.get_mut(at) {
                    *old = *byte;
                }
            }
        }
    }

    /// Puts zeros behind the file in the next run, up to so many bytes.
    pub fn lengthen(&mut self, length: u64) {
        self.file.twin = None;
        self.length = length;
    }

    /// The same sections in a 32-bit big-endian file, where the next run means the same for it.
    pub fn twin(&self) -> Result<Option<Vec<u8>>, AllocError> {
        if !self.failing_source.is_empty()
            || !self.failing_out.is_empty()
            || !self.failing_err.is_empty()
        {
            return Ok(None);
        }
        match &self.file.twin {
            Some(twin) => Ok(Some(twin.clone()?)),
            None => Ok(None),
        }
    }

    /// Lets a call of `source`, `out` or `err` fail in the next run.
    pub fn fail(&mut self, name: &str, call: u64) -> Result<(), AllocError> {
        match name {
            "source" => self.failing_source.push(call)?,
            "out" => self.failing_out.push(call)?,
            _ => self.failing_err.push(call)?,
        }
        Ok(())
    }

    /// No call fails any more, and the file is no longer than it is.
    pub fn forgive(&mut self) {
        self.length = 0;
        self.failing_source.clear();
        self.failing_out.clear();
        self.failing_err.clear();
    }

    /// Takes what a run or a call printed.
    pub fn print(&mut self, bytes: &[u8]) -> Result<(), AllocError> {
        self.printed.extend_from_slice(bytes)
    }

    /// Compares the next printed line with the one that is wanted, and shows both where they
    /// differ.
    pub fn want<R: Print>(&mut self, rt: &R, wanted: &str) -> io::Result<()> {
        let line = next_line(self.printed.as_slice(), self.next);
        if line != Some(wanted.as_bytes()) {
            self.failed = true;
            println!(rt; "wanted: {wanted}")?;
            show(rt, "found:  ", line.unwrap_or(b"no line"))?;
            rt.println("")?;
        }
        self.next = behind(self.next, line);
        Ok(())
    }

    /// Shows the lines that nothing wanted, and says whether the row is as it should be.
    pub fn finish<R: Print>(&mut self, rt: &R) -> io::Result<()> {
        let rest = self.printed.get(self.next..).unwrap_or(b"");
        for line in rest.split_inclusive(|byte| *byte == b'\n') {
            self.failed = true;
            show(rt, "found:  ", line)?;
        }
        let title = self.title.as_str();
        if title.is_empty() {
            return Ok(());
        }
        if self.failed {
            println!(rt; "FAILED {title}")
        } else {
            println!(rt; "ok {title}")
        }
    }
}

/// The line that begins at a place, without its newline.
fn next_line(printed: &[u8], place: usize) -> Option<&[u8]> {
    match printed.get(place..) {
        Some(rest) if !rest.is_empty() => rest.split(|byte| *byte == b'\n').next(),
        _ => None,
    }
}

/// The place behind the line that begins at a place.
fn behind(place: usize, line: Option<&[u8]>) -> usize {
    match line {
        Some(line) => place.saturating_add(line.len()).saturating_add(1),
        None => place,
    }
}

/// Prints a word and a line.
fn show<R: Print>(rt: &R, word: &str, line: &[u8]) -> io::Result<()> {
    rt.print(word)?;
    let mut writer = io::writer(rt);
    writer.write_all(line)
}
