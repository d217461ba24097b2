//! Real files: one half of the trusted edge, of whose content nothing is told.
ghost use Rattle.std.specs.Prelude.{◌≡◌, None, IfOk, MatchResult};
ghost use Rattle.std.specs.Io.{ReadsAtMost};
ghost use Rattle.dw_outside.specs.Reads.{ReadsFrom};
ghost use Rattle.dw_outside.specs.Faults.{HasCause, after_read};
ghost use Rattle.dw_outside.specs.declared.stops.ReadStop.TheVariants as read_stops;

use super::stops::ReadStop;
use super::traits::Source;
use arrayvec::ArrayString;
use std::io::{Read, Seek, SeekFrom};
use std::marker::Model;
use std::rt::Files;
use std::{fs, io};

/// The bytes of the longest path that is opened. The machine takes none that is longer
/// (`PATH_MAX`).
const PATH_BYTES: usize = 4096;

/// A file that is kept open, under the path that it was opened by.
#[derive(Drop)]
struct OpenedFile<F> {
    path: ArrayString<PATH_BYTES>,
    file: F,
    /// Where the file's next read begins, where that is known.
    place: Option<u64>,
}

/// The files of the machine, by their paths.
///
/// A file is opened at the first read under its path and stays open until another path is read, so
/// that all reads under one path are of one file, also where the path is given to another file
/// meanwhile. A read that goes on where the last one ended doesn't seek, so that a pipe can be read
/// from front to back.
///
/// A folder, or a file that can't be opened, is a fault. Contracts see the count of faults alone.
#[derive(Drop)]
pub struct FileSource<R: Files> {
    rt: R,
    opened: Option<OpenedFile<R::File>>,
    faults: u64,
}

impl<R: Files> Model for FileSource<R> {
    ghost use Rattle.std.specs.Prelude.{ℕ};

    ghost Value = { ℕ };

    ghost view = { λ s. s.faults };
}

impl<R: Files> FileSource<R> {
    /// A source that reads by way of this runtime.
    pub fn new(rt: R) -> Self
        ensures { result ≡ 0 }
    {
        FileSource {
            rt,
            opened: None,
            faults: 0,
        }
    }
}

impl<R: Files> Source for FileSource<R> {
    ghost holds = { λ _ _. None };

    ghost faults = { λ s. s };

    fn read(&mut self, name: &str, into: &mut [u8], from: u64) -> Result<usize, ReadStop>
        ensures bytes { IfOk result (λ n. ReadsFrom None from n into.new) }
        ensures cause { HasCause read_stops.Failed self.old self.new result }
        ensures count { MatchResult result (λ _. self.new ≡ self.old)
            (λ stop. self.new ≡ after_read stop self.old) }
    {
        match read_kept(&self.rt, &mut self.opened, name, into, from) {
            Ok(count) => Ok(count),
            Err(error) => {
                if error.kind() == io::ErrorKind::OutOfMemory {
                    return Err(ReadStop::OutOfMemory);
                }
                self.faults = self.faults.saturating_add(1);
                Err(ReadStop::Failed)
            }
        }
    }
}

/// One read of the file of that path, which is opened where it isn't the one that is open.
fn read_kept<R: Files>(
    rt: &R,
    opened: &mut Option<OpenedFile<R::File>>,
    path: &str,
    into: &mut [u8],
    from: u64,
) -> io::Result<usize>
    ensures { ReadsAtMost result into.new }
{
    match opened {
        Some(kept) if kept.path.as_str() == path => read_at(kept, into, from),
        _ => {
            let mut new = open(rt, path)?;
            let count = read_at(&mut new, into, from);
            *opened = Some(new);
            count
        }
    }
}

/// Opens the file of that path.
fn open<R: Files>(rt: &R, path: &str) -> io::Result<OpenedFile<R::File>> {
    let kept = match ArrayString::from(path) {
        Ok(kept) => kept,
        Err(_) => return Err(io::Error::from(io::ErrorKind::InvalidFilename)),
    };
    let file = fs::open(rt, path)?;
    Ok(OpenedFile {
        path: kept,
        file,
        place: Some(0),
    })
}

/// One read of an open file at a place.
fn read_at<F: Read + Seek>(
    opened: &mut OpenedFile<F>,
    into: &mut [u8],
    from: u64,
) -> io::Result<usize>
    ensures { ReadsAtMost result into.new }
{
    if opened.place != Some(from) {
        opened.place = None;
        opened.file.seek(SeekFrom::Start(from))?;
    }
    opened.place = None;
    let count = opened.file.read(into)?;
    opened.place = from.checked_add(count as u64);
    Ok(count)
}
