//! Real files and real streams: what is written is what is read back, byte by byte, and each
//! failure is told and counted.

use dw_outside::{FileSource, ReadStop, Sink, Source, StreamSink, WriteStop, read_file, write_all};
use std::alloc::{AllocError, Global};
use std::io::{Read, Write};
use std::os::fd::AsRawFd;
use std::test::Fail;
use std::{fs, io};

/// A stream that takes so many bytes of a piece at most, and fails from a number of calls on.
#[derive(Drop)]
struct Narrow<W> {
    stream: W,
    most: usize,
    calls: usize,
    failure: io::ErrorKind,
}

impl<W: Write + Drop> Write for Narrow<W> {
    fn write(&mut self, buf: &[u8]) -> io::Result<usize> {
        if self.calls == 0 {
            return Err(io::Error::from(self.failure));
        }
        self.calls -= 1;
        let count = buf.len().min(self.most);
        self.stream.write(&buf[..count])
    }

    fn flush(&mut self) -> io::Result<()> {
        self.stream.flush()
    }
}

/// Bytes of which no two pieces of a power of two are the same.
fn pattern(alloc: Global, length: usize) -> Result<Vec<u8>, AllocError> {
    let mut bytes = Vec::with_capacity(alloc, length)?;
    for place in 0..length {
        bytes.push((place % 251) as u8 ^ (place / 65536 % 251) as u8)?;
    }
    Ok(bytes)
}

/// Three whole pieces of a read and a part of one more.
const LENGTH: usize = 3 * 65536 + 1000;

#[test]
fn what_was_written_is_read_back(rt: HostRuntime) -> Result<(), Fail> {
    let bytes = pattern(rt.alloc(), LENGTH)?;
    let mut sink = StreamSink::new(fs::create(&rt, "whole.tmp")?);
    assert_eq!(rt; write_all(&mut sink, bytes.as_slice()), Ok(()));
    let mut source = FileSource::new(&rt);
    for limit in [0, 65535, 65536, 200_000] {
        let read = read_file(rt.alloc(), &mut source, "whole.tmp", limit);
        let file = read.ok().ok_or("refused")?;
        assert_eq!(rt; file.len() as u64, (LENGTH as u64).min(limit + 1));
        assert!(rt;
            bytes.as_slice().starts_with(file.as_slice()),
            "limit {limit}"
        );
    }
    let mut buffer = [0; 7];
    for place in [LENGTH - 7, 65533, 0] {
        assert_eq!(rt; source.read("whole.tmp", &mut buffer, place as u64), Ok(7));
        assert_eq!(rt;
            Some(buffer.as_slice()),
            bytes.get(place..place + 7),
            "place {place}"
        );
    }
    assert_eq!(rt; source.read("whole.tmp", &mut buffer, LENGTH as u64), Ok(0));
    fs::remove_file(&rt, "whole.tmp")?;
    Ok(())
}

#[test]
fn one_source_reads_one_file(rt: HostRuntime) -> Result<(), Fail> {
    fs::write(&rt, "first.tmp", b"first file")?;
    fs::write(&rt, "second.tmp", b"other file")?;
    let mut source = FileSource::new(&rt);
    let mut buffer = [0; 5];
    assert_eq!(rt; source.read("first.tmp", &mut buffer, 0), Ok(5));
    fs::rename(&rt, "second.tmp", "first.tmp")?;
    assert_eq!(rt; source.read("first.tmp", &mut buffer, 0), Ok(5));
    assert_eq!(rt; &buffer, b"first");
    let mut later = FileSource::new(&rt);
    assert_eq!(rt; later.read("first.tmp", &mut buffer, 0), Ok(5));
    assert_eq!(rt; &buffer, b"other");
    fs::remove_file(&rt, "first.tmp")?;
    Ok(())
}

#[test]
fn files_that_cannot_be_read_are_faults(rt: HostRuntime) -> Result<(), Fail> {
    let mut source = FileSource::new(&rt);
    let long = [b'a'; 5000];
    let long = std::str::from_utf8(&long).ok().ok_or("a text")?;
    let mut buffer = [0; 5];
    for name in ["no such file", ".", "", "a\0b", long] {
        assert_eq!(rt;
            source.read(name, &mut buffer, 0),
            Err(ReadStop::Failed),
            "name {name}"
        );
    }
    Ok(())
}

#[test]
fn pipes_are_read_from_front_to_back(rt: HostRuntime) -> Result<(), Fail> {
    let bytes = pattern(rt.alloc(), 40_000)?;
    let (reader, writer) = io::pipe(&rt)?;
    let mut sink = StreamSink::new(writer);
    assert_eq!(rt; write_all(&mut sink, bytes.as_slice()), Ok(()));
    drop(sink);
    let name = format!(in rt.alloc(); "/proc/self/fd/{}", reader.as_raw_fd())?;
    let mut source = FileSource::new(&rt);
    let read = read_file(rt.alloc(), &mut source, name.as_str(), 100_000);
    let file = read.ok().ok_or("refused")?;
    assert!(rt; file.as_slice() == bytes.as_slice());
    let mut buffer = [0; 5];
    assert_eq!(rt;
        source.read(name.as_str(), &mut buffer, 0),
        Err(ReadStop::Failed)
    );
    Ok(())
}

#[test]
fn short_writes_go_on_and_failing_ones_stop(rt: HostRuntime) -> Result<(), Fail> {
    let bytes = pattern(rt.alloc(), 100)?;
    for (most, calls, failure, expected) in [
        (7, 15, io::ErrorKind::BrokenPipe, Ok(())),
        (7, 3, io::ErrorKind::BrokenPipe, Err(WriteStop::Failed)),
        (
            7,
            3,
            io::ErrorKind::OutOfMemory,
            Err(WriteStop::OutOfMemory),
        ),
        (0, 9, io::ErrorKind::BrokenPipe, Err(WriteStop::Failed)),
    ] {
        let stream = fs::create(&rt, "narrow.tmp")?;
        let narrow = Narrow {
            stream,
            most,
            calls,
            failure,
        };
        let mut sink = StreamSink::new(narrow);
        assert_eq!(rt; write_all(&mut sink, bytes.as_slice()), expected);
        let written = fs::read(&rt, "narrow.tmp")?;
        assert_eq!(rt; written.len(), bytes.len().min(most * calls));
        assert!(rt;
            bytes.as_slice().starts_with(written.as_slice()),
            "{most} bytes, {calls} calls"
        );
    }
    fs::remove_file(&rt, "narrow.tmp")?;
    Ok(())
}
