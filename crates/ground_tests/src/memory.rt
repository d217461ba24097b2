//! Each source and sink in memory once, with memory for all that it takes.

use dw_outside::{
    Gate, MemorySink, MemorySource, NoFaultSink, NoFaultSource, OpenGate, ReadStop, Sink, Source,
    WriteStop, read_file, write_all,
};
use std::alloc::{AllocError, Global};
use std::test::Fail;

fn name(alloc: Global) -> Result<String, AllocError> {
    String::from_str(alloc, "F")
}

fn bytes(alloc: Global) -> Result<Vec<u8>, AllocError> {
    Vec::from_slice(alloc, b"0123456789")
}

#[test]
fn memory_source_fails_where_it_is_told(rt: HostRuntime) -> Result<(), Fail> {
    let alloc = rt.alloc();
    let failing = Vec::from_slice(alloc, &[2])?;
    let mut source = MemorySource::new(name(alloc)?, bytes(alloc)?, failing);
    let mut buffer = [0; 4];
    assert_eq!(rt; source.read("F", &mut buffer, 7), Ok(3));
    assert_eq!(rt; &buffer[..3], b"789".as_slice());
    assert_eq!(rt; source.read("F", &mut buffer, 0), Err(ReadStop::Failed));
    assert_eq!(rt; source.read("G", &mut buffer, 0), Err(ReadStop::Failed));
    assert_eq!(rt; source.read("F", &mut buffer, 10), Ok(0));
    assert_eq!(rt; source.faults(), 2);
    Ok(())
}

#[test]
fn memory_sink_fails_where_it_is_told(rt: HostRuntime) -> Result<(), Fail> {
    let alloc = rt.alloc();
    let mut sink = MemorySink::new(alloc, Vec::from_slice(alloc, &[2])?);
    assert_eq!(rt; write_all(&mut sink, b"abc"), Ok(()));
    assert_eq!(rt; write_all(&mut sink, b"def"), Err(WriteStop::Failed));
    assert_eq!(rt; sink.write(b"ghi"), Ok(3));
    assert_eq!(rt; sink.bytes(), b"abcghi".as_slice());
    assert_eq!(rt; sink.faults(), 1);
    Ok(())
}

#[test]
fn files_are_read_up_to_the_limit(rt: HostRuntime) -> Result<(), Fail> {
    let alloc = rt.alloc();
    let mut source = NoFaultSource::new(name(alloc)?, bytes(alloc)?);
    for (file, limit, expected) in [
        ("F", 3, b"0123".as_slice()),
        ("F", 9, b"0123456789".as_slice()),
        ("F", 100, b"0123456789".as_slice()),
        ("G", 100, b"".as_slice()),
    ] {
        let read = read_file(alloc, &mut source, file, limit)
            .ok()
            .ok_or("refused")?;
        assert_eq!(rt; read.as_slice(), expected);
    }
    Ok(())
}

#[test]
fn sinks_without_faults_take_all(rt: HostRuntime) -> Result<(), Fail> {
    let mut sink = NoFaultSink::new(rt.alloc());
    assert_eq!(rt; write_all(&mut sink, b"abc"), Ok(()));
    assert_eq!(rt; sink.bytes(), b"abc".as_slice());
    OpenGate.enter(0, 0);
    OpenGate.leave(0, 0);
    Ok(())
}

#[test]
fn stops_are_told_in_words(rt: HostRuntime) -> Result<(), Fail> {
    let read = format!(in rt.alloc(); "{}, {}", ReadStop::Failed, ReadStop::OutOfMemory)?;
    assert_eq!(rt; read.as_str(), "the file could not be read, out of memory");
    let written = format!(in rt.alloc(); "{}, {}", WriteStop::Failed, WriteStop::OutOfMemory)?;
    assert_eq!(rt;
        written.as_str(),
        "the bytes could not be written, out of memory"
    );
    Ok(())
}
