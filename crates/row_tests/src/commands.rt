//! The commands of a line.

use crate::calls::call;
use crate::cases::Case;
use crate::files::{NamedFiles, RowFile};
use crate::hex::{bytes_of, joined_bytes_of};
use crate::padded::PaddedSource;
use crate::peak::peak_text;
use dw_fields::Order;
use dw_outside::{MemorySink, MemorySource, OpenGate, Source};
use dw_run::{ElfBuilder, run};
use std::alloc::{AllocError, Global};
use std::io;
use std::rt::Files;
use std::thread::Threads;
use visit_queries::{Functions, NamedVisitor, Types, Variables, Visitor};

/// How many entries a visitor keeps.
const MOST_ENTRIES: u64 = 7;

/// The numbers of workers that a dump is repeated with.
const WORKERS: [&str; 4] = ["1", "2", "7", "64"];

/// Does what the line says.
pub fn run_line<R: Print + Files + AllocGlobal + Threads + Sync>(
    rt: &R,
    row: &mut Case,
    files: &mut NamedFiles,
    line: &str,
) -> io::Result<()> {
    let alloc = rt.alloc();
    let (command, rest) = line.split_once(' ').unwrap_or((line, ""));
    match command {
        "#" => {
            row.finish(rt)?;
            row.begin(alloc, rest)?;
        }
        "elf" => row.file = elf_file(alloc, rest)?,
        "elf-32-little" => row.file = shaped_file(alloc, rest, false, Order::Little)?,
        "elf-32-big" => row.file = shaped_file(alloc, rest, false, Order::Big)?,
        "elf-64-big" => row.file = shaped_file(alloc, rest, true, Order::Big)?,
        "raw" => row.file = RowFile::alone(bytes_of(alloc, rest, Order::Little)?),
        "name" => files.keep(alloc, rest, &row.file)?,
        "file" => row.file = files.find(alloc, rest)?,
        "long" => row.lengthen(rest.parse::<u64>().unwrap_or(0)),
        "cut" => row.cut(rest.parse::<usize>().unwrap_or(0)),
        "set" => {
            let (place, hex) = rest.split_once(' ').unwrap_or(("", ""));
            let bytes = bytes_of(alloc, hex, Order::Little)?;
            row.set(place.parse::<usize>().unwrap_or(0), bytes.as_slice());
        }
        "fail" => {
            let (name, call) = rest.split_once(' ').unwrap_or(("", ""));
            row.fail(name, call.parse::<u64>().unwrap_or(0))?;
        }
        "run" => answer(rt, alloc, row, rest, false)?,
        "last" => answer(rt, alloc, row, rest, true)?,
        "call" => {
            let (name, hex) = rest.split_once(' ').unwrap_or((rest, ""));
            let bytes = bytes_of(alloc, hex, Order::Little)?;
            row.print(call(alloc, name, bytes.as_slice())?.as_bytes())?;
        }
        "peak" => {
            let most = rest.parse::<u64>().unwrap_or(0);
            row.print(peak_text(rt, most)?.as_bytes())?;
        }
        "want" => row.want(rt, rest)?,
        "" => {}
        _ => println!(rt; "unknown line: {line}")?,
    }
    Ok(())
}

/// A 64-bit little-endian file of the sections, and its twin.
fn elf_file(alloc: Global, sections: &str) -> io::Result<RowFile> {
    let bytes = elf_bytes(alloc, sections, ElfBuilder::new(alloc), Order::Little)?;
    let builder = ElfBuilder::shaped(alloc, false, Order::Big);
    let twin = elf_bytes(alloc, sections, builder, Order::Big)?;
    Ok(RowFile {
        bytes,
        twin: Some(twin),
    })
}

/// A file of this class and byte order, of sections whose bytes are taken as they stand.
fn shaped_file(alloc: Global, sections: &str, wide: bool, order: Order) -> io::Result<RowFile> {
    let builder = ElfBuilder::shaped(alloc, wide, order);
    let bytes = elf_bytes(alloc, sections, builder, Order::Little)?;
    Ok(RowFile::alone(bytes))
}

/// The file that a builder makes of the sections, whose numbers have this byte order.
fn elf_bytes(
    alloc: Global,
    sections: &str,
    mut builder: ElfBuilder,
    order: Order,
) -> io::Result<Vec<u8>> {
    for section in sections.split_whitespace() {
        let (name, hex) = section.split_once('=').unwrap_or((section, ""));
        let bytes = joined_bytes_of(alloc, hex, order)?;
        builder.add(name, bytes.as_slice())?;
    }
    Ok(builder.finish()?)
}

/// The words of a line: a word `N*WORD` stands for N times that word.
fn words_of(alloc: Global, line: &str) -> io::Result<Vec<String>> {
    let mut words = Vec::new(alloc);
    for word in line.split_whitespace() {
        let (times, word) = word.split_once('*').unwrap_or(("1", word));
        for _ in 0..times.parse::<u32>().unwrap_or(0) {
            words.push(String::from_str(alloc, word)?)?;
        }
    }
    Ok(words)
}

/// Prints what the top call prints on the row's file. Its twin must print the same, and a dump with other numbers of
/// workers too.
fn answer<R: Threads + Sync>(
    rt: &R,
    alloc: Global,
    row: &mut Case,
    line: &str,
    counted: bool,
) -> io::Result<()> {
    let words = words_of(alloc, line)?;
    let printed = text_of_run(rt, alloc, row, words.as_slice(), counted)?;
    row.print(printed.as_slice())?;
    if let Some(twin) = row.twin()? {
        let mut source = named_source(alloc, row, twin)?;
        let other = text_from(rt, alloc, row, words.as_slice(), &mut source, counted)?;
        if other.as_slice() != printed.as_slice() {
            row.print(b"as a 32-bit big-endian file:\n")?;
            row.print(other.as_slice())?;
        }
    }
    if let Some(behind) = words_behind_dump(words.as_slice()) {
        for workers in WORKERS {
            let words = dump_words(alloc, workers, behind)?;
            let other = text_of_run(rt, alloc, row, words.as_slice(), counted)?;
            if other.as_slice() != printed.as_slice() {
                row.print(format!(in alloc; "with {workers} workers:\n")?.as_bytes())?;
                row.print(other.as_slice())?;
            }
        }
    }
    row.forgive();
    Ok(())
}

/// What stands behind the word `dump`, where no number of workers is among it.
fn words_behind_dump(words: &[String]) -> Option<&[String]> {
    let [command, behind @ ..] = words else {
        return None;
    };
    if command.as_str() != "dump" {
        return None;
    }
    for word in behind {
        if word.as_str().starts_with("--workers") {
            return None;
        }
    }
    Some(behind)
}

/// The words of a dump by so many workers.
fn dump_words(alloc: Global, workers: &str, behind: &[String]) -> io::Result<Vec<String>> {
    let mut words = Vec::new(alloc);
    words.push(String::from_str(alloc, "dump")?)?;
    words.push(String::from_str(alloc, "--workers")?)?;
    words.push(String::from_str(alloc, workers)?)?;
    for word in behind {
        words.push(String::from_str(alloc, word.as_str())?)?;
    }
    Ok(words)
}

/// A source that holds the bytes under the name F.
fn named_source(alloc: Global, row: &Case, bytes: Vec<u8>) -> io::Result<MemorySource> {
    let name = String::from_str(alloc, "F")?;
    let failing = row.failing_source.clone()?;
    Ok(MemorySource::new(name, bytes, failing))
}

/// What the top call prints on the row's file.
fn text_of_run<R: Threads + Sync>(
    rt: &R,
    alloc: Global,
    row: &Case,
    words: &[String],
    counted: bool,
) -> io::Result<Vec<u8>> {
    let file = row.file.bytes.clone()?;
    if row.length > file.len() as u64 {
        let mut source = PaddedSource {
            bytes: file.as_slice(),
            length: row.length,
        };
        return text_from(rt, alloc, row, words, &mut source, counted);
    }
    let mut source = named_source(alloc, row, file)?;
    text_from(rt, alloc, row, words, &mut source, counted)
}

/// What the top call prints on what the source holds: out, err and the status.
fn text_from<R: Threads + Sync, S: Source>(
    rt: &R,
    alloc: Global,
    row: &Case,
    words: &[String],
    source: &mut S,
    counted: bool,
) -> io::Result<Vec<u8>> {
    let mut out = MemorySink::new(alloc, row.failing_out.clone()?);
    let mut err = MemorySink::new(alloc, row.failing_err.clone()?);
    let functions: Box<dyn Visitor> = Box::new(alloc, Functions::new(alloc, MOST_ENTRIES))?;
    let variables: Box<dyn Visitor> = Box::new(alloc, Variables::new(alloc, MOST_ENTRIES))?;
    let types: Box<dyn Visitor> = Box::new(alloc, Types::new(alloc, MOST_ENTRIES))?;
    let mut visitors = Vec::new(alloc);
    visitors.push(named(alloc, "functions", functions)?)?;
    visitors.push(named(alloc, "variables", variables)?)?;
    visitors.push(named(alloc, "types", types)?)?;
    let end = run(
        rt, alloc, words, source, &mut out, &mut err, visitors, &OpenGate,
    );
    let mut text = Vec::new(alloc);
    if counted {
        push_last(alloc, &mut text, out.bytes())?;
    } else {
        text.extend_from_slice(out.bytes())?;
    }
    text.extend_from_slice(err.bytes())?;
    let status = end.status;
    text.extend_from_slice(format!(in alloc; "status {status}\n")?.as_bytes())?;
    Ok(text)
}

/// A visitor with a name.
fn named(alloc: Global, name: &str, visitor: Box<dyn Visitor>) -> Result<NamedVisitor, AllocError> {
    let name = String::from_str(alloc, name)?;
    Ok(NamedVisitor { name, visitor })
}

/// How many lines there are, and the last of them.
fn push_last(alloc: Global, text: &mut Vec<u8>, bytes: &[u8]) -> io::Result<()> {
    let mut lines = 0u64;
    let mut last = bytes;
    for line in bytes.split_inclusive(|byte| *byte == b'\n') {
        lines = lines.saturating_add(1);
        last = line;
    }
    text.extend_from_slice(format!(in alloc; "{lines} lines, and the last is\n")?.as_bytes())?;
    text.extend_from_slice(last)?;
    Ok(())
}
