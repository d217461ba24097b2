//! `dwtool`: prints the debugging information of ELF files (docs/FORMATS.md).
#![tactic(auto)]

use dw_outside::{FileSource, OpenGate, Sink, Source, StreamSink};
use dw_run::{RunEnd, run};
use std::alloc::{AllocError, Global};
use std::process::ExitCode;
use std::rt::Env;
use std::thread::Threads;
use std::{env, io};
use visit_queries::{Functions, NamedVisitor, Types, Variables, Visitor};

/// How many entries a visitor keeps.
const MOST_ENTRIES: u64 = 1_000_000;

/// The status for want of memory before the words are read.
const NO_MEMORY: u8 = 5;

fn main(rt: HostRuntime) -> ExitCode {
    let alloc = rt.alloc();
    let words = match words_of(&rt, alloc) {
        Ok(words) => words,
        Err(error) if error.kind() == io::ErrorKind::OutOfMemory => {
            return ExitCode::from(NO_MEMORY);
        }
        // a word that isn't UTF-8: no words have no meaning either
        Err(_) => Vec::new(alloc),
    };
    let mut out = StreamSink::new(rt.stdout());
    let mut err = StreamSink::new(rt.stderr());
    let mut source = FileSource::new(&rt);
    match run_with_visitors(
        &rt,
        alloc,
        words.as_slice(),
        &mut source,
        &mut out,
        &mut err,
    ) {
        Ok(end) => ExitCode::from(end.status),
        Err(_) => ExitCode::from(NO_MEMORY),
    }
}

/// Runs with a visitor for each name that a query may give.
fn run_with_visitors<R: Threads + Sync, S: Source, O: Sink, E: Sink>(
    rt: &R,
    alloc: Global,
    words: &[String],
    source: &mut S,
    out: &mut O,
    err: &mut E,
) -> Result<RunEnd, AllocError> {
    let functions: Box<dyn Visitor> = Box::new(alloc, Functions::new(alloc, MOST_ENTRIES))?;
    let variables: Box<dyn Visitor> = Box::new(alloc, Variables::new(alloc, MOST_ENTRIES))?;
    let types: Box<dyn Visitor> = Box::new(alloc, Types::new(alloc, MOST_ENTRIES))?;
    let mut visitors = Vec::new(alloc);
    visitors.push(named(alloc, "functions", functions)?)?;
    visitors.push(named(alloc, "variables", variables)?)?;
    visitors.push(named(alloc, "types", types)?)?;
    Ok(run(rt, alloc, words, source, out, err, visitors, &OpenGate))
}

/// A visitor with a name.
fn named(alloc: Global, name: &str, visitor: Box<dyn Visitor>) -> Result<NamedVisitor, AllocError> {
    let name = String::from_str(alloc, name)?;
    Ok(NamedVisitor { name, visitor })
}

/// The words after the program's name.
fn words_of<R: Env + AllocGlobal>(rt: &R, alloc: Global) -> io::Result<Vec<String>> {
    let mut words = Vec::new(alloc);
    for word in env::args(rt)?.skip(1) {
        words.push(word)?;
    }
    Ok(words)
}
