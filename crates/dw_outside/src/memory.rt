//! A source and a sink in memory that fail at the calls that a test names.
ghost use Rattle.std.specs.Prelude.{◌≡◌, ◌↔◌, ℕ, List, [], IsTrue, IsErrOf, IfOk, length, Ok, Err, Some, if◌then◌else◌, string_bytes};
ghost use Rattle.dw_outside.specs.Reads.{ReadsFrom};
ghost use Rattle.dw_outside.specs.Gains.{Takes};
ghost use Rattle.dw_outside.specs.Faults.{HasCause, counted};
ghost use Rattle.dw_outside.specs.Memory.{refuses, fails_next, faults_after, read_count, told_under};
ghost use Rattle.dw_outside.specs.declared.stops.ReadStop.TheVariants as read_stops;
ghost use Rattle.dw_outside.specs.declared.stops.WriteStop.TheVariants as write_stops;

use super::stops::{ReadStop, WriteStop};
use super::traits::{Sink, Source};
use std::alloc::Global;
use std::marker::Model;

/// A source that holds one file in memory. It tells what that file holds.
///
/// Its calls are numbered from 1. A call whose number is in its list of failing calls, or that asks
/// for another name, fails and is counted.
#[derive(Drop)]
pub struct MemorySource {
    name: String,
    bytes: Vec<u8>,
    failing: Vec<u64>,
    calls: u64,
    faults: u64,
}

impl Model for MemorySource {
    ghost use Rattle.std.specs.Prelude.{string_bytes};
    ghost use Rattle.dw_outside.specs.Memory.{SourceState};

    ghost Value = { SourceState };

    ghost view = { λ s. record {
      name = string_bytes s.name;
      bytes = s.bytes.items;
      failing = s.failing.items;
      calls = s.calls;
      faults = s.faults;
    } };
}

impl MemorySource {
    /// A source that holds `bytes` under `name` and fails at the calls of the numbers in `failing`.
    pub fn new(name: String, bytes: Vec<u8>, failing: Vec<u64>) -> Self
        ensures { result ≡ record {
          name = string_bytes name;
          bytes = bytes.items;
          failing = failing.items;
          calls = 0;
          faults = 0;
        } }
    {
        MemorySource {
            name,
            bytes,
            failing,
            calls: 0,
            faults: 0,
        }
    }

    /// How many calls have failed.
    pub fn faults(&self) -> u64
        ensures { result ≡ self.now.faults }
    {
        self.faults
    }

    /// Whether the next read under this name fails.
    #[tactic(auto, unfolding(crate::specs::Memory::refuses))]
    fn refuses(&self, name: &str) -> bool
        ensures { result ≡ refuses self.now name.now }
    {
        is_failing(self.failing.as_slice(), self.calls) || self.name.as_str() != name
    }
}

impl Source for MemorySource {
    ghost holds = { λ s other. told_under s.name s.bytes other };

    ghost faults = { λ s. s.faults };

    fn read(&mut self, name: &str, into: &mut [u8], from: u64) -> Result<usize, ReadStop>
        ensures bytes { IfOk result
            (λ n. ReadsFrom (told_under self.old.name self.old.bytes name.now) from n into.new) }
        ensures same { (other : List ℕ) → told_under self.new.name self.new.bytes other
            ≡ told_under self.old.name self.old.bytes other }
        ensures cause { HasCause read_stops.Failed self.old.faults self.new.faults result }
        ensures gives { result ≡ (if refuses self.old name.now then Err read_stops.Failed
            else Ok (read_count self.old.bytes from (length into.old))) }
        ensures calls { self.new.calls ≡ counted self.old.calls }
        ensures faults { self.new.faults
            ≡ faults_after (refuses self.old name.now) self.old.faults }
        ensures kept { self.new.failing ≡ self.old.failing }
    {
        let failed = self.refuses(name);
        self.calls = self.calls.saturating_add(1);
        if failed {
            self.faults = self.faults.saturating_add(1);
            return Err(ReadStop::Failed);
        }
        Ok(copy_from(self.bytes.as_slice(), from, into))
    }
}

/// A sink that holds in memory what it took, and tells it.
///
/// Its calls are numbered from 1. A call whose number is in its list of failing calls fails and is
/// counted. Every other call takes its whole piece, or finds no memory for it.
#[derive(Drop)]
pub struct MemorySink {
    bytes: Vec<u8>,
    failing: Vec<u64>,
    calls: u64,
    faults: u64,
}

impl Model for MemorySink {
    ghost use Rattle.dw_outside.specs.Memory.{SinkState};

    ghost Value = { SinkState };

    ghost view = { λ s. record {
      bytes = s.bytes.items;
      failing = s.failing.items;
      calls = s.calls;
      faults = s.faults;
    } };
}

impl MemorySink {
    /// An empty sink that fails at the calls of the numbers in `failing`.
    pub fn new(alloc: Global, failing: Vec<u64>) -> Self
        ensures { result ≡ record { bytes = []; failing = failing.items; calls = 0; faults = 0 } }
    {
        MemorySink {
            bytes: Vec::new(alloc),
            failing,
            calls: 0,
            faults: 0,
        }
    }

    /// All that it took, in order.
    pub fn bytes(&self) -> &[u8]
        ensures { result.now ≡ self.now.bytes }
    {
        self.bytes.as_slice()
    }

    /// How many calls have failed.
    pub fn faults(&self) -> u64
        ensures { result ≡ self.now.faults }
    {
        self.faults
    }
}

impl Sink for MemorySink {
    ghost held = { λ s. Some s.bytes };

    ghost faults = { λ s. s.faults };

    fn write(&mut self, bytes: &[u8]) -> Result<usize, WriteStop>
        ensures taken { Takes (Some self.old.bytes) (Some self.new.bytes) bytes.now result }
        ensures cause { HasCause write_stops.Failed self.old.faults self.new.faults result }
        ensures whole { IfOk result (λ n. n ≡ length bytes.now) }
        ensures fails { IsErrOf result write_stops.Failed
            ↔ IsTrue (fails_next self.old.failing self.old.calls) }
        ensures calls { self.new.calls ≡ counted self.old.calls }
        ensures faults { self.new.faults
            ≡ faults_after (fails_next self.old.failing self.old.calls) self.old.faults }
        ensures kept { self.new.failing ≡ self.old.failing }
    {
        let failed = is_failing(self.failing.as_slice(), self.calls);
        self.calls = self.calls.saturating_add(1);
        if failed {
            self.faults = self.faults.saturating_add(1);
            return Err(WriteStop::Failed);
        }
        match self.bytes.extend_from_slice(bytes) {
            Ok(()) => Ok(bytes.len()),
            Err(_) => Err(WriteStop::OutOfMemory),
        }
    }
}

/// Whether the call behind so many calls is one that fails.
#[tactic(auto, unfolding(crate::specs::Memory::fails_next))]
fn is_failing(failing: &[u64], calls: u64) -> bool
    ensures { result ≡ fails_next failing.now calls }
{
    let call = calls.saturating_add(1);
    failing.iter().any(|n| *n == call)
}

/// Copies the bytes from the place on into the front of the buffer, as many as there are and as
/// have room, and says how many.
pub(super) fn copy_from(bytes: &[u8], from: u64, into: &mut [u8]) -> usize
    ensures reads { ReadsFrom (Some bytes.now) from result into.new }
    ensures count { result ≡ read_count bytes.now from (length into.old) }
{
    if from >= bytes.len() as u64 {
        return 0;
    }
    let rest = &bytes[from as usize..];
    let count = rest.len().min(into.len());
    into[..count].copy_from_slice(&rest[..count]);
    count
}
