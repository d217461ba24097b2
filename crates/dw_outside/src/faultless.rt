//! A source and a sink in memory that never fail.
ghost use Rattle.std.specs.Prelude.{◌≡◌, ◌++◌, ℕ, List, Option, [], IfOk, Ok, Some, length, string_bytes};
ghost use Rattle.dw_outside.specs.Reads.{ReadsFrom};
ghost use Rattle.dw_outside.specs.Gains.{Takes};
ghost use Rattle.dw_outside.specs.Faults.{HasCause};
ghost use Rattle.dw_outside.specs.Memory.{read_count, held_under};
ghost use Rattle.dw_outside.specs.declared.stops.ReadStop.TheVariants as read_stops;
ghost use Rattle.dw_outside.specs.declared.stops.WriteStop.TheVariants as write_stops;

use super::memory::copy_from;
use super::stops::{ReadStop, WriteStop};
use super::traits::{Sink, Source};
use std::alloc::Global;
use std::marker::Model;

/// A source that holds one file in memory, tells what each name holds, and never fails. Any other
/// name reads as an empty file.
#[derive(Drop)]
pub struct NoFaultSource {
    name: String,
    bytes: Vec<u8>,
}

impl Model for NoFaultSource {
    ghost use Rattle.std.specs.Prelude.{string_bytes};
    ghost use Rattle.dw_outside.specs.Memory.{NamedBytes};

    ghost Value = { NamedBytes };

    ghost view = { λ s. record { name = string_bytes s.name; bytes = s.bytes.items } };
}

impl NoFaultSource {
    /// A source that holds `bytes` under `name`.
    pub fn new(name: String, bytes: Vec<u8>) -> Self
        ensures { result ≡ record { name = string_bytes name; bytes = bytes.items } }
    {
        NoFaultSource { name, bytes }
    }
}

impl Source for NoFaultSource {
    ghost holds = { λ s other. Some (held_under s.name s.bytes other) };

    ghost faults = { λ _. 0 };

    fn read(&mut self, name: &str, into: &mut [u8], from: u64) -> Result<usize, ReadStop>
        ensures bytes { IfOk result
            (λ n. ReadsFrom (Some (held_under self.old.name self.old.bytes name.now)) from n
            into.new) }
        ensures same { (other : List ℕ) → Some (held_under self.new.name self.new.bytes other)
            ≡ Some (held_under self.old.name self.old.bytes other) }
        ensures cause { HasCause read_stops.Failed 0 0 result }
        ensures gives { result ≡ Ok
            (read_count (held_under self.old.name self.old.bytes name.now) from
            (length into.old)) }
    {
        let held = if self.name.as_str() == name {
            self.bytes.as_slice()
        } else {
            &[]
        };
        Ok(copy_from(held, from, into))
    }
}

/// A sink that holds in memory what it took, tells it, and fails only for want of memory.
#[derive(Drop)]
pub struct NoFaultSink {
    bytes: Vec<u8>,
}

impl Model for NoFaultSink {
    ghost use Rattle.std.specs.Prelude.{ℕ, List};

    ghost Value = { List ℕ };

    ghost view = { λ s. s.bytes.items };
}

impl NoFaultSink {
    /// An empty sink.
    pub fn new(alloc: Global) -> Self
        ensures { result ≡ [] }
    {
        NoFaultSink {
            bytes: Vec::new(alloc),
        }
    }

    /// All that it took, in order.
    pub fn bytes(&self) -> &[u8]
        ensures { result.now ≡ self.now }
    {
        self.bytes.as_slice()
    }
}

impl Sink for NoFaultSink {
    ghost held = { λ s. Some s };

    ghost faults = { λ _. 0 };

    fn write(&mut self, bytes: &[u8]) -> Result<usize, WriteStop>
        ensures taken { Takes (Some self.old) (Some self.new) bytes.now result }
        ensures cause { HasCause write_stops.Failed 0 0 result }
        ensures whole { IfOk result (λ n. n ≡ length bytes.now) }
    {
        match self.bytes.extend_from_slice(bytes) {
            Ok(()) => Ok(bytes.len()),
            Err(_) => Err(WriteStop::OutOfMemory),
        }
    }
}
