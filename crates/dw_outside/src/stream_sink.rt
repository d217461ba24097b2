//! Real streams: the other half of the trusted edge, of whose content nothing is told.
ghost use Rattle.std.specs.Prelude.{◌≡◌, ℕ, None, MatchResult};
ghost use Rattle.dw_outside.specs.Gains.{Takes};
ghost use Rattle.dw_outside.specs.Faults.{HasCause, after_write};
ghost use Rattle.dw_outside.specs.declared.stops.WriteStop.TheVariants as write_stops;

use super::stops::WriteStop;
use super::traits::Sink;
use std::io;
use std::marker::Model;

/// A stream of bytes, such as standard output. Contracts see its count of faults alone.
#[derive(Drop)]
pub struct StreamSink<W> {
    writer: W,
    faults: u64,
}

impl<W> Model for StreamSink<W> {
    ghost use Rattle.std.specs.Prelude.{ℕ};

    ghost Value = { ℕ };

    ghost view = { λ s. s.faults };
}

impl<W: io::Write + Drop> StreamSink<W> {
    /// A sink that writes to this stream.
    pub fn new(writer: W) -> Self
        ensures { result ≡ 0 }
    {
        StreamSink { writer, faults: 0 }
    }
}

impl<W: io::Write + Drop> Sink for StreamSink<W> {
    ghost held = { λ _. None };

    ghost faults = { λ s. s };

    fn write(&mut self, bytes: &[u8]) -> Result<usize, WriteStop>
        ensures taken { Takes None None bytes.now result }
        ensures cause { HasCause write_stops.Failed self.old self.new result }
        ensures count { MatchResult result (λ _. self.new ≡ self.old)
            (λ stop. self.new ≡ after_write stop self.old) }
    {
        match self.writer.write(bytes) {
            Ok(count) => {
                if count == 0 && !bytes.is_empty() {
                    self.faults = self.faults.saturating_add(1);
                    return Err(WriteStop::Failed);
                }
                Ok(count)
            }
            Err(error) => {
                if error.kind() == io::ErrorKind::OutOfMemory {
                    return Err(WriteStop::OutOfMemory);
                }
                self.faults = self.faults.saturating_add(1);
                Err(WriteStop::Failed)
            }
        }
    }
}
