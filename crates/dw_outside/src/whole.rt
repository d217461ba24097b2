//! Whole texts and whole files, over any sink and any source.
ghost use Rattle.std.specs.Prelude.{◌≡◌, ◌<◌, ◌≤◌, ◌+◌, ◌^◌, ◌++◌, ℕ, List, IfOk, IfErr, IfSome, OnOk, OnErr, length, take, vec_len};
ghost use Rattle.dw_outside.specs.Gains.{Gains, GainsPart};
ghost use Rattle.dw_outside.specs.Faults.{HasCause};
ghost use Rattle.dw_outside.specs.declared.stops.ReadStop.TheVariants as read_stops;
ghost use Rattle.dw_outside.specs.declared.stops.WriteStop.TheVariants as write_stops;

use super::stops::{ReadStop, WriteStop};
use super::traits::{Sink, Source};
use std::alloc::Global;

/// How many bytes a file is read by at a time.
const PIECE: usize = 65536;

/// Writes all the bytes to the sink, in as many calls as it wants.
///
/// # Errors
///
/// Those of [`Sink::write`]. The sink then holds what it held, followed by a prefix of the bytes.
pub fn write_all<O: Sink>(sink: &mut O, bytes: &[u8]) -> Result<(), WriteStop>
    ensures whole { OnOk result (Gains (O.held sink.old) (O.held sink.new) bytes.now) }
    ensures part { OnErr result (GainsPart (O.held sink.old) (O.held sink.new) bytes.now) }
    ensures cause { HasCause write_stops.Failed (O.faults sink.old) (O.faults sink.new) result }
{
    let mut done = 0;
    'pieces: while done < bytes.len() {
        match sink.write(&bytes[done..]) {
            Ok(count) => done += count,
            Err(stop) => return Err(stop),
        }
    }
    Ok(())
}

/// Reads the file `name` from its start to its end, or its first `limit + 1` bytes where it has
/// more, so that a file of more than `limit` bytes is told from one of `limit`.
///
/// # Errors
///
/// Those of [`Source::read`], and [`ReadStop::OutOfMemory`] where the list can't grow.
pub fn read_file<S: Source>(
    alloc: Global,
    source: &mut S,
    name: &str,
    limit: u64,
) -> Result<Vec<u8>, ReadStop>
    requires { limit < 2 ^ 32 }
    ensures whole { IfOk result
        (λ file. IfSome (S.holds source.old name.now)
        (λ bytes. file.items ≡ take (limit + 1) bytes)) }
    ensures size { IfOk result (λ file. vec_len file ≤ limit + 1) }
    ensures same { (other : List ℕ) → S.holds source.new other ≡ S.holds source.old other }
    ensures cause { HasCause read_stops.Failed (S.faults source.old) (S.faults source.new) result }
{
    let end = limit as usize + 1;
    let mut piece = [0u8; PIECE];
    let mut file = Vec::new(alloc);
    'pieces: while file.len() < end {
        let room = PIECE.min(end - file.len());
        let count = match source.read(name, &mut piece[..room], file.len() as u64) {
            Ok(count) => count,
            Err(stop) => return Err(stop),
        };
        if count == 0 {
            return Ok(file);
        }
        match add_piece(&mut file, &piece[..count]) {
            Ok(()) => {}
            Err(stop) => return Err(stop),
        }
    }
    Ok(file)
}

/// Puts the piece behind the file that was read so far.
fn add_piece(file: &mut Vec<u8>, piece: &[u8]) -> Result<(), ReadStop>
    ensures ok { OnOk result (file.new.items ≡ file.old.items ++ piece.now) }
    ensures len { OnOk result (vec_len file.new ≡ vec_len file.old + length piece.now) }
    ensures memory { IfErr result (λ stop. stop ≡ read_stops.OutOfMemory) }
{
    match file.extend_from_slice(piece) {
        Ok(()) => Ok(()),
        Err(_) => Err(ReadStop::OutOfMemory),
    }
}
