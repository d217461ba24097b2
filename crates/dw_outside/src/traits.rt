//! What the readers and the writers of text need of the outside.
ghost use Rattle.std.specs.Prelude.{◌≡◌, ℕ, List, Option, IfOk};
ghost use Rattle.dw_outside.specs.Reads.{ReadsFrom};
ghost use Rattle.dw_outside.specs.Gains.{Takes};
ghost use Rattle.dw_outside.specs.Faults.{HasCause};
ghost use Rattle.dw_outside.specs.declared.stops.ReadStop.TheVariants as read_stops;
ghost use Rattle.dw_outside.specs.declared.stops.WriteStop.TheVariants as write_stops;

use super::stops::{ReadStop, WriteStop};

/// Named files that are read at a place.
///
/// `holds` is what each name holds, where the source tells that. `faults` is how many faults it
/// has met so far.
pub trait Source {
    ghost holds: { Self → List ℕ → Option (List ℕ) };

    ghost faults: { Self → ℕ };

    /// Reads bytes of the file `name`, from the place `from` on, into the front of `into`, and says
    /// how many. 0 on a buffer that isn't empty means that `from` is at or past the file's end.
    ///
    /// After a refusal nothing is said of the buffer. No call changes what a name holds.
    ///
    /// # Errors
    ///
    /// [`ReadStop::Failed`] only where the count of faults rose in this call, and
    /// [`ReadStop::OutOfMemory`] for want of memory alone.
    fn read(&mut self, name: &str, into: &mut [u8], from: u64) -> Result<usize, ReadStop>
        ensures bytes { IfOk result (λ n. ReadsFrom (holds self.old name.now) from n into.new) }
        ensures same { (other : List ℕ) → holds self.new other ≡ holds self.old other }
        ensures cause { HasCause read_stops.Failed (faults self.old) (faults self.new) result };
}

/// A place that takes bytes in order.
///
/// `held` is all that it took so far, where it tells that. `faults` is how many faults it has met.
pub trait Sink {
    ghost held: { Self → Option (List ℕ) };

    ghost faults: { Self → ℕ };

    /// Takes some bytes from the front of `bytes`, and says how many: at least one where `bytes`
    /// isn't empty. A sink that can take none of them refuses.
    ///
    /// After a refusal it holds what it held.
    ///
    /// # Errors
    ///
    /// [`WriteStop::Failed`] only where the count of faults rose in this call, and
    /// [`WriteStop::OutOfMemory`] for want of memory alone.
    fn write(&mut self, bytes: &[u8]) -> Result<usize, WriteStop>
        ensures taken { Takes (held self.old) (held self.new) bytes.now result }
        ensures cause { HasCause write_stops.Failed (faults self.old) (faults self.new) result };
}

/// Where a worker stops by before and behind each unit that it reads.
///
/// A gate changes no answer. It exists so that a test can hold one worker until another has come.
pub trait Gate {
    /// The worker of this number is about to read the unit of this number.
    fn enter(&self, worker: u32, unit: u32);

    /// The worker of this number has read the unit of this number.
    fn leave(&self, worker: u32, unit: u32);
}
