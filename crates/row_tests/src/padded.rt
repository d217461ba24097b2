//! A long file that is not stored.
ghost use Rattle.std.specs.Prelude.{◌≡◌, ℕ, List, None, IfOk};
ghost use Rattle.dw_outside.specs.Reads.{ReadsFrom};
ghost use Rattle.dw_outside.specs.Faults.{HasCause};
ghost use Rattle.dw_outside.specs.declared.stops.ReadStop.TheVariants as read_stops;

use dw_outside::{ReadStop, Source};

/// A source that holds one file under every name: some bytes, and zeros behind them up to a length.
/// It tells nothing of what it holds.
#[derive(Drop)]
pub struct PaddedSource<'b> {
    pub bytes: &'b [u8],
    pub length: u64,
}

impl<'b> Source for PaddedSource<'b> {
    ghost holds = { λ _ _. None };

    ghost faults = { λ _. 0 };

    fn read(&mut self, _name: &str, into: &mut [u8], from: u64) -> Result<usize, ReadStop> {
        let left = self.length.saturating_sub(from);
        let count = into.len().min(usize::try_from(left).unwrap_or(usize::MAX));
        let start = usize::try_from(from)
            .unwrap_or(usize::MAX)
            .min(self.bytes.len());
        let given = &self.bytes[start..];
        let stored = given.len().min(count);
        into[..stored].copy_from_slice(&given[..stored]);
        into[stored..count].fill(0);
        Ok(count)
    }
}
