//! Where a worker puts the texts that it made.

ghost use Rattle.std.specs.Prelude.{◌≡◌, IfOk};
ghost use Rattle.dump_workers.specs.Readings.{IsRead};

use crate::handing::{DumpedFile, HatchSeat, UnitText};
use crate::reading::{Reading, UnitRead};
use std::alloc::AllocError;
use std::marker::PhantomData;

/// A desk that takes texts and gives memory for them. What it makes of itself in a call is its own affair (`goes`).
pub(crate) trait Desk<N: DumpedFile> {
    ghost goes: { Self → Self → Type 0 };

    /// Memory that a text may be put into, in the place of what it holds.
    fn buffer(&mut self) -> Option<Vec<u8>>
        ensures { goes self.old self.new };

    /// Takes the text out of what was read of a unit, or leaves it there.
    ///
    /// # Errors
    /// Want of memory.
    fn hand(&mut self, reading: Reading) -> Result<Reading, AllocError>
        requires read { IsRead N.sections reading.unit reading.read }
        ensures unit { IfOk result (λ r. r.unit ≡ reading.unit) }
        ensures read { IfOk result (λ r. IsRead N.sections r.unit r.read) }
        ensures goes { goes self.old self.new };

    ghost stays: { (x : Self) → goes x x };

    ghost together: { (x y z : Self) → goes x y → goes y z → goes x z };
}

impl<'q, N: DumpedFile> Desk<N> for HatchSeat<'q, N> {
    ghost use Rattle.std.specs.Prelude.{⊤};

    ghost goes = { λ x y. ⊤ };

    fn buffer(&mut self) -> Option<Vec<u8>> {
        self.take_buffer()
    }

    fn hand(&mut self, reading: Reading) -> Result<Reading, AllocError> {
        let Reading { unit, read } = reading;
        match read {
            UnitRead::Whole { text, entries } => {
                let made = UnitText {
                    unit,
                    text,
                    entries,
                    of: PhantomData,
                };
                match self.give(made) {
                    Ok(()) => Ok(Reading {
                        unit,
                        read: UnitRead::Handed,
                    }),
                    Err(back) => {
                        let UnitText {
                            unit,
                            text,
                            entries,
                            ..
                        } = back;
                        Ok(Reading {
                            unit,
                            read: UnitRead::Whole { text, entries },
                        })
                    }
                }
            }
            other => Ok(Reading { unit, read: other }),
        }
    }

    ghost stays = { λ x. tt };

    ghost together = { λ x y z p q. tt };
}
