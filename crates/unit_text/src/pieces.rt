//! Pieces of a text whose making may be refused.

ghost use Rattle.std.specs.Prelude.{◌≡◌, ℕ, List, Ok};
ghost use Rattle.dw_text.specs.Added.{Adds};
ghost use Rattle.unit_text.specs.Pieces.{Puts};

use std::alloc::AllocError;
use unit_headers::UnitRefusal;

/// Want of memory in appending a piece becomes the refusal of the whole.
pub(crate) fn as_put(done: Result<(), AllocError>) -> Result<(), UnitRefusal>
    ensures { (old new text : List ℕ) → Adds done old new text → Puts result old new (Ok text) }
{
    match done {
        Ok(()) => Ok(()),
        Err(_) => Err(UnitRefusal::OutOfMemory),
    }
}
