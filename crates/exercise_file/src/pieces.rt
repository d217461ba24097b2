//! Sections that are made of one piece for each unit or table.

ghost use Rattle.std.specs.Prelude.{◌≡◌, ◌≤◌, ◌++◌, ℕ, List, OnOk};
ghost use Rattle.exercise_file.specs.Generated.{pieces};
ghost use Rattle.exercise_file.specs.declared.generated.TheConstants.{MOST_UNITS};

use std::alloc::AllocError;

/// What stands in a section for one unit, or for one table.
pub(super) trait Piece {
    ghost bytes: { ℕ → List ℕ };

    /// Appends it, for the unit or the table with this number.
    fn push(out: &mut Vec<u8>, number: u64) -> Result<(), AllocError>
        requires { number ≤ MOST_UNITS }
        ensures { OnOk result (out.new.items ≡ out.old.items ++ bytes number) };
}

/// Appends so many pieces in their order.
pub(super) fn push_pieces<P: Piece>(out: &mut Vec<u8>, count: u64) -> Result<(), AllocError>
    requires { count ≤ MOST_UNITS }
    ensures { OnOk result (out.new.items ≡ out.old.items ++ pieces P.bytes count) }
{
    for number in 0..count {
        P::push(out, number)?;
    }
    Ok(())
}
