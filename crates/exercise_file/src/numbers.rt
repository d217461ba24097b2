//! Little-endian numbers of fixed width.

ghost use Rattle.std.specs.Prelude.{◌≡◌, ◌++◌, OnOk};
ghost use Rattle.exercise_file.specs.Generated.{two as two_bytes, four as four_bytes, eight as eight_bytes};

use std::alloc::AllocError;

/// Appends the lowest 16 bits of the number.
#[tactic(auto, unfolding(crate::specs::Generated::two))]
pub(super) fn push_two(out: &mut Vec<u8>, number: u64) -> Result<(), AllocError>
    ensures { OnOk result (out.new.items ≡ out.old.items ++ two_bytes number) }
{
    let bytes = number.to_le_bytes();
    out.extend_from_slice(&bytes[..2])
}

/// Appends the lowest 32 bits of the number.
#[tactic(auto, unfolding(crate::specs::Generated::four))]
pub(super) fn push_four(out: &mut Vec<u8>, number: u64) -> Result<(), AllocError>
    ensures { OnOk result (out.new.items ≡ out.old.items ++ four_bytes number) }
{
    let bytes = number.to_le_bytes();
    out.extend_from_slice(&bytes[..4])
}

/// Appends the number's 64 bits.
#[tactic(auto, unfolding(crate::specs::Generated::eight))]
pub(super) fn push_eight(out: &mut Vec<u8>, number: u64) -> Result<(), AllocError>
    ensures { OnOk result (out.new.items ≡ out.old.items ++ eight_bytes number) }
{
    let bytes = number.to_le_bytes();
    out.extend_from_slice(&bytes)
}
