//! The keys and values of a load.
ghost use Rattle.std.specs.Prelude.{◌<◌, ◌^◌};
ghost use Rattle.map_core.specs.Machine.{IsWord};

/// The key of this number: neither 0 nor the greatest, and spread over all 64 bits.
#[inline]
pub(crate) fn key_of(number: u64) -> u64
    ensures { IsWord result }
{
    let first = number.wrapping_add(1).wrapping_mul(0x9e37_79b9_7f4a_7c15);
    let key = (first ^ (first >> 32)).wrapping_mul(0x243f_6a88_85a3_08d3);
    if key == 0 || key == u64::MAX { 1 } else { key }
}

/// The value of the key of this number.
#[inline]
pub(crate) fn value_of(number: u64) -> u64
    requires { number < 2 ^ 32 }
    ensures { IsWord result }
{
    number + 1
}
