//! Addresses of a given size.

ghost use Rattle.std.specs.Prelude.{◌≡◌, ◌*◌, ◌<◌, ◌^◌};
ghost use Rattle.dw_fields.specs.Reading.{IsAddressSize, wrapped_address};

/// The address of `size` bytes that a sum stands for: the sum modulo 2 to the power of the
/// address's bits.
#[inline]
#[tactic(auto, unfolding(crate::specs::Reading::wrapped_address))]
pub fn wrap_address(sum: u128, size: u8) -> u64
    requires { IsAddressSize size }
    ensures value { result ≡ wrapped_address size sum }
    ensures fits { result < 2 ^ (8 * size) }
{
    match size {
        2 => (sum % 0x1_0000) as u64,
        4 => (sum % 0x1_0000_0000) as u64,
        _ => (sum % 0x1_0000_0000_0000_0000) as u64,
    }
}
