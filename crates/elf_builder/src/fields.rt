//! Numbers of fixed width, in the file's byte order (gABI, 'Data Representation').
ghost use Rattle.std.specs.Prelude.{◌≡◌, ◌++◌, OnOk};
ghost use Rattle.elf_builder.specs.Fields.{field, word_field};

use dw_fields::Order;
use elf_sections::ClassLayout;
use std::alloc::AllocError;

/// Appends the lowest 16 bits of the number.
#[tactic(auto, unfolding(crate::specs::Fields::field))]
pub(super) fn push_u16(out: &mut Vec<u8>, order: Order, number: u64) -> Result<(), AllocError>
    ensures { OnOk result (out.new.items ≡ out.old.items ++ field order 2 number) }
{
    match order {
        Order::Little => {
            let bytes = number.to_le_bytes();
            out.extend_from_slice(&bytes[..2])
        }
        Order::Big => {
            let bytes = number.to_be_bytes();
            out.extend_from_slice(&bytes[6..])
        }
    }
}

/// Appends the lowest 32 bits of the number.
#[tactic(auto, unfolding(crate::specs::Fields::field))]
pub(super) fn push_u32(out: &mut Vec<u8>, order: Order, number: u64) -> Result<(), AllocError>
    ensures { OnOk result (out.new.items ≡ out.old.items ++ field order 4 number) }
{
    match order {
        Order::Little => {
            let bytes = number.to_le_bytes();
            out.extend_from_slice(&bytes[..4])
        }
        Order::Big => {
            let bytes = number.to_be_bytes();
            out.extend_from_slice(&bytes[4..])
        }
    }
}

/// Appends the number's 64 bits.
#[tactic(auto, unfolding(crate::specs::Fields::field))]
fn push_u64(out: &mut Vec<u8>, order: Order, number: u64) -> Result<(), AllocError>
    ensures { OnOk result (out.new.items ≡ out.old.items ++ field order 8 number) }
{
    match order {
        Order::Little => {
            let bytes = number.to_le_bytes();
            out.extend_from_slice(&bytes)
        }
        Order::Big => {
            let bytes = number.to_be_bytes();
            out.extend_from_slice(&bytes)
        }
    }
}

/// Appends an address, an offset or a size: 64 bits in a 64-bit file, else the lowest 32.
#[tactic(auto, unfolding(crate::specs::Fields::word_field, elf_sections::specs::Layouts::word_size))]
pub(super) fn push_word(
    out: &mut Vec<u8>,
    layout: ClassLayout,
    number: u64,
) -> Result<(), AllocError>
    ensures { OnOk result (out.new.items ≡ out.old.items ++ word_field layout number) }
{
    if layout.wide {
        push_u64(out, layout.order, number)
    } else {
        push_u32(out, layout.order, number)
    }
}
