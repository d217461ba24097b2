//! What the first 16 bytes of an ELF file tell (gABI chapter 4, "ELF Identification").

ghost use Rattle.std.specs.Prelude.{◌≡◌, ◌≤◌, ◌<◌, length, OnOk};
ghost use Rattle.elf_sections.specs.declared.class_layout.TheConstants.{FILE_LIMIT};
ghost use Rattle.elf_sections.specs.Layouts.{magic_of, class_of, order_of, layout_of};

use crate::refusals::ElfRefusal;
use dw_fields::Order;

/// The greatest number of bytes that a file may have.
pub const FILE_LIMIT: u64 = 0x4000_0000;

/// How a file's numbers stand in it, by its class and its data encoding.
#[derive(Clone, Copy, Debug, PartialEq, Eq)]
pub struct ClassLayout {
    /// The byte order of the numbers, `EI_DATA`.
    pub order: Order,
    /// Whether addresses, offsets and sizes have 8 bytes in place of 4, `EI_CLASS`.
    pub wide: bool,
}

/// Refuses a file that is too long, is no ELF file, or ends in its first 16 bytes.
#[tactic(auto, unfolding(crate::specs::Layouts::magic_of))]
fn check_magic(file: &[u8]) -> Result<(), ElfRefusal>
    ensures magic { result ≡ magic_of file.now }
    ensures least { OnOk result (16 ≤ length file.now) }
    ensures most { OnOk result (length file.now ≤ FILE_LIMIT) }
{
    if file.len() as u64 > FILE_LIMIT {
        return Err(ElfRefusal::FileLimit);
    }
    if !file.starts_with(b"\x7fELF") {
        return Err(ElfRefusal::NotElf);
    }
    if file.len() < 16 {
        return Err(ElfRefusal::HeaderShort);
    }
    Ok(())
}

/// Whether the class is the 64-bit one.
#[tactic(auto, unfolding(crate::specs::Layouts::class_of))]
fn class_of(class: u8) -> Result<bool, ElfRefusal>
    ensures { result ≡ class_of class }
{
    match class {
        1 => Ok(false),
        2 => Ok(true),
        _ => Err(ElfRefusal::ElfClass),
    }
}

/// The byte order that the encoding names.
#[tactic(auto, unfolding(crate::specs::Layouts::order_of))]
fn order_of(encoding: u8) -> Result<Order, ElfRefusal>
    ensures { result ≡ order_of encoding }
{
    match encoding {
        1 => Ok(Order::Little),
        2 => Ok(Order::Big),
        _ => Err(ElfRefusal::ElfData),
    }
}

/// The layout of a file.
#[tactic(auto, unfolding(crate::specs::Layouts::layout_of))]
pub(crate) fn read_layout(file: &[u8]) -> Result<ClassLayout, ElfRefusal>
    ensures layout { result ≡ layout_of file.now }
    ensures most { OnOk result (length file.now ≤ FILE_LIMIT) }
{
    check_magic(file)?;
    let wide = class_of(file[4])?;
    let order = order_of(file[5])?;
    Ok(ClassLayout { order, wide })
}
