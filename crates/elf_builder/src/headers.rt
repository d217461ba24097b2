//! The header of the file and the headers of its sections (gABI, 'ELF Header' and 'Sections').
ghost use Rattle.std.specs.Prelude.{◌≡◌, ◌<◌, ◌^◌, ◌++◌, OnOk};
ghost use Rattle.elf_builder.specs.Headers.{identification, class_number as class_number_of, encoding_number as encoding_number_of, front, back, file_header_bytes, section_header};

use super::fields::{push_u16, push_u32, push_word};
use super::sizes::{file_header_size, section_header_size};
use dw_fields::Order;
use elf_sections::ClassLayout;
use std::alloc::AllocError;

/// Appends the file's header, which names the place of the section headers and how many sections
/// were given.
#[tactic(auto, unfolding(crate::specs::Headers::file_header_bytes))]
pub(super) fn push_file_header(
    out: &mut Vec<u8>,
    layout: ClassLayout,
    headers: u64,
    given: u64,
) -> Result<(), AllocError>
    requires { given < 2 ^ 63 }
    ensures { OnOk result
        (out.new.items ≡ out.old.items ++ file_header_bytes layout headers given) }
{
    push_identification(out, layout)?;
    push_front(out, layout, headers)?;
    push_back(out, layout, given)?;
    Ok(())
}

/// The number of a class.
#[tactic(auto, unfolding(crate::specs::Headers::class_number))]
fn class_number(wide: bool) -> u8
    ensures { result ≡ class_number_of wide }
{
    if wide { 2 } else { 1 }
}

/// The number of a byte order.
#[tactic(auto, unfolding(crate::specs::Headers::encoding_number))]
fn encoding_number(order: Order) -> u8
    ensures { result ≡ encoding_number_of order }
{
    match order {
        Order::Little => 1,
        Order::Big => 2,
    }
}

/// The first bytes of the file: the magic number, its class and byte order, version 1, and nine
/// bytes of padding.
#[tactic(auto, unfolding(crate::specs::Headers::identification))]
fn push_identification(out: &mut Vec<u8>, layout: ClassLayout) -> Result<(), AllocError>
    ensures { OnOk result (out.new.items ≡ out.old.items ++ identification layout) }
{
    let class = class_number(layout.wide);
    let encoding = encoding_number(layout.order);
    out.extend_from_slice(&[
        127, 69, 76, 70, class, encoding, 1, 0, 0, 0, 0, 0, 0, 0, 0, 0,
    ])
}

/// The fields from e_type to e_shoff.
#[tactic(auto, unfolding(crate::specs::Headers::front))]
fn push_front(out: &mut Vec<u8>, layout: ClassLayout, headers: u64) -> Result<(), AllocError>
    ensures { OnOk result (out.new.items ≡ out.old.items ++ front layout headers) }
{
    push_u16(out, layout.order, 2)?;
    push_u16(out, layout.order, 62)?;
    push_u32(out, layout.order, 1)?;
    push_word(out, layout, 0)?;
    push_word(out, layout, 0)?;
    push_word(out, layout, headers)?;
    Ok(())
}

/// The fields from e_flags to e_shstrndx.
#[tactic(auto, unfolding(crate::specs::Headers::back))]
fn push_back(out: &mut Vec<u8>, layout: ClassLayout, given: u64) -> Result<(), AllocError>
    requires { given < 2 ^ 63 }
    ensures { OnOk result (out.new.items ≡ out.old.items ++ back layout given) }
{
    push_u32(out, layout.order, 0)?;
    push_u16(out, layout.order, file_header_size(layout))?;
    push_u16(out, layout.order, 0)?;
    push_u16(out, layout.order, 0)?;
    push_u16(out, layout.order, section_header_size(layout))?;
    push_u16(out, layout.order, given + 2)?;
    push_u16(out, layout.order, given + 1)?;
    Ok(())
}

/// Appends a section header: the place of its name among the names, its type, the place of its
/// bytes in the file and their number.
#[tactic(auto, unfolding(crate::specs::Headers::section_header))]
pub(super) fn push_section_header(
    out: &mut Vec<u8>,
    layout: ClassLayout,
    name: u64,
    kind: u64,
    place: u64,
    size: u64,
) -> Result<(), AllocError>
    ensures { OnOk result
        (out.new.items ≡ out.old.items ++ section_header layout name kind place size) }
{
    push_u32(out, layout.order, name)?;
    push_u32(out, layout.order, kind)?;
    push_word(out, layout, 0)?;
    push_word(out, layout, 0)?;
    push_word(out, layout, place)?;
    push_word(out, layout, size)?;
    push_u32(out, layout.order, 0)?;
    push_u32(out, layout.order, 0)?;
    push_word(out, layout, 1)?;
    push_word(out, layout, 0)?;
    Ok(())
}
