//! The line of a unit: what its header says (DWARF 5 section 7.5.1.1).

ghost use Rattle.std.specs.Prelude.{◌≡◌, ◌++◌, OnErr, OnOk};
ghost use Rattle.dw_text.specs.Added.{Adds};
ghost use Rattle.unit_text.specs.UnitLine.{extra_text, format_text, kind_text, unit_bounds, unit_line, unit_start};

use dw_text::{
    keep_whole, push_decimal_after, push_hex_after, push_sixteen_after, push_text, push_text_after,
};
use std::alloc::{AllocError, Global};
use unit_headers::{Extra, UnitHeader, UnitKind};

/// The name of the unit type.
#[tactic(auto, unfolding(crate::specs::UnitLine::kind_text))]
fn kind_text(kind: UnitKind) -> &'static [u8]
    ensures { result.now ≡ kind_text kind }
{
    match kind {
        UnitKind::Compile => b"compile",
        UnitKind::TypeUnit => b"type",
        UnitKind::Partial => b"partial",
        UnitKind::Skeleton => b"skeleton",
        UnitKind::SplitCompile => b"split_compile",
        UnitKind::SplitType => b"split_type",
    }
}

/// The bits of the unit's format.
#[tactic(auto, unfolding(crate::specs::UnitLine::format_text))]
fn format_text(wide: bool) -> &'static [u8]
    ensures { result.now ≡ format_text wide }
{
    if wide { b"64" } else { b"32" }
}

/// Appends where the unit is and of what kind.
#[tactic(auto, unfolding(crate::specs::UnitLine::unit_start))]
fn push_start(out: &mut Vec<u8>, header: &UnitHeader) -> Result<(), AllocError>
    ensures { Adds result out.old.items out.new.items (unit_start header.now) }
{
    push_decimal_after(out, b"unit ", u64::from(header.number))?;
    push_hex_after(out, b" at 0x", header.place)?;
    push_text_after(out, b" format ", format_text(header.wide))?;
    push_decimal_after(out, b" version ", u64::from(header.version))?;
    push_text_after(out, b" type ", kind_text(header.kind))?;
    Ok(())
}

/// Appends the address size and the places that the header names.
#[tactic(auto, unfolding(crate::specs::UnitLine::unit_bounds))]
fn push_bounds(out: &mut Vec<u8>, header: &UnitHeader) -> Result<(), AllocError>
    ensures { Adds result out.old.items out.new.items (unit_bounds header.now) }
{
    push_decimal_after(out, b" address ", u64::from(header.address_size))?;
    push_hex_after(out, b" abbrev 0x", u64::from(header.abbrev))?;
    push_hex_after(out, b" entries 0x", header.entries)?;
    push_hex_after(out, b" end 0x", header.end)?;
    Ok(())
}

/// Appends what the unit types beside compile and partial add.
#[tactic(auto, unfolding(crate::specs::UnitLine::extra_text))]
fn push_extra(out: &mut Vec<u8>, extra: Extra) -> Result<(), AllocError>
    ensures { Adds result out.old.items out.new.items (extra_text extra) }
{
    match extra {
        Extra::Nothing => {}
        Extra::Id(id) => push_sixteen_after(out, b" id 0x", id)?,
        Extra::Signature {
            signature,
            type_offset,
        } => {
            push_sixteen_after(out, b" signature 0x", signature)?;
            push_hex_after(out, b" type 0x", type_offset)?;
        }
    }
    Ok(())
}

/// Appends the line of a unit.
#[tactic(auto, unfolding(crate::specs::UnitLine::unit_line))]
pub(crate) fn push_unit_line(out: &mut Vec<u8>, header: &UnitHeader) -> Result<(), AllocError>
    ensures { Adds result out.old.items out.new.items (unit_line header.now) }
{
    push_start(out, header)?;
    push_bounds(out, header)?;
    push_extra(out, header.extra)?;
    push_text(out, b"\n")?;
    Ok(())
}

/// Appends the line of a unit: its number, its place, its format, version and type, its address size,
/// where its declarations and its entries begin and where it ends, and the id or the signature that its
/// type adds.
///
/// After want of memory `out` is as it was.
pub fn write_unit_line(
    _alloc: Global,
    header: &UnitHeader,
    out: &mut Vec<u8>,
) -> Result<(), AllocError>
    ensures ok { OnOk result (out.new.items ≡ out.old.items ++ unit_line header.now) }
    ensures err { OnErr result (out.new.items ≡ out.old.items) }
{
    let before = out.len();
    let done = push_unit_line(out, header);
    keep_whole(out, before, done)
}
