//! The header of a unit (DWARF 5 section 7.5.1, DWARF 4 section 7.5.1.1): one function a field.

ghost use Rattle.std.specs.Prelude.{◌≡◌, ◌<◌, ◌≤◌, ◌^◌, length, IfOk};
ghost use Rattle.dw_fields.specs.Reading.{IsAddressSize, Reads};
ghost use Rattle.unit_headers.specs.Headers.{declarations_at, fields_at, fields_of_version_4, fields_of_version_5, header_of, kind_at, size_at, version_at};

use crate::kind::{Extra, UnitKind, read_extra, unit_kind};
use crate::refusal::in_unit;
use dw_fields::{Code, Cut, Fault};

/// The header of a unit (DWARF 5 section 7.5.1.1, DWARF 4 section 7.5.1.1). Places are offsets from
/// the section's start.
#[derive(Clone, Copy, Debug, PartialEq, Eq)]
pub struct UnitHeader {
    /// The unit's number in the section, from 0.
    pub number: u32,
    /// The unit's first byte.
    pub place: u64,
    /// The first byte behind the unit.
    pub end: u64,
    /// Whether the unit is of the 64-bit format (section 7.4): its offsets have 8 bytes, else 4.
    pub wide: bool,
    /// `version`: 4 or 5.
    pub version: u16,
    /// `unit_type` (table 7.2); a unit of version 4 is a compilation unit.
    pub kind: UnitKind,
    /// `address_size`: 2, 4 or 8 bytes.
    pub address_size: u8,
    /// `debug_abbrev_offset`: where the unit's declarations begin in `.debug_abbrev`.
    pub abbrev: u32,
    /// The place of the first entry, behind the header.
    pub entries: u64,
    /// What a header of the unit's kind has behind these fields (sections 7.5.1.2 and 7.5.1.3).
    pub extra: Extra,
}

/// The fields of a header behind its version.
#[derive(Clone, Copy, Debug, PartialEq, Eq)]
pub(crate) struct UnitFields {
    pub kind: UnitKind,
    pub address_size: u8,
    pub abbrev: u32,
    pub extra: Extra,
}

/// The header of a unit that begins at `place` and whose fields `cut` holds, up to the unit's end.
#[tactic(auto, unfolding(crate::specs::Headers::header_of))]
pub(crate) fn read_header(
    mut cut: Cut,
    abbrev_length: u64,
    number: u32,
    place: u64,
    wide: bool,
) -> Result<UnitHeader, Fault>
    requires { abbrev_length < 2 ^ 32 }
    ensures { result ≡ header_of abbrev_length number place wide cut.entry }
{
    let end = cut.end();
    let version = read_version(&mut cut)?;
    let fields = read_fields(&mut cut, version, abbrev_length, wide)?;
    Ok(UnitHeader {
        number,
        place,
        end,
        wide,
        version,
        kind: fields.kind,
        address_size: fields.address_size,
        abbrev: fields.abbrev,
        entries: cut.place(),
        extra: fields.extra,
    })
}

/// The fields behind the version, in the order of that version.
#[tactic(auto, unfolding(crate::specs::Headers::fields_at))]
fn read_fields(
    cut: &mut Cut,
    version: u16,
    abbrev_length: u64,
    wide: bool,
) -> Result<UnitFields, Fault>
    requires { abbrev_length < 2 ^ 32 }
    ensures { Reads (λ x. x) result (fields_at version abbrev_length wide) cut.old cut.new }
{
    if version == 4 {
        return read_version_4(cut, abbrev_length, wide);
    }
    read_version_5(cut, abbrev_length, wide)
}

#[tactic(auto, unfolding(crate::specs::Headers::fields_of_version_5))]
fn read_version_5(cut: &mut Cut, abbrev_length: u64, wide: bool) -> Result<UnitFields, Fault>
    requires { abbrev_length < 2 ^ 32 }
    ensures { Reads (λ x. x) result (fields_of_version_5 abbrev_length wide) cut.old cut.new }
{
    let kind = read_kind(cut)?;
    let address_size = read_size(cut)?;
    let abbrev = read_declarations(cut, abbrev_length, wide)?;
    let extra = read_extra(cut, kind, wide)?;
    Ok(UnitFields {
        kind,
        address_size,
        abbrev,
        extra,
    })
}

/// In version 4 the offset of the declarations stands before the size of an address, and no unit has
/// a type: those of type units stand in `.debug_types`.
#[tactic(auto, unfolding(crate::specs::Headers::fields_of_version_4))]
fn read_version_4(cut: &mut Cut, abbrev_length: u64, wide: bool) -> Result<UnitFields, Fault>
    requires { abbrev_length < 2 ^ 32 }
    ensures { Reads (λ x. x) result (fields_of_version_4 abbrev_length wide) cut.old cut.new }
{
    let declarations = read_declarations(cut, abbrev_length, wide)?;
    let size = read_size(cut)?;
    Ok(UnitFields {
        kind: UnitKind::Compile,
        address_size: size,
        abbrev: declarations,
        extra: Extra::Nothing,
    })
}

#[tactic(auto, unfolding(crate::specs::Headers::version_at))]
fn read_version(cut: &mut Cut) -> Result<u16, Fault>
    ensures { Reads (λ x. x) result version_at cut.old cut.new }
{
    let place = cut.place();
    let version = in_unit(cut.u16())?;
    if version == 4 || version == 5 {
        return Ok(version);
    }
    Err(Fault::at(Code::UnitVersion, place))
}

#[tactic(auto, unfolding(crate::specs::Headers::kind_at))]
fn read_kind(cut: &mut Cut) -> Result<UnitKind, Fault>
    ensures { Reads (λ x. x) result kind_at cut.old cut.new }
{
    let place = cut.place();
    let number = in_unit(cut.u8())?;
    unit_kind(number, place)
}

#[tactic(auto, unfolding(crate::specs::Headers::size_at))]
fn read_size(cut: &mut Cut) -> Result<u8, Fault>
    ensures { Reads (λ x. x) result size_at cut.old cut.new }
{
    let place = cut.place();
    let size = in_unit(cut.u8())?;
    if size == 2 || size == 4 || size == 8 {
        return Ok(size);
    }
    Err(Fault::at(Code::AddressSize, place))
}

#[tactic(auto, unfolding(crate::specs::Headers::declarations_at))]
fn read_declarations(cut: &mut Cut, abbrev_length: u64, wide: bool) -> Result<u32, Fault>
    requires { abbrev_length < 2 ^ 32 }
    ensures { Reads (λ x. x) result (declarations_at abbrev_length wide) cut.old cut.new }
{
    let place = cut.place();
    let offset = in_unit(cut.offset(wide))?;
    if offset > abbrev_length {
        return Err(Fault::at(Code::AbbrevOutside, place));
    }
    Ok(offset as u32)
}
