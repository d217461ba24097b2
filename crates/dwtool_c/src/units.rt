//! The units of a file.

ghost use Rattle.std.specs.Prelude.{◌≡◌, ◌∷◌, [], ◌++◌, IfOk, OnOk};
ghost use Rattle.elf_sections.specs.Shapes.{AreShort, sections_view};
ghost use Rattle.entry_tree.specs.Units.{units_of};
ghost use Rattle.dwtool_c.specs.Answers.{Ends, IsTold};
ghost use Rattle.dwtool_c.specs.Units.{id_of, kind_number, offset_size, type_offset_of, unit_row, units_answer, units_in, units_of_elf, units_of_sections};

use crate::answers::{Told, hand_out};
use crate::refusal::{DwtoolRefusal, file_refusal, unit_refusal};
use elf_sections::{Elf, OpenRefusal, Sections};
use std::alloc::{AllocError, Global};
use unit_headers::{Extra, UnitHeader, UnitIndex, UnitKind};

/// A unit: what its header says (DWARF 5 section 7.5.1.1, DWARF 4 section 7.5.1.1). Places are
/// offsets from the start of `.debug_info`.
#[repr(C)]
#[derive(Clone, Copy, Debug, PartialEq, Eq)]
pub struct DwtoolUnit {
    /// The unit's first byte.
    pub place: u64,
    /// The first byte behind the unit.
    pub end: u64,
    /// The place of the first entry, behind the header.
    pub entries: u64,
    /// `dwo_id` of a skeleton or split unit, `type_signature` of a type unit, and else 0.
    pub id: u64,
    /// `type_offset` of a type unit, from the unit's first byte, and else 0.
    pub type_offset: u64,
    /// The unit's number, from 0.
    pub number: u32,
    /// `debug_abbrev_offset`: where its declarations begin in `.debug_abbrev`.
    pub abbrev: u32,
    /// `version`: 4 or 5.
    pub version: u16,
    /// `unit_type` (table 7.2), 1 to 6; 1 in version 4.
    pub kind: u16,
    /// `address_size`: 2, 4 or 8 bytes.
    pub address_size: u16,
    /// The bytes of an offset: 4 or 8 (section 7.4).
    pub offset_size: u16,
}

/// The index of the units of some sections.
pub(crate) fn read_index<'f>(
    alloc: Global,
    sections: &Sections<'f>,
) -> Result<UnitIndex<'f>, AllocError>
    requires { AreShort (sections_view sections.now) }
    ensures { IfOk result (λ index. index ≡ units_of (sections_view sections.entry.now)) }
{
    UnitIndex::read(
        alloc,
        sections.info,
        sections.abbrev.len() as u64,
        sections.order,
    )
}

/// The number of a unit type.
fn kind_number(kind: UnitKind) -> u16
    ensures { result ≡ kind_number kind }
{
    match kind {
        UnitKind::Compile => 1,
        UnitKind::TypeUnit => 2,
        UnitKind::Partial => 3,
        UnitKind::Skeleton => 4,
        UnitKind::SplitCompile => 5,
        UnitKind::SplitType => 6,
    }
}

/// The bytes of an offset.
fn offset_size(wide: bool) -> u16
    ensures { result ≡ offset_size wide }
{
    if wide { 8 } else { 4 }
}

/// The identifier or signature of a unit.
fn id_of(extra: &Extra) -> u64
    ensures { result ≡ id_of extra.now }
{
    match extra {
        Extra::Nothing => 0,
        Extra::Id(id) => *id,
        Extra::Signature { signature, .. } => *signature,
    }
}

/// Where a type unit's type stands.
fn type_offset_of(extra: &Extra) -> u64
    ensures { result ≡ type_offset_of extra.now }
{
    match extra {
        Extra::Nothing => 0,
        Extra::Id(_) => 0,
        Extra::Signature { type_offset, .. } => *type_offset,
    }
}

/// The row of a unit with this header.
fn unit_row(header: &UnitHeader) -> DwtoolUnit
    ensures { result ≡ unit_row header.now }
{
    DwtoolUnit {
        place: header.place,
        end: header.end,
        entries: header.entries,
        id: id_of(&header.extra),
        type_offset: type_offset_of(&header.extra),
        number: header.number,
        abbrev: header.abbrev,
        version: header.version,
        kind: kind_number(header.kind),
        address_size: u16::from(header.address_size),
        offset_size: offset_size(header.wide),
    }
}

/// Puts the row of a unit behind the others.
fn push_row(rows: &mut Vec<DwtoolUnit>, header: &UnitHeader) -> Result<(), AllocError>
    ensures { OnOk result (rows.new.items ≡ rows.old.items ++ unit_row header.now ∷ []) }
{
    match rows.push(unit_row(header)) {
        Ok(()) => Ok(()),
        Err(_) => Err(AllocError),
    }
}

/// The rows of the units of an index, up to the first that is refused.
fn unit_rows(alloc: Global, index: &UnitIndex<'_>) -> Result<Told<DwtoolUnit>, AllocError>
    ensures { IfOk result
        (λ t. IsTold (units_in index.now) t.status t.items.items t.refusal) }
{
    let mut rows = Vec::new(alloc);
    for unit in 0..index.count() {
        match index.header(unit) {
            Ok(header) => push_row(&mut rows, &header)?,
            Err(fault) => return Ok(Told::refused_behind(rows, unit_refusal(unit, fault))),
        }
    }
    Ok(Told::done(rows))
}

/// The rows of the units of some sections.
fn told_units(alloc: Global, sections: &Sections<'_>) -> Result<Told<DwtoolUnit>, AllocError>
    requires { AreShort (sections_view sections.now) }
    ensures { IfOk result (λ t. IsTold (units_of_sections (sections_view sections.now))
        t.status t.items.items t.refusal) }
{
    let index = read_index(alloc, sections)?;
    unit_rows(alloc, &index)
}

/// The rows of the units of a file's bytes, or the file's refusal.
#[tactic(auto, unfolding(crate::specs::Units::units_answer))]
fn tell_units(alloc: Global, file: &[u8]) -> Result<Told<DwtoolUnit>, AllocError>
    ensures { IfOk result
        (λ t. IsTold (units_answer file.now) t.status t.items.items t.refusal) }
{
    match Elf::read(alloc, file) {
        Ok(elf) => told_units(alloc, &elf.debug_sections()),
        Err(OpenRefusal::Refused(refusal)) => Ok(Told::refused(alloc, file_refusal(&refusal))),
        Err(OpenRefusal::OutOfMemory) => Err(AllocError),
    }
}

/// The units of `.debug_info` in their order, up to the first whose header is refused: the front of
/// their rows that fits `rows`. `count` is how many there are. `refusal` is that of the section
/// table or of the first refused unit.
///
/// # Errors
/// Answers `DONE`; `REFUSED` where the section table or a unit is refused; or `NO_MEMORY`, and then
/// `rows` is as it was and `count` is 0.
#[unsafe(no_mangle)]
pub extern "C" fn dwtool_units(
    alloc: Global,
    file: &[u8],
    rows: &mut [DwtoolUnit],
    count: &mut usize,
    refusal: &mut DwtoolRefusal,
) -> u8
    ensures { Ends (units_answer file.now) result rows.old rows.new count.new refusal.new }
{
    hand_out(tell_units(alloc, file), rows, count, refusal)
}
