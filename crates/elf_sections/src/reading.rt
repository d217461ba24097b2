//! The section headers in their order, and the first that is refused.

ghost use Rattle.std.specs.Prelude.{◌≡◌, ◌<◌, ◌++◌, ◌∷◌, [], map, option_map, OnOk, IfOk, IfErr};
ghost use Rattle.elf_sections.specs.Refusals.{Opens, first_in};
ghost use Rattle.elf_sections.specs.Headers.{IsInside, section_header_of, section_headers_of};
ghost use Rattle.elf_sections.specs.Names.{AreInBounds, is_out_of_bounds, is_compressed};
ghost use Rattle.elf_sections.specs.Names.{name_bytes, named_rows, rows_of};
ghost use Rattle.elf_sections.specs.Shapes.{row};

use crate::class_layout::ClassLayout;
use crate::headers::{SectionHeader, read_section_header, section_header_size};
use crate::names::{contents_of, is_compressed, is_out_of_bounds, name_of};
use crate::refusals::{ElfRefusal, OpenRefusal};
use crate::section::Section;
use crate::section_table::SectionTable;
use std::alloc::{AllocError, Global};
use string_tables::StringTable;

/// The section header of that number.
fn section_header_of(
    file: &[u8],
    layout: ClassLayout,
    table: SectionTable,
    number: u64,
) -> SectionHeader
    requires inside { IsInside layout table file.now }
    requires listed { number < table.count }
    ensures { result ≡ section_header_of layout table file.now number }
{
    read_section_header(
        file,
        layout,
        table.place + number * section_header_size(layout),
    )
}

/// The number of the first section whose bytes aren't wholly in the file.
fn first_out_of_bounds(file: &[u8], layout: ClassLayout, table: SectionTable) -> Option<u64>
    requires inside { IsInside layout table file.now }
    requires some { 0 < table.count }
    ensures { result ≡ first_in (is_out_of_bounds file.now) 1
        (section_headers_of layout table file.now) }
{
    for number in 1..table.count {
        let header = section_header_of(file, layout, table, number);
        if is_out_of_bounds(file, &header) {
            return Some(number);
        }
    }
    None
}

/// The bytes of the names' section.
#[tactic(auto, unfolding(crate::specs::Names::name_bytes))]
fn name_bytes<'f>(file: &'f [u8], layout: ClassLayout, table: SectionTable) -> Option<&'f [u8]>
    requires inside { IsInside layout table file.now }
    requires some { 0 < table.count }
    requires bounds { AreInBounds layout table file.now }
    ensures { option_map (λ b. b.now) result ≡ name_bytes layout table file.entry.now }
{
    if table.names == 0 {
        return None;
    }
    let header = section_header_of(file, layout, table, table.names);
    Some(contents_of(file, &header))
}

/// The string table of the names, where there is one.
fn read_names<'f>(
    alloc: Global,
    file: &'f [u8],
    layout: ClassLayout,
    table: SectionTable,
) -> Result<Option<StringTable<'f>>, AllocError>
    requires inside { IsInside layout table file.now }
    requires some { 0 < table.count }
    requires bounds { AreInBounds layout table file.now }
    ensures { IfOk result (λ names. names ≡ name_bytes layout table file.entry.now) }
{
    let bytes = match name_bytes(file, layout, table) {
        Some(bytes) => bytes,
        None => return Ok(None),
    };
    Ok(Some(StringTable::new(alloc, bytes)?))
}

/// Section 0, whatever its header holds.
const NULL_SECTION: Section<'static> = Section {
    name: &[],
    kind: 0,
    flags: 0,
    size: 0,
    bytes: &[],
};

/// Puts one more section at the list's end.
fn add<'f>(sections: &mut Vec<Section<'f>>, section: Section<'f>) -> Result<(), OpenRefusal>
    ensures added { OnOk result
        (map row sections.new.items ≡ map row sections.old.items ++ row section.entry ∷ []) }
    ensures memory { IfErr result (λ e. e ≡ OpenRefusal.OutOfMemory) }
{
    Ok(sections.push(section)?)
}

/// The sections with their names, or the first that has none.
#[tactic(auto, unfolding(crate::specs::Names::named_rows))]
fn named_sections<'f>(
    alloc: Global,
    file: &'f [u8],
    layout: ClassLayout,
    table: SectionTable,
    names: &Option<StringTable<'f>>,
) -> Result<Vec<Section<'f>>, OpenRefusal>
    requires inside { IsInside layout table file.now }
    requires some { 0 < table.count }
    requires bounds { AreInBounds layout table file.now }
    ensures { Opens (λ v. map row v.items) result
        (named_rows layout table file.entry.now names.now) }
{
    let mut sections = Vec::with_capacity(alloc, table.count as usize)?;
    add(&mut sections, NULL_SECTION)?;
    for number in 1..table.count {
        let header = section_header_of(file, layout, table, number);
        let name = match name_of(names, &header) {
            Some(name) => name,
            None => return Err(OpenRefusal::Refused(ElfRefusal::NameOutside(number))),
        };
        let section = Section {
            name,
            kind: header.kind,
            flags: header.flags,
            size: header.size,
            bytes: contents_of(file, &header),
        };
        add(&mut sections, section)?;
    }
    Ok(sections)
}

/// The number of the first section that holds debugging data in compressed form.
fn first_compressed(sections: &[Section<'_>]) -> Option<u64>
    ensures { result ≡ first_in is_compressed 0 (map row sections.now) }
{
    let mut number = 0;
    for section in sections {
        if is_compressed(section) {
            return Some(number);
        }
        number += 1;
    }
    None
}

/// The sections of a table that isn't empty.
#[tactic(auto, unfolding(crate::specs::Names::rows_of))]
pub(crate) fn read_sections<'f>(
    alloc: Global,
    file: &'f [u8],
    layout: ClassLayout,
    table: SectionTable,
) -> Result<Vec<Section<'f>>, OpenRefusal>
    requires inside { IsInside layout table file.now }
    requires some { 0 < table.count }
    ensures { Opens (λ v. map row v.items) result (rows_of layout table file.entry.now) }
{
    if let Some(number) = first_out_of_bounds(file, layout, table) {
        return Err(OpenRefusal::Refused(ElfRefusal::SectionBounds(number)));
    }
    let names = read_names(alloc, file, layout, table)?;
    let sections = named_sections(alloc, file, layout, table, &names)?;
    match first_compressed(sections.as_slice()) {
        Some(number) => Err(OpenRefusal::Refused(ElfRefusal::Compressed(number))),
        None => Ok(sections),
    }
}
