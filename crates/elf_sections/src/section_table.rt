//! Where the section headers of a file stand (gABI chapter 4, "ELF Header": `e_shoff`, `e_shnum`
//! and `e_shstrndx`).

ghost use Rattle.std.specs.Prelude.{◌≡◌, ◌+◌, ◌*◌, ◌≤◌, ◌<◌, ◌^◌, nat_lt, length, IfOk};
ghost use Rattle.elf_sections.specs.Headers.{file_header_size, section_header_size, count_of, names_of, table_at, table_of, IsInside};

use crate::class_layout::ClassLayout;
use crate::headers::{
    FileHeader, file_header_size, read_file_header, read_section_header, section_header_size,
};
use crate::refusals::ElfRefusal;

/// Where the section headers stand. A count of 0 says that there are no sections.
#[derive(Clone, Copy, Debug, PartialEq, Eq)]
pub struct SectionTable {
    /// Where section header 0 begins in the file.
    pub place: u64,
    /// How many section headers there are.
    pub count: u64,
    /// The number of the section header of the names' section, or 0.
    pub names: u64,
}

const NO_TABLE: SectionTable = SectionTable {
    place: 0,
    count: 0,
    names: 0,
};

/// Whether so many section headers from a place on pass the end of a file of `length` bytes. No sum
/// wraps.
fn passes_end(length: u64, layout: ClassLayout, place: u64, count: u64) -> bool
    ensures { result ≡ nat_lt length (place + count * section_header_size layout) }
{
    u128::from(length)
        < u128::from(place) + u128::from(count) * u128::from(section_header_size(layout))
}

/// The number of section headers.
#[tactic(auto, unfolding(crate::specs::Headers::count_of))]
fn count_of(file: &[u8], layout: ClassLayout, header: FileHeader) -> Result<u64, ElfRefusal>
    ensures { result ≡ count_of layout header file.now }
{
    if header.count != 0 {
        return Ok(u64::from(header.count));
    }
    if passes_end(file.len() as u64, layout, header.table, 1) {
        return Err(ElfRefusal::SectionTable);
    }
    Ok(read_section_header(file, layout, header.table).size)
}

/// The number of the section that holds the names.
#[tactic(auto, unfolding(crate::specs::Headers::names_of))]
fn names_of(file: &[u8], layout: ClassLayout, header: FileHeader) -> u64
    requires { header.table + section_header_size layout ≤ length file.now }
    ensures { result ≡ names_of layout header file.now }
{
    if header.names != 0xffff {
        return u64::from(header.names);
    }
    u64::from(read_section_header(file, layout, header.table).link)
}

/// The section headers behind a table offset that isn't 0.
#[tactic(auto, unfolding(crate::specs::Headers::table_at))]
fn table_at(
    file: &[u8],
    layout: ClassLayout,
    header: FileHeader,
) -> Result<SectionTable, ElfRefusal>
    ensures table { result ≡ table_at layout header file.now }
    ensures inside { IfOk result (λ t. IsInside layout t file.now) }
{
    if u64::from(header.entry_size) != section_header_size(layout) {
        return Err(ElfRefusal::SectionTable);
    }
    let count = count_of(file, layout, header)?;
    if passes_end(file.len() as u64, layout, header.table, count) {
        return Err(ElfRefusal::SectionTable);
    }
    if count == 0 {
        return Ok(NO_TABLE);
    }
    let names = names_of(file, layout, header);
    if names >= count {
        return Err(ElfRefusal::SectionTable);
    }
    Ok(SectionTable {
        place: header.table,
        count,
        names,
    })
}

/// Where the section headers of a file stand.
#[tactic(auto, unfolding(crate::specs::Headers::table_of))]
pub(crate) fn read_table(file: &[u8], layout: ClassLayout) -> Result<SectionTable, ElfRefusal>
    ensures table { result ≡ table_of layout file.now }
    ensures inside { IfOk result (λ t. IsInside layout t file.now) }
{
    if (file.len() as u64) < file_header_size(layout) {
        return Err(ElfRefusal::HeaderShort);
    }
    let header = read_file_header(file, layout);
    if header.kind == 1 {
        return Err(ElfRefusal::Relocatable);
    }
    if header.table == 0 {
        return Ok(NO_TABLE);
    }
    table_at(file, layout, header)
}
