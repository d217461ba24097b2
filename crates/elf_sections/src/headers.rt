//! The ELF header, and a section header (gABI chapter 4, "ELF Header" and "Section Header").

ghost use Rattle.std.specs.Prelude.{◌≡◌, ◌+◌, ◌≤◌, ◌<◌, length};
ghost use Rattle.elf_sections.specs.Layouts.{word_size};
ghost use Rattle.elf_sections.specs.Headers.{file_header, file_header_size, section_header_at, section_header_size};

use crate::class_layout::ClassLayout;
use crate::numbers::{u16_at, u32_at, word_at, word_size};

/// The fields of the ELF header that the section table hangs on.
#[derive(Clone, Copy, Debug, PartialEq, Eq)]
pub struct FileHeader {
    /// The file's type, `e_type`.
    pub kind: u16,
    /// Where the section headers begin, `e_shoff`; 0 where there are none.
    pub table: u64,
    /// The bytes of a section header, `e_shentsize`.
    pub entry_size: u16,
    /// The number of section headers, `e_shnum`.
    pub count: u16,
    /// The number of the names' section, `e_shstrndx`.
    pub names: u16,
}

/// The fields of a section header that are read.
#[derive(Clone, Copy, Debug, PartialEq, Eq)]
pub struct SectionHeader {
    /// Where the name begins in the names' section, `sh_name`.
    pub name: u32,
    /// The type, `sh_type`.
    pub kind: u32,
    /// The flags, `sh_flags`.
    pub flags: u64,
    /// Where the section's bytes begin in the file, `sh_offset`.
    pub offset: u64,
    /// How many they are, `sh_size`.
    pub size: u64,
    /// The number of another section, `sh_link`.
    pub link: u32,
}

/// The bytes of an ELF header.
pub(crate) fn file_header_size(layout: ClassLayout) -> u64
    ensures { result ≡ file_header_size layout }
{
    40 + 3 * word_size(layout)
}

/// The bytes of a section header.
pub(crate) fn section_header_size(layout: ClassLayout) -> u64
    ensures size { result ≡ section_header_size layout }
    ensures most { result ≤ 64 }
{
    16 + 6 * word_size(layout)
}

/// The ELF header.
#[tactic(auto, unfolding(crate::specs::Headers::file_header))]
pub(crate) fn read_file_header(file: &[u8], layout: ClassLayout) -> FileHeader
    requires { file_header_size layout ≤ length file.now }
    ensures { result ≡ file_header layout file.now }
{
    let word = word_size(layout);
    FileHeader {
        kind: u16_at(file, layout.order, 16),
        table: word_at(file, layout, 24 + 2 * word),
        entry_size: u16_at(file, layout.order, 34 + 3 * word),
        count: u16_at(file, layout.order, 36 + 3 * word),
        names: u16_at(file, layout.order, 38 + 3 * word),
    }
}

/// The section header at a place.
#[tactic(auto, unfolding(crate::specs::Headers::section_header_at))]
pub(crate) fn read_section_header(file: &[u8], layout: ClassLayout, place: u64) -> SectionHeader
    requires { place + section_header_size layout ≤ length file.now }
    ensures { result ≡ section_header_at layout file.now place }
{
    let word = word_size(layout);
    SectionHeader {
        name: u32_at(file, layout.order, place),
        kind: u32_at(file, layout.order, place + 4),
        flags: word_at(file, layout, place + 8),
        offset: word_at(file, layout, place + (8 + 2 * word)),
        size: word_at(file, layout, place + (8 + 3 * word)),
        link: u32_at(file, layout.order, place + (8 + 4 * word)),
    }
}
