//! How long the headers of a file are (gABI, 'ELF Header' and 'Sections').
ghost use Rattle.std.specs.Prelude.{◌≡◌, ◌≤◌};
ghost use Rattle.elf_sections.specs.Headers.{file_header_size as file_header_size_of, section_header_size as section_header_size_of};

use elf_sections::ClassLayout;

/// The bytes of the file's header, `e_ehsize`.
#[tactic(auto, unfolding(elf_sections::specs::Layouts::word_size))]
pub(super) fn file_header_size(layout: ClassLayout) -> u64
    ensures size { result ≡ file_header_size_of layout }
    ensures most { result ≤ 64 }
{
    if layout.wide { 64 } else { 52 }
}

/// The bytes of a section header, `e_shentsize`.
#[tactic(auto, unfolding(elf_sections::specs::Layouts::word_size))]
pub(super) fn section_header_size(layout: ClassLayout) -> u64
    ensures { result ≡ section_header_size_of layout }
{
    if layout.wide { 64 } else { 40 }
}
