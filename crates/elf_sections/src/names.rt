//! What a section header stands for: the section's name and bytes.

ghost use Rattle.std.specs.Prelude.{◌≡◌, false, option_map};
ghost use Rattle.elf_sections.specs.Shapes.{row};
ghost use Rattle.elf_sections.specs.Names.{has_bytes, is_out_of_bounds, contents_of, name_of, is_compressed};

use crate::headers::SectionHeader;
use crate::section::Section;
use string_tables::StringTable;

/// Whether sections of this type have bytes in the file.
fn has_bytes(kind: u32) -> bool
    ensures { result ≡ has_bytes kind }
{
    kind != 0 && kind != 8
}

/// Whether the section has bytes that aren't wholly in the file.
#[tactic(auto, unfolding(crate::specs::Names::is_out_of_bounds))]
pub(crate) fn is_out_of_bounds(file: &[u8], header: &SectionHeader) -> bool
    ensures { result ≡ is_out_of_bounds file.now header.now }
{
    let length = file.len() as u64;
    has_bytes(header.kind) && (header.offset > length || header.size > length - header.offset)
}

/// The section's bytes.
#[tactic(auto, unfolding(crate::specs::Names::is_out_of_bounds, crate::specs::Names::contents_of))]
pub(crate) fn contents_of<'f>(file: &'f [u8], header: &SectionHeader) -> &'f [u8]
    requires { is_out_of_bounds file.now header.now ≡ false }
    ensures { result.now ≡ contents_of file.entry.now header.now }
{
    if has_bytes(header.kind) {
        let rest = &file[header.offset as usize..];
        &rest[..header.size as usize]
    } else {
        &[]
    }
}

/// The name that a header gives in the table of the names; every name is empty where there is none.
#[tactic(auto, unfolding(crate::specs::Names::name_of))]
pub(crate) fn name_of<'f>(
    names: &Option<StringTable<'f>>,
    header: &SectionHeader,
) -> Option<&'f [u8]>
    ensures { option_map (λ b. b.now) result ≡ name_of names.now header.now }
{
    match names {
        None => Some(&[]),
        Some(table) => table.text_at(header.name as usize),
    }
}

/// Whether the section holds debugging data in compressed form.
#[tactic(auto, unfolding(crate::specs::Names::is_compressed))]
pub(crate) fn is_compressed(section: &Section<'_>) -> bool
    ensures { result ≡ is_compressed (row section.now) }
{
    section.name.starts_with(b".zdebug_")
        || (section.name.starts_with(b".debug_") && section.flags & 0x800 != 0)
}
