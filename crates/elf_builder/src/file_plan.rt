//! Where the parts of the file stand.
ghost use Rattle.std.specs.Prelude.{◌≡◌, ◌++◌, ◌∷◌, ◌<◌, ◌^◌, ◌+◌, [], length, map, vec_len, IfOk, OnOk};
ghost use Rattle.elf_sections.specs.Headers.{file_header_size};
ghost use Rattle.elf_builder.specs.Given.{given};
ghost use Rattle.elf_builder.specs.Headers.{section_header, file_header_bytes};
ghost use Rattle.elf_builder.specs.File.{elf_file_of, given_contents, given_names, given_headers, own_name, no_header};

use super::headers::{push_file_header, push_section_header};
use super::sections::GivenSection;
use super::sizes::file_header_size;
use elf_sections::ClassLayout;
use std::alloc::{AllocError, Global};

/// The given sections, laid out one behind the other.
#[derive(Drop)]
struct FilePlan {
    /// Their bytes.
    contents: Vec<u8>,
    /// A zero byte, and each name with a zero byte.
    names: Vec<u8>,
    /// Their section headers.
    headers: Vec<u8>,
}

/// The file that holds the sections.
#[tactic(auto, unfolding(crate::specs::File::elf_file_of))]
pub(super) fn whole_file(
    alloc: Global,
    layout: ClassLayout,
    sections: &[GivenSection],
) -> Result<Vec<u8>, AllocError>
    ensures { IfOk result (λ file. file.items
        ≡ elf_file_of (record { layout = layout; sections = map given sections.now })) }
{
    let FilePlan {
        contents,
        names,
        headers,
    } = plan_sections(alloc, layout, sections)?;
    let size = file_header_size(layout);
    let own_name = names.len() as u64;
    let names_place = size + contents.len() as u64;
    let mut names = names;
    push_own_name(&mut names)?;
    let mut parts = contents;
    parts.extend_from_slice(names.as_slice())?;
    let mut file = Vec::new(alloc);
    push_file_header(
        &mut file,
        layout,
        size + parts.len() as u64,
        sections.len() as u64,
    )?;
    file.extend_from_slice(parts.as_slice())?;
    push_no_header(&mut file, layout)?;
    file.extend_from_slice(headers.as_slice())?;
    push_section_header(
        &mut file,
        layout,
        own_name,
        3,
        names_place,
        names.len() as u64,
    )?;
    Ok(file)
}

/// Appends the name of the section of the names.
#[tactic(auto, unfolding(crate::specs::File::own_name))]
fn push_own_name(names: &mut Vec<u8>) -> Result<(), AllocError>
    ensures { OnOk result (names.new.items ≡ names.old.items ++ own_name) }
{
    names.extend_from_slice(b".shstrtab\0")
}

/// Appends the header of section 0.
#[tactic(auto, unfolding(crate::specs::File::no_header, elf_sections::specs::Layouts::word_size))]
fn push_no_header(file: &mut Vec<u8>, layout: ClassLayout) -> Result<(), AllocError>
    ensures { OnOk result (file.new.items ≡ file.old.items ++ no_header layout) }
{
    let zeros = [0; 64];
    if layout.wide {
        return file.extend_from_slice(&zeros);
    }
    file.extend_from_slice(&zeros[..40])
}

/// Lays out the given sections in their order.
fn plan_sections(
    alloc: Global,
    layout: ClassLayout,
    sections: &[GivenSection],
) -> Result<FilePlan, AllocError>
    ensures contents { IfOk result (λ l. l.contents.items
        ≡ given_contents (map given sections.now)) }
    ensures names { IfOk result (λ l. l.names.items ≡ given_names (map given sections.now)) }
    ensures headers { IfOk result (λ l. l.headers.items
        ≡ given_headers layout 1 (file_header_size layout) (map given sections.now)) }
{
    let mut plan = FilePlan {
        contents: Vec::new(alloc),
        names: Vec::from_slice(alloc, &[0])?,
        headers: Vec::new(alloc),
    };
    for section in sections {
        plan_section(&mut plan, layout, section)?;
    }
    Ok(plan)
}

/// Puts one more section behind the others.
fn plan_section(
    plan: &mut FilePlan,
    layout: ClassLayout,
    section: &GivenSection,
) -> Result<(), AllocError>
    ensures headers { OnOk result
        (plan.new.headers.items ≡ plan.old.headers.items
        ++ section_header layout (length plan.old.names.items) 1
        (file_header_size layout + length plan.old.contents.items)
        (length section.now.bytes.items)) }
    ensures contents { OnOk result
        (plan.new.contents.items ≡ plan.old.contents.items ++ section.now.bytes.items) }
    ensures names { OnOk result
        (plan.new.names.items ≡ (plan.old.names.items ++ section.now.name.items) ++ 0 ∷ []) }
{
    let place = file_header_size(layout) + plan.contents.len() as u64;
    push_section_header(
        &mut plan.headers,
        layout,
        plan.names.len() as u64,
        1,
        place,
        section.bytes.len() as u64,
    )?;
    plan.contents.extend_from_slice(section.bytes.as_slice())?;
    plan.names.extend_from_slice(section.name.as_slice())?;
    plan.names.push(0)?;
    Ok(())
}
