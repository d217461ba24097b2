//! The sections of a file.

ghost use Rattle.std.specs.Prelude.{◌≡◌, IfOk, map, option_map, slice_get};
ghost use Rattle.elf_sections.specs.Shapes.{row};
ghost use Rattle.dwtool_c.specs.Answers.{Ends, IsTold};
ghost use Rattle.dwtool_c.specs.Sections.{name_of_row, section_name_answer, section_name_in, section_row, sections_answer, sections_of_elf};

use crate::answers::{Told, hand_out};
use crate::refusal::{DwtoolRefusal, file_refusal};
use elf_sections::{Elf, OpenRefusal, Section};
use std::alloc::{AllocError, Global};

/// A section: what its header says (gABI chapter 4, "Sections").
#[repr(C)]
#[derive(Clone, Copy, Debug, PartialEq, Eq)]
pub struct DwtoolSection {
    /// The flags, `sh_flags`.
    pub flags: u64,
    /// The size field, `sh_size`, in bytes.
    pub size: u64,
    /// How many bytes it has in the file; none for the types 0 (null) and 8 (no bits).
    pub bytes: u64,
    /// How many bytes its name has, without a zero byte.
    pub name_size: u64,
    /// The type, `sh_type`.
    pub kind: u32,
}

/// The row of a section.
fn section_row(section: &Section<'_>) -> DwtoolSection
    ensures { result ≡ section_row (row section.now) }
{
    DwtoolSection {
        flags: section.flags,
        size: section.size,
        bytes: section.bytes.len() as u64,
        name_size: section.name.len() as u64,
        kind: section.kind,
    }
}

/// The rows of these sections.
fn section_rows(alloc: Global, sections: &[Section<'_>]) -> Result<Vec<DwtoolSection>, AllocError>
    ensures { IfOk result (λ rows. rows.items
        ≡ map (λ s. section_row (row s)) sections.now) }
{
    sections
        .iter()
        .map(|section| section_row(section))
        .collect(alloc)
}

/// The rows of the sections of a file.
#[tactic(auto, using(crate::proofs::Lists::rows_of_views))]
fn told_sections(alloc: Global, elf: &Elf<'_>) -> Result<Told<DwtoolSection>, AllocError>
    ensures { IfOk result
        (λ t. IsTold (sections_of_elf elf.now) t.status t.items.items t.refusal) }
{
    let rows = section_rows(alloc, elf.sections())?;
    Ok(Told::done(rows))
}

/// The rows of the sections of a file's bytes, or its refusal.
#[tactic(auto, unfolding(crate::specs::Sections::sections_answer))]
fn tell_sections(alloc: Global, file: &[u8]) -> Result<Told<DwtoolSection>, AllocError>
    ensures { IfOk result
        (λ t. IsTold (sections_answer file.now) t.status t.items.items t.refusal) }
{
    match Elf::read(alloc, file) {
        Ok(elf) => told_sections(alloc, &elf),
        Err(OpenRefusal::Refused(refusal)) => Ok(Told::refused(alloc, file_refusal(&refusal))),
        Err(OpenRefusal::OutOfMemory) => Err(AllocError),
    }
}

/// The sections of a file in table order, section 0 included: the front of their rows that fits
/// `rows`. `count` is how many there are. `refusal` is that of the section table.
///
/// # Errors
/// Answers `DONE`; `REFUSED` where the section table is refused, and then there is no row; or
/// `NO_MEMORY`, and then `rows` is as it was and `count` is 0.
#[unsafe(no_mangle)]
pub extern "C" fn dwtool_sections(
    alloc: Global,
    file: &[u8],
    rows: &mut [DwtoolSection],
    count: &mut usize,
    refusal: &mut DwtoolRefusal,
) -> u8
    ensures { Ends (sections_answer file.now) result rows.old rows.new count.new refusal.new }
{
    hand_out(tell_sections(alloc, file), rows, count, refusal)
}

/// The section of this number, if there is one.
fn section_at<'f>(sections: &[Section<'f>], number: u32) -> Option<Section<'f>>
    ensures { option_map row result ≡ slice_get (map row sections.now) number }
{
    match sections.get(number as usize) {
        Some(section) => Some(*section),
        None => None,
    }
}

/// The bytes of a section's name.
fn copy_name(alloc: Global, section: Option<Section<'_>>) -> Result<Told<u8>, AllocError>
    ensures { IfOk result (λ t. IsTold (name_of_row (option_map row section.entry))
        t.status t.items.items t.refusal) }
{
    match section {
        Some(section) => {
            let mut name = Vec::new(alloc);
            name.extend_from_slice(section.name)?;
            Ok(Told::done(name))
        }
        None => Ok(Told::none_such(alloc)),
    }
}

/// The name of the section of this number.
fn told_name(alloc: Global, elf: &Elf<'_>, number: u32) -> Result<Told<u8>, AllocError>
    ensures { IfOk result
        (λ t. IsTold (section_name_in number elf.now) t.status t.items.items t.refusal) }
{
    copy_name(alloc, section_at(elf.sections(), number))
}

/// The name of a section of a file's bytes, or the file's refusal.
#[tactic(auto, unfolding(crate::specs::Sections::section_name_answer))]
fn tell_name(alloc: Global, file: &[u8], number: u32) -> Result<Told<u8>, AllocError>
    ensures { IfOk result
        (λ t. IsTold (section_name_answer number file.now) t.status t.items.items t.refusal) }
{
    match Elf::read(alloc, file) {
        Ok(elf) => told_name(alloc, &elf, number),
        Err(OpenRefusal::Refused(refusal)) => Ok(Told::refused(alloc, file_refusal(&refusal))),
        Err(OpenRefusal::OutOfMemory) => Err(AllocError),
    }
}

/// The bytes of a section's name, without a zero byte: the front of them that fits `name`. `size` is
/// how many there are.
///
/// # Errors
/// Answers `DONE`; `REFUSED` where the section table is refused; `NONE_SUCH` where it has no section
/// of this number; or `NO_MEMORY`, and then `name` is as it was and `size` is 0.
#[unsafe(no_mangle)]
pub extern "C" fn dwtool_section_name(
    alloc: Global,
    file: &[u8],
    number: u32,
    name: &mut [u8],
    size: &mut usize,
    refusal: &mut DwtoolRefusal,
) -> u8
    ensures { Ends (section_name_answer number file.now) result name.old name.new
        size.new refusal.new }
{
    hand_out(tell_name(alloc, file, number), name, size, refusal)
}
