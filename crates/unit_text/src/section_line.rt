//! The line of a section of an ELF file (gABI chapter 4, "Sections").

ghost use Rattle.std.specs.Prelude.{◌≡◌, ◌++◌, OnErr, OnOk};
ghost use Rattle.dw_text.specs.Added.{Adds};
ghost use Rattle.elf_sections.specs.Shapes.{row};
ghost use Rattle.unit_text.specs.SectionLine.{section_line};

use dw_text::{keep_whole, push_decimal_after, push_escaped_after, push_hex_after, push_text};
use elf_sections::Section;
use std::alloc::{AllocError, Global};

/// Appends the line of a section.
#[tactic(auto, unfolding(crate::specs::SectionLine::section_line))]
fn push_section(out: &mut Vec<u8>, number: u64, section: &Section<'_>) -> Result<(), AllocError>
    ensures { Adds result out.old.items out.new.items (section_line number (row section.now)) }
{
    push_decimal_after(out, b"section ", number)?;
    push_escaped_after(out, b" \"", section.name)?;
    push_hex_after(out, b"\" type 0x", u64::from(section.kind))?;
    push_hex_after(out, b" flags 0x", section.flags)?;
    push_hex_after(out, b" size 0x", section.size)?;
    push_text(out, b"\n")?;
    Ok(())
}

/// Appends the line of the section of a number: its name, escaped, its type, its flags and its size.
///
/// After want of memory `out` is as it was.
pub fn write_section(
    _alloc: Global,
    number: u64,
    section: &Section<'_>,
    out: &mut Vec<u8>,
) -> Result<(), AllocError>
    ensures ok { OnOk result (out.new.items
        ≡ out.old.items ++ section_line number (row section.now)) }
    ensures err { OnErr result (out.new.items ≡ out.old.items) }
{
    let before = out.len();
    let done = push_section(out, number, section);
    keep_whole(out, before, done)
}
