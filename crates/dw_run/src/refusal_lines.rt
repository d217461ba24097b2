//! The lines of refusals.

ghost use Rattle.std.specs.Prelude.{◌≡◌, ◌≤◌, IfOk};
ghost use Rattle.dw_text.specs.Added.{Adds};
ghost use Rattle.dw_run.specs.RefusalLines.{file_refusal_line, file_number, fault_text, refusal_line, section_text, tables_fault_line, unit_fault_line};

use crate::refusals::Refusal;
use dw_fields::Fault;
use dw_text::{push_decimal_after, push_hex_after, push_text_after};
use elf_sections::ElfRefusal;
use std::alloc::{AllocError, Global};

/// The line on standard error for a refusal, with its newline.
pub(crate) fn line_of(alloc: Global, refusal: &Refusal) -> Result<Vec<u8>, AllocError>
    ensures { IfOk result (λ line. line.items ≡ refusal_line refusal.now) }
{
    let mut line = Vec::new(alloc);
    match push_line(&mut line, refusal) {
        Ok(()) => Ok(line),
        Err(error) => Err(error),
    }
}

fn push_line(line: &mut Vec<u8>, refusal: &Refusal) -> Result<(), AllocError>
    ensures { Adds result line.old.items line.new.items (refusal_line refusal.now) }
{
    match refusal {
        Refusal::File(refusal) => push_file_line(line, refusal),
        Refusal::Unit { unit, fault } => push_unit_line(line, u64::from(*unit), fault),
        Refusal::Tables(fault) => push_tables_line(line, fault),
    }
}

#[tactic(auto, unfolding(crate::specs::RefusalLines::file_refusal_line))]
fn push_file_line(line: &mut Vec<u8>, refusal: &ElfRefusal) -> Result<(), AllocError>
    ensures { Adds result line.old.items line.new.items (file_refusal_line refusal.now) }
{
    push_decimal_after(line, b"dwtool: file: refusal ", file_number(refusal))?;
    push_section(line, refusal)?;
    push_text_after(line, b"\n", b"")?;
    Ok(())
}

/// The number of a file's refusal, from 1 to 10 (docs/FORMATS.md).
pub fn file_number(refusal: &ElfRefusal) -> u64
    ensures number { result ≡ file_number refusal.now }
    ensures few { result ≤ 10 }
{
    match refusal {
        ElfRefusal::NotElf => 1,
        ElfRefusal::ElfClass => 2,
        ElfRefusal::ElfData => 3,
        ElfRefusal::HeaderShort => 4,
        ElfRefusal::SectionTable => 5,
        ElfRefusal::SectionBounds(_) => 6,
        ElfRefusal::Compressed(_) => 7,
        ElfRefusal::Relocatable => 8,
        ElfRefusal::NameOutside(_) => 9,
        ElfRefusal::FileLimit => 10,
    }
}

fn push_section(line: &mut Vec<u8>, refusal: &ElfRefusal) -> Result<(), AllocError>
    ensures { Adds result line.old.items line.new.items (section_text refusal.now) }
{
    match refusal {
        ElfRefusal::SectionBounds(section) => push_decimal_after(line, b" section ", *section),
        ElfRefusal::Compressed(section) => push_decimal_after(line, b" section ", *section),
        ElfRefusal::NameOutside(section) => push_decimal_after(line, b" section ", *section),
        ElfRefusal::NotElf => Ok(()),
        ElfRefusal::ElfClass => Ok(()),
        ElfRefusal::ElfData => Ok(()),
        ElfRefusal::HeaderShort => Ok(()),
        ElfRefusal::SectionTable => Ok(()),
        ElfRefusal::Relocatable => Ok(()),
        ElfRefusal::FileLimit => Ok(()),
    }
}

#[tactic(auto, unfolding(crate::specs::RefusalLines::fault_text))]
fn push_fault(line: &mut Vec<u8>, fault: &Fault) -> Result<(), AllocError>
    ensures { Adds result line.old.items line.new.items (fault_text fault.now) }
{
    push_decimal_after(line, b": refusal ", u64::from(fault.code.number()))?;
    push_hex_after(line, b" at 0x", fault.place)?;
    push_text_after(line, b"\n", b"")?;
    Ok(())
}

#[tactic(auto, unfolding(crate::specs::RefusalLines::unit_fault_line))]
fn push_unit_line(line: &mut Vec<u8>, unit: u64, fault: &Fault) -> Result<(), AllocError>
    ensures { Adds result line.old.items line.new.items (unit_fault_line unit fault.now) }
{
    push_decimal_after(line, b"dwtool: unit ", unit)?;
    push_fault(line, fault)?;
    Ok(())
}

#[tactic(auto, unfolding(crate::specs::RefusalLines::tables_fault_line))]
fn push_tables_line(line: &mut Vec<u8>, fault: &Fault) -> Result<(), AllocError>
    ensures { Adds result line.old.items line.new.items (tables_fault_line fault.now) }
{
    push_text_after(line, b"dwtool: abbrev", b"")?;
    push_fault(line, fault)?;
    Ok(())
}
