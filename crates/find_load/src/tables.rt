//! A file of abbreviation tables that are all alike.

use elf_builder::ElfBuilder;
use std::alloc::{AllocError, Global};

/// A file, and where its abbreviation tables begin.
#[derive(Drop)]
pub(crate) struct TablesFile {
    pub bytes: Vec<u8>,
    pub tables: Vec<u32>,
}

impl TablesFile {
    /// A file of so many tables, each with declarations of the codes from 1 to `declarations`.
    pub fn new(alloc: Global, tables: u32, declarations: u32) -> Result<TablesFile, AllocError> {
        let mut section = Vec::new(alloc);
        let mut starts = Vec::new(alloc);
        for _ in 0..tables {
            starts.push(u32::try_from(section.len()).unwrap_or(u32::MAX))?;
            push_table(&mut section, declarations)?;
        }
        let mut builder = ElfBuilder::new(alloc);
        builder.add(".debug_abbrev", section.as_slice())?;
        Ok(TablesFile {
            bytes: builder.finish()?,
            tables: starts,
        })
    }
}

/// Appends one table: variables with a name, a file, a line and a type.
fn push_table(section: &mut Vec<u8>, declarations: u32) -> Result<(), AllocError> {
    for code in 0..declarations {
        push_uleb(section, code.saturating_add(1))?;
        section.extend_from_slice(&[
            0x34, 0x00, 0x03, 0x0e, 0x3a, 0x0b, 0x3b, 0x0b, 0x49, 0x13, 0x00, 0x00,
        ])?;
    }
    Ok(section.push(0)?)
}

/// Appends a number of at most five groups of seven bits.
fn push_uleb(section: &mut Vec<u8>, number: u32) -> Result<(), AllocError> {
    let mut left = number;
    for _ in 0..4 {
        if left < 128 {
            break;
        }
        section.push((left % 128) as u8 | 128)?;
        left /= 128;
    }
    Ok(section.push((left % 128) as u8)?)
}
