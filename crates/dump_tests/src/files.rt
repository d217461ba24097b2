//! The files of the tests, and the texts that are wanted of them.

use elf_builder::ElfBuilder;
use std::alloc::{AllocError, Global};

/// One declaration, 1 for a unit's root with a name.
const DECLARATIONS: [u8; 8] = [0x01, 0x11, 0x00, 0x03, 0x08, 0x00, 0x00, 0x00];

/// How many bytes a unit of the tests has: its length, the rest of its header, the code of its root, and a name of one
/// letter.
const UNIT_BYTES: u32 = 15;

/// The text of a first unit that is named a.
pub(crate) const FIRST_TEXT: &[u8] =
    b"unit 0 at 0x0 format 32 version 5 type compile address 8 abbrev 0x0 entries 0xc end 0xf\n[0xc] 0 compile_unit\n  name text \"a\"\n";

/// The text of three units that are named a.
pub(crate) const THREE_TEXTS: &[u8] =
    b"unit 0 at 0x0 format 32 version 5 type compile address 8 abbrev 0x0 entries 0xc end 0xf\n[0xc] 0 compile_unit\n  name text \"a\"\nunit 1 at 0xf format 32 version 5 type compile address 8 abbrev 0x0 entries 0x1b end 0x1e\n[0x1b] 0 compile_unit\n  name text \"a\"\nunit 2 at 0x1e format 32 version 5 type compile address 8 abbrev 0x0 entries 0x2a end 0x2d\n[0x2a] 0 compile_unit\n  name text \"a\"\n";

/// A file of so many units, each with a root that is named a. The roots of these units have code 2, which is declared
/// nowhere.
pub(crate) fn file_of(alloc: Global, units: u32, refused: &[u32]) -> Result<Vec<u8>, AllocError> {
    let mut info = Vec::new(alloc);
    for unit in 0..units {
        let code = if refused.contains(&unit) { 2 } else { 1 };
        info.extend_from_slice(&[
            0x0b, 0x00, 0x00, 0x00, 0x05, 0x00, 0x01, 0x08, 0x00, 0x00, 0x00, 0x00, code, b'a',
            0x00,
        ])?;
    }
    let mut builder = ElfBuilder::new(alloc);
    builder.add(".debug_abbrev", &DECLARATIONS)?;
    builder.add(".debug_info", info.as_slice())?;
    builder.finish()
}

/// The text of the first units of such a file.
pub(crate) fn texts_of(alloc: Global, units: u32) -> Result<Vec<u8>, AllocError> {
    let mut text = Vec::new(alloc);
    for unit in 0..units {
        let start = UNIT_BYTES.wrapping_mul(unit);
        let root = start.wrapping_add(12);
        let end = start.wrapping_add(UNIT_BYTES);
        let head = format!(in alloc;
            "unit {unit} at {start:#x} format 32 version 5 type compile address 8 abbrev 0x0"
        )?;
        let place = format!(in alloc;
            " entries {root:#x} end {end:#x}\n[{root:#x}] 0 compile_unit\n  name text \"a\"\n"
        )?;
        text.extend_from_slice(head.as_bytes())?;
        text.extend_from_slice(place.as_bytes())?;
    }
    Ok(text)
}
