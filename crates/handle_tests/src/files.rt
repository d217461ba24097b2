//! The files of the tests.

use elf_builder::ElfBuilder;
use std::alloc::{AllocError, Global};

/// Two declarations, 1 for a unit's root and 2 for a variable: from 0 to 7, and from 7 to 17.
pub(crate) const TWO_CODES: [u8; 18] = [
    0x01, 0x11, 0x01, 0x03, 0x08, 0x00, 0x00, 0x02, 0x34, 0x00, 0x03, 0x08, 0x3a, 0x21, 0x7f, 0x00,
    0x00, 0x00,
];

/// One unit: a root and two variables. The root stands from 0xc to 0xf.
pub(crate) const ONE_UNIT: [u8; 22] = [
    0x12, 0x00, 0x00, 0x00, 0x05, 0x00, 0x01, 0x08, 0x00, 0x00, 0x00, 0x00, 0x01, 0x61, 0x00, 0x02,
    0x62, 0x00, 0x02, 0x63, 0x00, 0x00,
];

/// A file of these declarations and these units.
pub(crate) fn file_of(
    alloc: Global,
    declarations: &[u8],
    units: &[u8],
) -> Result<Vec<u8>, AllocError> {
    let mut builder = ElfBuilder::new(alloc);
    builder.add(".debug_abbrev", declarations)?;
    builder.add(".debug_info", units)?;
    builder.finish()
}
