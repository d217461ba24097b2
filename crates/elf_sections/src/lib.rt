//! The section table of an ELF file (System V gABI, chapter 4, "ELF Header" and "Sections").
//!
//! [`Elf::read`] gives the list of a file's sections with their names and bytes, or the first
//! refusal, both as the definition `elf_of` of `specs/Names.antt` says. It reads the headers and
//! the names and looks at no other byte. [`Elf::debug_sections`] gives the sections with debugging
//! data by their names. Files of both classes and both byte orders are read.
//!
//! Definitions name the types of the steps: [`ClassLayout`] is what the file's first bytes tell,
//! [`FileHeader`] and [`SectionHeader`] are the headers' fields, and [`SectionTable`] is where the
//! section headers stand.
#![tactic(auto)]

mod class_layout;
mod debug;
mod elf;
mod headers;
mod named;
mod names;
mod numbers;
mod reading;
mod refusals;
mod section;
mod section_table;

pub use class_layout::{ClassLayout, FILE_LIMIT};
pub use debug::Sections;
pub use elf::Elf;
pub use headers::{FileHeader, SectionHeader};
pub use refusals::{ElfRefusal, OpenRefusal};
pub use section::Section;
pub use section_table::SectionTable;
