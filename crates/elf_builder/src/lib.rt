//! Builds ELF files of one fixed shape, out of named sections: nothing but the given sections and
//! the table of their names, in either class and byte order (gABI, chapter 4). Tests and generators
//! make their files with it.
//!
//! [`ElfBuilder`] promises the whole file, byte by byte, as its definition spells it field by
//! field.
#![tactic(auto)]

mod builder;
mod fields;
mod file_plan;
mod headers;
mod sections;
mod sizes;

pub use builder::ElfBuilder;
