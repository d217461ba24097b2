//! What a reader of section tables finds in a file that `elf_builder` made (gABI, chapter 4).
//!
//! [`table_is_what_was_given`] says it: the sections that were given, in the order of adding, behind
//! the empty section 0 and before that of the names. On the way stand laws that any reader of
//! written bytes can use: what lies at a place of some bytes (`specs/Places.antt`), and that a number
//! in a field of fixed width reads back (`specs/Fields.antt`).
#![tactic(auto)]

mod laws;

pub use laws::table_is_what_was_given;
