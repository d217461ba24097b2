//! The program `dwtool` as a library call: words, a source of files and two sinks in, a status out.
//!
//! [`run`] reads the file that the words name, and prints the texts of their command. Its contract
//! says for every file which bytes standard output and standard error gain and which status is
//! answered, as the definitions of `specs/Output.antt` give them, and what stands there where the
//! source or a sink fails. A command goes over the units of a file one at a time, and prints the
//! texts before the first unit that is refused ([`texts_before_the_first_refusal`]). A dump goes over
//! them by several workers at once, and prints the same.
//!
//! [`append_part`] is the text of one unit of an opened file: its line, its line table or its lists. A
//! [`UnitReader`] looks up what the unit's text needs.
#![tactic(auto)]

mod address_lines;
mod addresses;
mod commands;
mod dump;
mod endings;
mod exercise;
mod file_command;
mod laws;
mod opened;
mod parts;
mod program;
mod queries;
mod refusal_lines;
mod refusals;
mod section_lines;
mod tables;
mod unit_reader;
mod unit_texts;
mod units;

pub use elf_builder::ElfBuilder;
pub use endings::RunEnd;
pub use laws::texts_before_the_first_refusal;
pub use parts::{Part, append_part};
pub use program::run;
pub use refusal_lines::file_number;
pub use unit_reader::UnitReader;
