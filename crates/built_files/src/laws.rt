//! What the definitions of a built file and of a section table say together. The function does
//! nothing: its contract is the law.

ghost use Rattle.std.specs.Prelude.{◌≡◌, Ok};
ghost use Rattle.elf_builder.specs.File.{elf_file_of};
ghost use Rattle.elf_sections.specs.Names.{elf_of};
ghost use Rattle.built_files.specs.Tables.{IsBuildable, table_of_given};

use elf_builder::ElfBuilder;

/// The section table of a builder's file is the sections that were given: nothing in it is refused,
/// and each section has its name and its bytes, in the order of adding.
#[tactic(auto, using(crate::proofs::Files::elf_read))]
pub fn table_is_what_was_given(builder: &ElfBuilder)
    requires { IsBuildable builder.now }
    ensures { elf_of (elf_file_of builder.now) ≡ Ok (table_of_given builder.now) }
{}
