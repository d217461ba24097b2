//! What the definitions of directories and files say in the standards' own words. The functions do
//! nothing: their contracts are the laws.

ghost use Rattle.std.specs.Prelude.{ℕ, IfOk};
ghost use Rattle.elf_sections.specs.Shapes.{sections_view};
ghost use Rattle.line_programs.specs.LastValues.{LastCounts};
ghost use Rattle.line_programs.specs.DefinedFiles.{IsDefined, defined_files};
ghost use Rattle.line_programs.specs.Names.{name_at};
ghost use Rattle.line_programs.specs.TextTables.{IsTextTable, text_table_at};
ghost use Rattle.line_programs.specs.declared.text_tables.TextTable.{TextTable};

use crate::formats::Format;
use dw_fields::Cut;
use elf_sections::Sections;
use form_values::Widths;
use line_machine::Program;

/// Where a content type is repeated among an entry's formats (DWARF 5 section 6.2.4.1), its last
/// value counts: the path of the entry is the text that its last path stands for, and its directory
/// the number of its last directory index.
#[tactic(auto, using(crate::proofs::LastLaws::last_counts))]
pub fn last_value_of_a_content_type_counts(
    sections: &Sections<'_>,
    widths: Widths,
    formats: &[Format],
    cut: &Cut<'_>,
)
    ensures { IfOk (name_at (sections_view sections.now) widths formats.now cut.now)
        (λ read. LastCounts (sections_view sections.now) widths formats.now cut.now read.0 read.1) }
{}

/// A table of directories or files in a header of version 4 (DWARF 4 section 6.2.4) is its entries, one
/// behind another up to the empty text or to the first that is refused, behind an empty one of number 0.
pub fn text_tables_are_their_entries(cut: &Cut<'_>)
    ensures { (table : TextTable) → IsTextTable table cut.now (text_table_at table cut.now) }
{
    let _place = cut.place();
}

/// The files that a program of version 4 defines are those of its operations, one behind another up to
/// the program's end or to the first that is refused (DWARF 4 section 6.2.5.3).
#[tactic(auto, using(crate::proofs::Defined::defined_files_stand))]
pub fn defined_files_are_those_of_the_operations(cut: &Cut<'_>, program: &Program, lengths: &[u8])
    ensures { IsDefined program.now lengths.now cut.now
        (defined_files program.now lengths.now cut.now) }
{}
