//! The files that a program of version 4 defines (DWARF 4 section 6.2.5.3).

ghost use Rattle.std.specs.Prelude.{◌≡◌, ◌+◌, ◌≤◌, ◌++◌, length, map, OnOk, option_map, option_to_list};
ghost use Rattle.dw_fields.specs.Reading.{Reads};
ghost use Rattle.line_programs.specs.Shapes.{name_view};
ghost use Rattle.line_programs.specs.DefinedFiles.{defined_by, defined_file_at, defined_files, extended_number_at};

use crate::names::FileName;
use dw_fields::{Cut, Fault};
use line_machine::{Operation, Program, read_file_numbers, read_operation};
use std::alloc::AllocError;

/// Puts the files that the operations in `cut` define behind the others, up to the program's end or to
/// the first operation that is refused.
#[tactic(auto, using(crate::proofs::Defined::defined_start))]
pub(crate) fn add_defined_files<'f>(
    files: &mut Vec<FileName<'f>>,
    mut cut: Cut<'f>,
    program: &Program,
    lengths: &[u8],
) -> Result<(), AllocError>
    requires { program.now.opcode_base ≤ length lengths.now + 1 }
    ensures { OnOk result (map name_view files.new.items
        ≡ map name_view files.old.items ++ defined_files program.now lengths.now cut.entry) }
{
    let left = cut.left();
    'program: for _turn in 0..left {
        if cut.left() == 0 {
            return Ok(());
        }
        let ahead = cut.fork();
        let Ok(operation) = read_operation(&mut cut, program, lengths) else {
            return Ok(());
        };
        add_defined(files, ahead, operation)?;
    }
    Ok(())
}

/// Puts the file that this operation at the cut's place defines behind the others, if it defines one.
fn add_defined<'f>(
    files: &mut Vec<FileName<'f>>,
    cut: Cut<'f>,
    operation: Operation,
) -> Result<(), AllocError>
    ensures { OnOk result (map name_view files.new.items
        ≡ map name_view files.old.items ++ defined_by operation cut.entry) }
{
    match defined_file(cut, operation) {
        Some(file) => Ok(files.push(file)?),
        None => Ok(()),
    }
}

/// The file that this operation at the cut's place defines.
fn defined_file<'f>(mut cut: Cut<'f>, operation: Operation) -> Option<FileName<'f>>
    ensures { option_to_list (option_map name_view result) ≡ defined_by operation cut.entry }
{
    if operation != Operation::DefineFile {
        return None;
    }
    match read_defined_file(&mut cut) {
        Ok(file) => Some(file),
        Err(_) => None,
    }
}

/// An operation that defines a file, from its opcode on.
#[tactic(auto, unfolding(crate::specs::DefinedFiles::defined_file_at))]
fn read_defined_file<'f>(cut: &mut Cut<'f>) -> Result<FileName<'f>, Fault>
    ensures { Reads name_view result defined_file_at cut.old cut.new }
{
    let _kind = read_extended_number(cut)?;
    let path = cut.text()?;
    let directory = read_file_numbers(cut)?;
    Ok(FileName { path, directory })
}

/// The opcode, the length and the number of an extended operation; the last is the answer.
#[tactic(auto, unfolding(crate::specs::DefinedFiles::extended_number_at))]
fn read_extended_number(cut: &mut Cut<'_>) -> Result<u8, Fault>
    ensures { Reads (λ x. x) result extended_number_at cut.old cut.new }
{
    let _opcode = cut.u8()?;
    let _size = cut.uleb()?;
    cut.u8()
}
