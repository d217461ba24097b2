//! The lines of directories and files.

ghost use Rattle.std.specs.Prelude.{◌≡◌, ◌≤◌, drop, map};
ghost use Rattle.dw_text.specs.Added.{Adds};
ghost use Rattle.line_programs.specs.Shapes.{name_view};
ghost use Rattle.line_text.specs.Names.{directories_text, directory_line, file_line, files_text, first_number, quoted_end};
ghost use Rattle.line_text.specs.Numbered.{numbered};

use dw_text::{push_decimal_after, push_escaped_after, push_text_after};
use line_programs::FileName;
use std::alloc::AllocError;

/// The first number of a directory or file that has a line, in a header of this version.
#[tactic(auto, unfolding(crate::specs::Names::first_number))]
pub(crate) fn first_number(version: u16) -> u64
    ensures number { result ≡ first_number version }
    ensures few { result ≤ 1 }
{
    if version == 4 { 1 } else { 0 }
}

/// The names from a number on.
fn names_from<T>(names: &[T], first: u64) -> &[T]
    ensures { result.now ≡ drop first names.now }
{
    if first as usize > names.len() {
        return &[];
    }
    names.split_at(first as usize).1
}

/// Appends a line for each directory from this number on.
#[tactic(auto, using(crate::proofs::Lines::named_from))]
pub(crate) fn push_directories(
    out: &mut Vec<u8>,
    first: u64,
    directories: &[&[u8]],
) -> Result<(), AllocError>
    requires { first ≤ 1 }
    ensures { Adds result out.old.items out.new.items
        (directories_text first (map (λ d. d.now) directories.now)) }
{
    push_directory_lines(out, first, names_from(directories, first))?;
    Ok(())
}

/// Appends a line for each of these directories, whose numbers begin at `first`.
fn push_directory_lines(
    out: &mut Vec<u8>,
    first: u64,
    directories: &[&[u8]],
) -> Result<(), AllocError>
    requires { first ≤ 1 }
    ensures { Adds result out.old.items out.new.items
        (numbered directory_line first (map (λ d. d.now) directories.now)) }
{
    let mut number = first;
    'directories: for directory in directories {
        push_directory(out, number, directory)?;
        number += 1;
    }
    Ok(())
}

/// Appends a line for each file from this number on.
#[tactic(auto, using(crate::proofs::Lines::named_from))]
pub(crate) fn push_files(
    out: &mut Vec<u8>,
    first: u64,
    files: &[FileName<'_>],
) -> Result<(), AllocError>
    requires { first ≤ 1 }
    ensures { Adds result out.old.items out.new.items
        (files_text first (map name_view files.now)) }
{
    push_file_lines(out, first, names_from(files, first))?;
    Ok(())
}

/// Appends a line for each of these files, whose numbers begin at `first`.
fn push_file_lines(out: &mut Vec<u8>, first: u64, files: &[FileName<'_>]) -> Result<(), AllocError>
    requires { first ≤ 1 }
    ensures { Adds result out.old.items out.new.items
        (numbered file_line first (map name_view files.now)) }
{
    let mut number = first;
    'files: for file in files {
        push_file(out, number, file)?;
        number += 1;
    }
    Ok(())
}

#[tactic(auto, unfolding(crate::specs::Names::directory_line))]
fn push_directory(out: &mut Vec<u8>, number: u64, path: &[u8]) -> Result<(), AllocError>
    ensures { Adds result out.old.items out.new.items (directory_line number path.now) }
{
    push_decimal_after(out, b"dir ", number)?;
    push_quoted_end(out, path)?;
    Ok(())
}

#[tactic(auto, unfolding(crate::specs::Names::file_line))]
fn push_file(out: &mut Vec<u8>, number: u64, file: &FileName<'_>) -> Result<(), AllocError>
    ensures { Adds result out.old.items out.new.items (file_line number (name_view file.now)) }
{
    push_decimal_after(out, b"file ", number)?;
    push_decimal_after(out, b" ", file.directory)?;
    push_quoted_end(out, file.path)?;
    Ok(())
}

#[tactic(auto, unfolding(crate::specs::Names::quoted_end))]
fn push_quoted_end(out: &mut Vec<u8>, text: &[u8]) -> Result<(), AllocError>
    ensures { Adds result out.old.items out.new.items (quoted_end text.now) }
{
    push_escaped_after(out, b" \"", text)?;
    push_text_after(out, b"\"\n", b"")?;
    Ok(())
}
