//! The six lines.

ghost use Rattle.std.specs.Prelude.{◌≡◌};
ghost use Rattle.dw_text.specs.Added.{Adds};
ghost use Rattle.exercise_dumps.specs.Lines.{equal_line, file_lines, lines_of, number_line, table_lines};

use crate::twice::Exercise;
use dw_text::{push_decimal_after, push_text};
use std::alloc::AllocError;

/// Appends a word and a number, as a line.
#[tactic(auto, unfolding(crate::specs::Lines::number_line))]
fn push_number_line(out: &mut Vec<u8>, word: &[u8], number: u64) -> Result<(), AllocError>
    ensures { Adds result out.old.items out.new.items (number_line word.now number) }
{
    push_decimal_after(out, word, number)?;
    push_text(out, b"\n")
}

/// Appends whether the texts are the same.
#[tactic(auto, unfolding(crate::specs::Lines::equal_line))]
fn push_equal_line(out: &mut Vec<u8>, equal: bool) -> Result<(), AllocError>
    ensures { Adds result out.old.items out.new.items (equal_line equal) }
{
    if equal {
        push_text(out, b"equal yes\n")
    } else {
        push_text(out, b"equal no\n")
    }
}

/// Appends what the first dump tells of the file.
#[tactic(auto, unfolding(crate::specs::Lines::file_lines))]
fn push_file_lines(
    out: &mut Vec<u8>,
    units: u32,
    entries: u64,
    bytes: u64,
) -> Result<(), AllocError>
    ensures { Adds result out.old.items out.new.items (file_lines units entries bytes) }
{
    push_number_line(out, b"units ", u64::from(units))?;
    push_number_line(out, b"entries ", entries)?;
    push_number_line(out, b"bytes ", bytes)
}

/// Appends what it left in the table, and what the second dump made of that.
#[tactic(auto, unfolding(crate::specs::Lines::table_lines))]
fn push_table_lines(
    out: &mut Vec<u8>,
    published: u64,
    again: u64,
    equal: bool,
) -> Result<(), AllocError>
    ensures { Adds result out.old.items out.new.items (table_lines published again equal) }
{
    push_number_line(out, b"published ", published)?;
    push_number_line(out, b"again ", again)?;
    push_equal_line(out, equal)
}

/// Appends the six lines.
///
/// # Errors
///
/// Where memory runs out; some of the text may stand behind `out` then.
pub fn push_exercise(out: &mut Vec<u8>, exercise: &Exercise) -> Result<(), AllocError>
    ensures { Adds result out.old.items out.new.items (lines_of exercise.now.published
        exercise.now.bytes exercise.now.again exercise.now.equal) }
{
    let published = &exercise.published;
    push_file_lines(out, published.units(), published.entries(), exercise.bytes)?;
    push_table_lines(out, published.number(), exercise.again, exercise.equal)
}
