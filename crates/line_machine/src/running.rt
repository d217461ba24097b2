//! A line program run from its first byte to its end (DWARF 5 section 6.2).

ghost use Rattle.std.specs.Prelude.{◌≡◌, ◌+◌, ◌≤◌, [], ◌++◌, length, map, IfOk, OnOk, option_to_list};
ghost use Rattle.dw_fields.specs.Reading.{Moves, Reads};
ghost use Rattle.unit_headers.specs.Refusals.{Answers};
ghost use Rattle.line_machine.specs.Machine.{IsRunnable, fresh as fresh_of};
ghost use Rattle.line_machine.specs.Running.{IsRun, kept_rows, line_rows, outcome, step_at};

use crate::machine::step;
use crate::operations::read_operation;
use crate::registers::{OfRow, Program, Row, fresh};
use dw_fields::{Cut, Fault};
use std::alloc::{AllocError, Global};
use unit_headers::UnitRefusal;

/// How many rows are made room for at once, at most.
const ROOM: u64 = 65_536;

/// The rows of the program in `cut`, from its place to its end; `lengths` are the header's numbers of
/// operands, from opcode 1 on.
///
/// # Errors
/// Those of [`read_operation`] at the first operation that is refused, or want of memory.
pub fn rows(
    alloc: Global,
    cut: Cut<'_>,
    program: &Program,
    lengths: &[u8],
) -> Result<Vec<Row>, UnitRefusal>
    requires runnable { IsRunnable program.now }
    requires known { program.now.opcode_base ≤ length lengths.now + 1 }
    ensures { Answers (λ v. v.items) result (line_rows program.now lengths.now cut.entry) }
{
    rows_as(alloc, cut, program, lengths)
}

/// What a caller keeps of these rows.
///
/// # Errors
/// Those of [`rows`].
#[tactic(auto, using(crate::proofs::Turns::rows_start))]
pub fn rows_as<K: OfRow>(
    alloc: Global,
    mut cut: Cut<'_>,
    program: &Program,
    lengths: &[u8],
) -> Result<Vec<K>, UnitRefusal>
    requires runnable { IsRunnable program.now }
    requires known { program.now.opcode_base ≤ length lengths.now + 1 }
    ensures { Answers (λ v. v.items) result
        (kept_rows K.kept (line_rows program.now lengths.now cut.entry)) }
{
    let left = cut.left();
    let mut rows = room(alloc, left)?;
    let mut registers = fresh(program);
    'program: for _turn in 0..left {
        if cut.left() == 0 {
            return Ok(rows);
        }
        let row = read_step(&mut cut, program, lengths, &mut registers)?;
        keep(&mut rows, row)?;
    }
    Ok(rows)
}

/// No rows, with room for those of so many bytes: most rows take a few bytes.
fn room<K: OfRow>(alloc: Global, bytes: u64) -> Result<Vec<K>, AllocError>
    ensures { IfOk result (λ v. v.items ≡ []) }
{
    Vec::with_capacity(alloc, (bytes / 4).min(ROOM) as usize)
}

/// Reads an operation and does it.
#[inline]
#[tactic(auto, unfolding(crate::specs::Running::step_at))]
fn read_step(
    cut: &mut Cut<'_>,
    program: &Program,
    lengths: &[u8],
    registers: &mut Row,
) -> Result<Option<Row>, Fault>
    requires runnable { IsRunnable program.now }
    requires known { program.now.opcode_base ≤ length lengths.now + 1 }
    ensures field { Reads (λ row. outcome (registers.new, row)) result
        (step_at program.now lengths.now registers.old) cut.old cut.new }
    ensures moves { OnOk result (Moves 1 cut.old cut.new) }
{
    let operation = read_operation(cut, program, lengths)?;
    Ok(step(program, registers, operation))
}

/// Puts what is kept of the row behind the others, where there is one.
#[inline]
fn keep<K: OfRow>(rows: &mut Vec<K>, row: Option<Row>) -> Result<(), AllocError>
    ensures { OnOk result (rows.new.items ≡ rows.old.items ++ map K.kept (option_to_list row)) }
{
    match row {
        Some(row) => Ok(rows.push(K::of_row(&row))?),
        None => Ok(()),
    }
}

/// The rows of a program are those of its operations, read and done one behind another from the
/// start of a sequence up to the program's end, or up to the first that is refused.
///
/// This is a law, for proofs; the call does nothing.
pub fn rows_are_those_of_the_operations(cut: &Cut<'_>, program: &Program, lengths: &[u8])
    ensures { IsRun program.now lengths.now (fresh_of program.now) cut.now
        (line_rows program.now lengths.now cut.now) }
{}
