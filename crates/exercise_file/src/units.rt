//! The units, and what other sections hold of each: its name and its range list.

ghost use Rattle.std.specs.Prelude.{◌≡◌, ◌≤◌, ◌++◌, OnOk};
ghost use Rattle.exercise_file.specs.Generated.{digit as digit_of, ended_name, root, unit_bytes, unit_head, unit_ranges};
ghost use Rattle.exercise_file.specs.declared.generated.TheConstants.{MOST_UNITS};

use crate::functions::{low_address, push_base_type, push_functions, push_variable};
use crate::numbers::{push_eight, push_four, push_two};
use crate::pieces::Piece;
use std::alloc::AllocError;

/// A unit in `.debug_info`.
pub(super) struct UnitPiece;

/// The name of a unit in `.debug_line_str`.
pub(super) struct NamePiece;

/// The range list of a unit in `.debug_rnglists`.
pub(super) struct RangesPiece;

/// Appends a unit's header.
#[tactic(auto, unfolding(crate::specs::Generated::unit_head))]
fn push_unit_head(out: &mut Vec<u8>, unit: u64) -> Result<(), AllocError>
    requires { unit ≤ MOST_UNITS }
    ensures { OnOk result (out.new.items ≡ out.old.items ++ unit_head unit) }
{
    push_four(out, 139)?;
    push_two(out, 5)?;
    out.extend_from_slice(&[1, 8])?;
    push_four(out, 55 * (unit / 10))?;
    Ok(())
}

/// Appends a unit's root.
#[tactic(auto, unfolding(crate::specs::Generated::root))]
fn push_root(out: &mut Vec<u8>, unit: u64) -> Result<(), AllocError>
    requires { unit ≤ MOST_UNITS }
    ensures { OnOk result (out.new.items ≡ out.old.items ++ root unit) }
{
    out.push(1)?;
    push_four(out, 8 * unit)?;
    push_four(out, 0)?;
    push_eight(out, low_address(unit))?;
    push_four(out, 4096)?;
    push_four(out, 12 + 12 * unit)?;
    Ok(())
}

impl Piece for UnitPiece {
    ghost bytes = { unit_bytes };

    #[tactic(auto, unfolding(crate::specs::Generated::unit_bytes))]
    fn push(out: &mut Vec<u8>, number: u64) -> Result<(), AllocError> {
        push_unit_head(out, number)?;
        push_root(out, number)?;
        push_base_type(out)?;
        push_functions(out, number)?;
        push_variable(out)?;
        out.push(0)?;
        Ok(())
    }
}

/// The decimal digit of the number that counts ones.
fn digit(number: u64) -> u8
    ensures { result ≡ digit_of number }
{
    48 + (number % 10) as u8
}

impl Piece for NamePiece {
    ghost bytes = { ended_name };

    #[tactic(auto, unfolding(crate::specs::Generated::ended_name, crate::specs::Generated::unit_name))]
    fn push(out: &mut Vec<u8>, number: u64) -> Result<(), AllocError> {
        let thousands = digit(number / 1000);
        let hundreds = digit(number / 100);
        let tens = digit(number / 10);
        let ones = digit(number);
        out.extend_from_slice(&[b'u', thousands, hundreds, tens, ones, b'.', b'c', 0])
    }
}

impl Piece for RangesPiece {
    ghost bytes = { unit_ranges };

    #[tactic(auto, unfolding(crate::specs::Generated::unit_ranges))]
    fn push(out: &mut Vec<u8>, number: u64) -> Result<(), AllocError> {
        out.push(7)?;
        push_eight(out, low_address(number))?;
        out.extend_from_slice(&[0x80, 0x20, 0x00])?;
        Ok(())
    }
}
