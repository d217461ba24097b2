//! The sections, and the file that holds them.

ghost use Rattle.std.specs.Prelude.{◌≡◌, ◌≤◌, IfOk};
ghost use Rattle.exercise_file.specs.Generated.{declarations as declarations_of, generated, generated_file, info as info_of, names as names_of, range_lists as range_lists_of};

use crate::numbers::push_four;
use crate::pieces::push_pieces;
use crate::tables::{TablePiece, shared_texts};
use crate::units::{NamePiece, RangesPiece, UnitPiece};
use elf_builder::ElfBuilder;
use std::alloc::{AllocError, Global};

/// The most units of a generated file.
pub const MOST_UNITS: u64 = 9_999;

/// `.debug_abbrev`: a table for each ten units.
#[tactic(auto, unfolding(crate::specs::Generated::declarations))]
fn declarations(alloc: Global, units: u64) -> Result<Vec<u8>, AllocError>
    requires { units ≤ MOST_UNITS }
    ensures { IfOk result (λ bytes. bytes.items ≡ declarations_of units) }
{
    let mut bytes = Vec::new(alloc);
    push_pieces::<TablePiece>(&mut bytes, (units + 9) / 10)?;
    Ok(bytes)
}

/// `.debug_info`: the units.
#[tactic(auto, unfolding(crate::specs::Generated::info))]
fn info(alloc: Global, units: u64) -> Result<Vec<u8>, AllocError>
    requires { units ≤ MOST_UNITS }
    ensures { IfOk result (λ bytes. bytes.items ≡ info_of units) }
{
    let mut bytes = Vec::new(alloc);
    push_pieces::<UnitPiece>(&mut bytes, units)?;
    Ok(bytes)
}

/// `.debug_line_str`: the names of the units.
#[tactic(auto, unfolding(crate::specs::Generated::names))]
fn names(alloc: Global, units: u64) -> Result<Vec<u8>, AllocError>
    requires { units ≤ MOST_UNITS }
    ensures { IfOk result (λ bytes. bytes.items ≡ names_of units) }
{
    let mut bytes = Vec::new(alloc);
    push_pieces::<NamePiece>(&mut bytes, units)?;
    Ok(bytes)
}

/// `.debug_rnglists`: a header, and the range lists of the units.
#[tactic(auto, unfolding(crate::specs::Generated::range_lists, crate::specs::Generated::ranges_head))]
fn range_lists(alloc: Global, units: u64) -> Result<Vec<u8>, AllocError>
    requires { units ≤ MOST_UNITS }
    ensures { IfOk result (λ bytes. bytes.items ≡ range_lists_of units) }
{
    let mut bytes = Vec::new(alloc);
    push_four(&mut bytes, 8 + 12 * units)?;
    bytes.extend_from_slice(&[5, 0, 8, 0, 0, 0, 0, 0])?;
    push_pieces::<RangesPiece>(&mut bytes, units)?;
    Ok(bytes)
}

/// The five sections in their order.
fn builder_of(alloc: Global, units: u64) -> Result<ElfBuilder, AllocError>
    requires { units ≤ MOST_UNITS }
    ensures { IfOk result (λ builder. builder ≡ generated units) }
{
    let mut builder = ElfBuilder::new(alloc);
    builder.add(".debug_abbrev", declarations(alloc, units)?.as_slice())?;
    builder.add(".debug_info", info(alloc, units)?.as_slice())?;
    builder.add(".debug_str", shared_texts())?;
    builder.add(".debug_line_str", names(alloc, units)?.as_slice())?;
    builder.add(".debug_rnglists", range_lists(alloc, units)?.as_slice())?;
    Ok(builder)
}

/// The file of so many units.
///
/// # Errors
///
/// Where memory runs out.
#[tactic(auto, unfolding(crate::specs::Generated::generated_file))]
pub fn generate(alloc: Global, units: u64) -> Result<Vec<u8>, AllocError>
    requires { units ≤ MOST_UNITS }
    ensures { IfOk result (λ file. file.items ≡ generated_file units) }
{
    builder_of(alloc, units)?.finish()
}
