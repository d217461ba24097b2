//! The parts of a unit that commands print: its line, its line table, or its lists. The text of its entries is the dump's.

ghost use Rattle.std.specs.Prelude.{◌≡◌, ◌<◌};
ghost use Rattle.unit_headers.specs.Headers.{unit_count};
ghost use Rattle.unit_text.specs.Pieces.{Writes};
ghost use Rattle.dw_run.specs.Parts.{unit_part};

use crate::unit_reader::UnitReader;
use bumpalo::Bump;
use line_text::write_lines_with;
use std::alloc::Global;
use unit_headers::UnitRefusal;
use unit_text::write_unit_line;

/// A part of a unit.
#[derive(Clone, Copy, Debug, PartialEq, Eq)]
pub enum Part {
    /// The line of the unit alone.
    Line,
    /// The line table.
    LineTable,
    /// The range lists and location lists of all entries.
    Lists,
}

/// Appends this part of unit `unit` of an opened file. Declarations lie in the arena.
///
/// # Errors
/// The first fault of the part, or want of memory; `out` is then as it was.
#[tactic(auto, unfolding(crate::specs::Parts::unit_part, crate::specs::Parts::part_of, entry_tree::specs::Units::unit_facts))]
pub fn append_part(
    alloc: Global,
    part: Part,
    arena: &Bump,
    reader: &mut UnitReader<'_, '_>,
    unit: u32,
    out: &mut Vec<u8>,
) -> Result<(), UnitRefusal>
    requires { unit < unit_count reader.old.info reader.old.order }
    ensures text { Writes result out.old.items out.new.items (unit_part part reader.old unit) }
    ensures same { reader.new ≡ reader.old }
{
    let header = reader.header(unit)?;
    match part {
        Part::Line => Ok(write_unit_line(alloc, &header, out)?),
        Part::LineTable => {
            let facts = reader.facts(unit)?;
            write_lines_with(alloc, &mut reader.tables, &header, &facts, out)
        }
        Part::Lists => {
            let facts = reader.facts(unit)?;
            reader.write_lists(alloc, arena, &header, &facts, out)
        }
    }
}
