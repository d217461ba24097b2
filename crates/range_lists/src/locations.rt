//! Location lists.
ghost use Rattle.std.specs.Prelude.{◌≡◌, map, option_map};
ghost use Rattle.dw_fields.specs.Reading.{IsAddressSize, Reads, number_at};
ghost use Rattle.elf_sections.specs.Shapes.{sections_view};
ghost use Rattle.unit_headers.specs.Refusals.{Answers};
ghost use Rattle.range_lists.specs.Context.{context_view};
ghost use Rattle.range_lists.specs.ListSteps.{step_view};
ghost use Rattle.range_lists.specs.Operands.{in_list};
ghost use Rattle.range_lists.specs.Locations.{LocationView, count_at, expression_at, located, location_entry_at, location_section, location_view, locations_of};

use crate::bounds::Range;
use crate::context::{UnitContext, has_pairs};
use crate::entry::read_location_operands;
use crate::list_step::ListStep;
use crate::lists::{Listed, list_cut, read_list};
use crate::operands::{Operands, in_list, number};
use dw_fields::{Code, Cut, Fault};
use elf_sections::Sections;
use form_values::UnitFacts;
use std::alloc::Global;
use unit_headers::{UnitHeader, UnitRefusal};

/// Where a value lies while the program counter is in a range. `range` is `None` for the default
/// location, which holds wherever no other one does.
#[derive(Clone, Copy, Debug)]
pub struct Location<'f> {
    /// The addresses that the location holds for.
    pub range: Option<Range>,
    /// The location expression (DWARF 5 section 2.5).
    pub expression: &'f [u8],
}

/// The locations of the list at `offset` in `.debug_loclists`, or in `.debug_loc` for a unit of version
/// 4, in their order, those of empty ranges too. The base of its offsets is that of
/// [`read_ranges`](crate::read_ranges).
///
/// # Errors
/// Those of [`read_ranges`](crate::read_ranges) for this section. The count of an expression's bytes
/// is an operand too, and so are the bytes behind it.
#[tactic(auto, unfolding(crate::specs::Locations::locations_of))]
pub fn read_locations<'f>(
    alloc: Global,
    sections: &Sections<'f>,
    header: &UnitHeader,
    facts: &UnitFacts,
    offset: u64,
) -> Result<Vec<Location<'f>>, UnitRefusal>
    requires { IsAddressSize header.now.address_size }
    ensures { Answers (λ locations. map location_view locations.items)
        result (locations_of (sections_view sections.entry.now)
        header.now.version header.now.address_size facts.now offset) }
{
    let Some(section) = location_section(sections, header.version) else {
        return Err(UnitRefusal::Refused(Fault::at(Code::NoSection, 0)));
    };
    let unit = UnitContext {
        sections,
        header,
        bases: &facts.bases,
    };
    let cut = list_cut(section, sections.order, offset);
    read_list(alloc, &unit, cut, facts.low_pc.unwrap_or(0))
}

/// The section of the location lists of units of this version.
#[tactic(auto, unfolding(crate::specs::Locations::location_section))]
fn location_section<'f>(sections: &Sections<'f>, version: u16) -> Option<&'f [u8]>
    ensures { option_map (λ b. b.now) result
        ≡ location_section (sections_view sections.entry.now) version }
{
    if has_pairs(version) {
        return sections.locations;
    }
    sections.location_lists
}

impl<'f> Listed<'f> for Location<'f> {
    ghost View = { LocationView };

    ghost view = { location_view };

    ghost entry_at = { location_entry_at };

    #[tactic(auto, unfolding(crate::specs::Locations::location_entry_at))]
    fn read_entry(
        cut: &mut Cut<'f>,
        unit: &UnitContext<'_, '_>,
        base: u64,
    ) -> Result<Option<ListStep<Location<'f>>>, Fault> {
        let operands = read_location_operands(cut, unit, base)?;
        step_of(cut, unit, base, operands)
    }
}

/// Behind the operands stands the expression, where the entry lists a location.
#[tactic(auto, unfolding(crate::specs::Locations::located))]
fn step_of<'f>(
    cut: &mut Cut<'f>,
    unit: &UnitContext<'_, '_>,
    base: u64,
    operands: Operands,
) -> Result<Option<ListStep<Location<'f>>>, Fault>
    ensures { Reads (option_map (step_view location_view)) result
        (located (context_view unit.now) base operands) cut.old cut.new }
{
    match operands {
        Operands::End => Ok(None),
        Operands::Base(base) => Ok(Some(ListStep { base, listed: None })),
        Operands::Bounds(range) => {
            let expression = expression(cut, unit)?;
            Ok(Some(ListStep {
                base,
                listed: Some(Location { range, expression }),
            }))
        }
    }
}

/// A count and that many bytes.
#[tactic(auto, unfolding(crate::specs::Locations::expression_at))]
fn expression<'f>(cut: &mut Cut<'f>, unit: &UnitContext<'_, '_>) -> Result<&'f [u8], Fault>
    ensures { Reads (λ b. b.now) result (expression_at (context_view unit.now)) cut.old cut.new }
{
    let count = count(cut, unit)?;
    in_list(cut.bytes(count))
}

/// The number of an expression's bytes.
#[tactic(auto, unfolding(crate::specs::Locations::count_at))]
fn count(cut: &mut Cut, unit: &UnitContext<'_, '_>) -> Result<u64, Fault>
    ensures { Reads (λ x. x) result (count_at (context_view unit.now)) cut.old cut.new }
{
    if has_pairs(unit.header.version) {
        return short_count(cut);
    }
    number(cut)
}

/// A number of 2 bytes.
fn short_count(cut: &mut Cut) -> Result<u64, Fault>
    ensures { Reads (λ x. x) result (λ s. in_list (number_at 2 s)) cut.old cut.new }
{
    let count = in_list(cut.u16())?;
    Ok(u64::from(count))
}
