//! Range lists.
ghost use Rattle.std.specs.Prelude.{◌≡◌, option_map};
ghost use Rattle.dw_fields.specs.Reading.{IsAddressSize};
ghost use Rattle.elf_sections.specs.Shapes.{sections_view};
ghost use Rattle.unit_headers.specs.Refusals.{Answers};
ghost use Rattle.range_lists.specs.declared.bounds.Range.{Range};
ghost use Rattle.range_lists.specs.ListSteps.{step_view};
ghost use Rattle.range_lists.specs.Ranges.{ranges_of, range_entry_at, range_section, step_behind};

use crate::bounds::Range;
use crate::context::{UnitContext, has_pairs};
use crate::entry::read_range_operands;
use crate::list_step::ListStep;
use crate::lists::{Listed, list_cut, read_list};
use crate::operands::Operands;
use dw_fields::{Code, Cut, Fault};
use elf_sections::Sections;
use form_values::UnitFacts;
use std::alloc::Global;
use unit_headers::{UnitHeader, UnitRefusal};

/// The ranges of the list at `offset` in `.debug_rnglists`, or in `.debug_ranges` for a unit of
/// version 4, in their order, empty ones too. The base of its offsets is the unit's lowest address, or
/// 0 where it has none, up to the first entry that sets another.
///
/// # Errors
/// The first of these in the order of reading.
/// - `NoSection` at 0: there is no such section.
/// - `ListUnended` at the section's length: the section ends where a kind or a pair should stand, or
///   the offset is at or past its end.
/// - `ListKind` at the kind: no kind has this number.
/// - `ListTruncated` at an operand that passes the section's end, `LebTooLarge` at one that 64 bits
///   don't hold.
/// - `NoBase`, `NoSection` and `IndexOutside` at the kind: an index has no address.
///
/// Want of memory may come at any time.
#[tactic(auto, unfolding(crate::specs::Ranges::ranges_of))]
pub fn read_ranges(
    alloc: Global,
    sections: &Sections<'_>,
    header: &UnitHeader,
    facts: &UnitFacts,
    offset: u64,
) -> Result<Vec<Range>, UnitRefusal>
    requires { IsAddressSize header.now.address_size }
    ensures { Answers (λ ranges. ranges.items)
        result (ranges_of (sections_view sections.now)
        header.now.version header.now.address_size facts.now offset) }
{
    let Some(section) = range_section(sections, header.version) else {
        return Err(UnitRefusal::Refused(Fault::at(Code::NoSection, 0)));
    };
    let unit = UnitContext {
        sections,
        header,
        bases: &facts.bases,
    };
    let cut = list_cut(section, sections.order, offset);
    read_list(alloc, &unit, cut, facts.low_pc.unwrap_or(0))
}

/// The section of the range lists of units of this version.
#[tactic(auto, unfolding(crate::specs::Ranges::range_section))]
fn range_section<'f>(sections: &Sections<'f>, version: u16) -> Option<&'f [u8]>
    ensures { option_map (λ b. b.now) result
        ≡ range_section (sections_view sections.entry.now) version }
{
    if has_pairs(version) {
        return sections.ranges;
    }
    sections.range_lists
}

impl<'f> Listed<'f> for Range {
    ghost View = { Range };

    ghost view = { λ r. r };

    ghost entry_at = { range_entry_at };

    #[tactic(auto, unfolding(crate::specs::Ranges::range_entry_at))]
    fn read_entry(
        cut: &mut Cut<'f>,
        unit: &UnitContext<'_, '_>,
        base: u64,
    ) -> Result<Option<ListStep<Range>>, Fault> {
        let operands = read_range_operands(cut, unit, base)?;
        Ok(step_of(base, operands))
    }
}

fn step_of(base: u64, operands: Operands) -> Option<ListStep<Range>>
    ensures { option_map (step_view (λ r. r)) result ≡ step_behind base operands }
{
    match operands {
        Operands::End => None,
        Operands::Base(base) => Some(ListStep { base, listed: None }),
        Operands::Bounds(listed) => Some(ListStep { base, listed }),
    }
}
