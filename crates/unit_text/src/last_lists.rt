//! The range list and the location list that were read last.

ghost use Rattle.std.specs.Prelude.{◌≡◌, None, Some, IfOk, IfSome, map};
ghost use Rattle.dw_fields.specs.Reading.{IsAddressSize};
ghost use Rattle.elf_sections.specs.Shapes.{sections_view};
ghost use Rattle.range_lists.specs.Locations.{location_view, locations_of};
ghost use Rattle.range_lists.specs.Ranges.{ranges_of};
ghost use Rattle.unit_headers.specs.Refusals.{Answers};
ghost use Rattle.unit_text.specs.LastLists.{IsRangeListOf, IsLocationListOf, context_of};

use elf_sections::Sections;
use form_values::{Bases, UnitFacts};
use range_lists::{Location, Range, read_locations, read_ranges};
use std::alloc::Global;
use std::marker::Model;
use unit_headers::{UnitHeader, UnitRefusal};

/// What a list depends on besides the sections.
#[derive(Clone, Copy, PartialEq, Eq)]
pub(crate) struct ListContext {
    /// The list's offset in its section.
    pub offset: u64,
    /// The unit's version, which chooses the section.
    pub version: u16,
    /// Bytes of an address.
    pub address_size: u8,
    /// Where the unit's tables begin.
    pub bases: Bases,
    /// The unit's lowest address, the first base of the list's offsets.
    pub low_pc: Option<u64>,
}

/// A list that was read, and what it depends on.
#[derive(Drop)]
pub(crate) struct ReadList<T> {
    /// What it depends on.
    pub context: ListContext,
    /// The ranges or locations.
    pub items: Vec<T>,
}

/// The sections of a file, with the range list and the location list that were read last.
///
/// They are handed from unit to unit, so that attributes that name one list, one behind the other,
/// read it once, where the units' bases and lowest addresses are the same too.
#[derive(Drop)]
pub struct LastLists<'f> {
    sections: Sections<'f>,
    ranges: Option<ReadList<Range>>,
    locations: Option<ReadList<Location<'f>>>,
}

impl<'f> Model for LastLists<'f> {
    ghost use Rattle.std.specs.Prelude.{IfSome};
    ghost use Rattle.elf_sections.specs.Shapes.{SectionsView, sections_view};
    ghost use Rattle.unit_text.specs.LastLists.{IsRangeListOf, IsLocationListOf};

    ghost Value = { SectionsView };

    ghost view = { λ l. sections_view l.sections };

    ghost invariant = { λ l. IfSome l.ranges (IsRangeListOf (sections_view l.sections))
        × IfSome l.locations (IsLocationListOf (sections_view l.sections)) };
}

impl<'f> LastLists<'f> {
    /// These sections, of which no list was read yet.
    pub fn new(sections: &Sections<'f>) -> LastLists<'f>
        ensures { result ≡ sections_view sections.entry.now }
    {
        LastLists {
            sections: *sections,
            ranges: None,
            locations: None,
        }
    }

    /// The range list of a unit at an offset. It is no longer kept then, nor is another one: two
    /// range lists never lie in memory at once.
    #[tactic(auto, unfolding(range_lists::specs::Ranges::ranges_of))]
    pub(crate) fn take_ranges(
        &mut self,
        alloc: Global,
        header: &UnitHeader,
        facts: &UnitFacts,
        offset: u64,
    ) -> Result<ReadList<Range>, UnitRefusal>
        requires { IsAddressSize header.now.address_size }
        ensures ranges { Answers (λ l. l.items.items) result
            (ranges_of self.old header.now.version header.now.address_size facts.now offset) }
        ensures context { IfOk result (IsRangeListOf self.old) }
        ensures same { self.new ≡ self.old }
    {
        let context = context_of(header, facts, offset);
        match take_list(&mut self.ranges, &context) {
            Some(list) => Ok(list),
            None => {
                let items = read_ranges(alloc, &self.sections, header, facts, offset)?;
                Ok(ReadList { context, items })
            }
        }
    }

    /// Keeps a range list.
    pub(crate) fn keep_ranges(&mut self, list: ReadList<Range>)
        requires { IsRangeListOf self.old list }
        ensures { self.new ≡ self.old }
    {
        self.ranges = Some(list);
    }

    /// The location list of a unit at an offset, as [`LastLists::take_ranges`] gives a range list.
    #[tactic(auto, unfolding(range_lists::specs::Locations::locations_of))]
    pub(crate) fn take_locations(
        &mut self,
        alloc: Global,
        header: &UnitHeader,
        facts: &UnitFacts,
        offset: u64,
    ) -> Result<ReadList<Location<'f>>, UnitRefusal>
        requires { IsAddressSize header.now.address_size }
        ensures locations { Answers (λ l. map location_view l.items.items) result
            (locations_of self.old header.now.version header.now.address_size facts.now offset) }
        ensures context { IfOk result (IsLocationListOf self.old) }
        ensures same { self.new ≡ self.old }
    {
        let context = context_of(header, facts, offset);
        match take_list(&mut self.locations, &context) {
            Some(list) => Ok(list),
            None => {
                let items = read_locations(alloc, &self.sections, header, facts, offset)?;
                Ok(ReadList { context, items })
            }
        }
    }

    /// Keeps a location list.
    pub(crate) fn keep_locations(&mut self, list: ReadList<Location<'f>>)
        requires { IsLocationListOf self.old list }
        ensures { self.new ≡ self.old }
    {
        self.locations = Some(list);
    }
}

/// What a unit's list at an offset depends on.
fn context_of(header: &UnitHeader, facts: &UnitFacts, offset: u64) -> ListContext
    ensures { result ≡ context_of header.now.version header.now.address_size facts.now offset }
{
    ListContext {
        offset,
        version: header.version,
        address_size: header.address_size,
        bases: facts.bases,
        low_pc: facts.low_pc,
    }
}

/// The list that was read last, if it is the one of this context. None is kept then.
fn take_list<T: Drop>(last: &mut Option<ReadList<T>>, context: &ListContext) -> Option<ReadList<T>>
    ensures last { IfSome result (λ list. last.old ≡ Some list) }
    ensures context { IfSome result (λ list. list.context ≡ context.now) }
    ensures after { last.new ≡ None }
{
    let Some(list) = last.take() else {
        return None;
    };
    if list.context == *context {
        Some(list)
    } else {
        None
    }
}
