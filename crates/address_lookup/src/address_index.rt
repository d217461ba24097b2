//! The index of all addresses of a file (DWARF 5 section 6.2).

ghost use Rattle.std.specs.Prelude.{◌≡◌, length, option_map, IfOk};
ghost use Rattle.elf_sections.specs.Shapes.{sections_view};
ghost use Rattle.entry_tree.specs.Units.{units_of};
ghost use Rattle.address_lookup.specs.Built.{IsWhole};
ghost use Rattle.address_lookup.specs.Places.{place_of, place_view};

use crate::names::{UnitNames, found_place};
use crate::place::Place;
use crate::programs::find_program;
use crate::tables::Tables;
use abbrev_decl::{Decls, Steps};
use elf_sections::Sections;
use row_index::RowIndex;
use std::alloc::{AllocError, Global};
use std::marker::Model;
use unit_headers::UnitIndex;

/// The rows of the line tables of all units, by address.
///
/// Contracts see it as the sections that it was built from. It keeps 24 bytes for each row and the
/// directories and files of each unit; a program that several units name is kept once. One that was
/// built for a few addresses sorts nothing.
#[derive(Drop)]
pub struct AddressIndex<'f> {
    sections: Sections<'f>,
    units: Vec<UnitNames<'f>>,
    rows: RowIndex,
}

impl<'f> Model for AddressIndex<'f> {
    ghost use Rattle.elf_sections.specs.Shapes.{SectionsView, sections_view};
    ghost use Rattle.address_lookup.specs.Indexed.{IsIndexOf};

    ghost Value = { SectionsView };

    ghost view = { λ x. sections_view x.sections };

    ghost invariant = { λ x. IsIndexOf (sections_view x.sections) x.units.items x.rows };
}

/// The line tables of all units.
fn gather<'f, D: Decls<'f>, L>(
    alloc: Global,
    sections: &Sections<'f>,
    index: &UnitIndex<'f>,
    decls: &mut D,
    steps: &mut Steps<L>,
) -> Result<Tables<'f>, AllocError>
    requires index { index.now ≡ units_of (sections_view sections.now) }
    requires section { D.section decls.old ≡ (sections_view sections.now).«abbrev» }
    ensures whole { IfOk result (IsWhole (sections_view sections.entry.now)) }
    ensures follows { D.follows decls.old decls.new }
{
    let mut tables = Tables::new(alloc, sections);
    for unit in 0..index.count() {
        if let Some(program) = find_program(sections, index, decls, steps, unit) {
            tables.add(alloc, unit, &program)?;
        }
    }
    Ok(tables)
}

impl<'f> AddressIndex<'f> {
    /// The index of the units of these sections. `index` is that of their units, and `decls` finds
    /// declarations in their `.debug_abbrev`; it is asked for the first entries of units alone.
    ///
    /// A unit gives rows where its header, its first entry and its line program are read without a
    /// refusal, and its first entry names a line program. What is refused behind a first entry does
    /// not matter.
    ///
    /// # Errors
    /// [`AllocError`] for want of memory.
    pub fn build<D: Decls<'f>, L>(
        alloc: Global,
        sections: &Sections<'f>,
        index: &UnitIndex<'f>,
        decls: &mut D,
        steps: &mut Steps<L>,
    ) -> Result<AddressIndex<'f>, AllocError>
        requires index { index.now ≡ units_of (sections_view sections.now) }
        requires section { D.section decls.old ≡ (sections_view sections.now).«abbrev» }
        ensures index { IfOk result (λ x. x ≡ sections_view sections.entry.now) }
        ensures follows { D.follows decls.old decls.new }
    {
        let tables = gather(alloc, sections, index, decls, steps)?;
        let units = tables.units;
        let rows = RowIndex::build(alloc, tables.rows)?;
        Ok(AddressIndex {
            sections: *sections,
            units,
            rows,
        })
    }

    /// The same for a few addresses: nothing is sorted, and each is found by a walk over all rows.
    ///
    /// # Errors
    /// [`AllocError`] for want of memory.
    pub fn build_for_few<D: Decls<'f>, L>(
        alloc: Global,
        sections: &Sections<'f>,
        index: &UnitIndex<'f>,
        decls: &mut D,
        steps: &mut Steps<L>,
    ) -> Result<AddressIndex<'f>, AllocError>
        requires index { index.now ≡ units_of (sections_view sections.now) }
        requires section { D.section decls.old ≡ (sections_view sections.now).«abbrev» }
        ensures index { IfOk result (λ x. x ≡ sections_view sections.entry.now) }
        ensures follows { D.follows decls.old decls.new }
    {
        let tables = gather(alloc, sections, index, decls, steps)?;
        let units = tables.units;
        let rows = RowIndex::unsorted(tables.rows);
        Ok(AddressIndex {
            sections: *sections,
            units,
            rows,
        })
    }

    /// The place of an address: that of the first pair of neighbouring rows, in the order of units and
    /// rows, of which the first one ends no sequence and has this address or a lower one, and the
    /// second one a higher one. `None` where there is no such pair. No memory is taken.
    pub fn place_of(&self, address: u64) -> Option<Place<'f>>
        ensures { option_map place_view result ≡ place_of self.now address }
    {
        found_place(self.units.as_slice(), self.rows.find(address))
    }

    /// The same, found by a walk over all rows.
    pub fn place_of_slowly(&self, address: u64) -> Option<Place<'f>>
        ensures { option_map place_view result ≡ place_of self.now address }
    {
        found_place(self.units.as_slice(), self.rows.find_slowly(address))
    }
}
