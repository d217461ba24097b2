//! What the first entry of a unit says of the unit (DWARF 5 section 3.1.1).

ghost use Rattle.std.specs.Prelude.{◌≡◌, ◌+◌, ◌<◌, ◌≤◌, ◌^◌, length, option_map, OnOk, IfOk, IfSome, Contains};
ghost use Rattle.dw_fields.specs.Reading.{IsAddressSize, Reads};
ghost use Rattle.abbrev_decl.specs.Counting.{ticked};
ghost use Rattle.abbrev_decl.specs.Lookup.{IsSmallFound, Notes, PlacesAtMost, first_declaration, key};
ghost use Rattle.elf_sections.specs.Shapes.{sections_view};
ghost use Rattle.form_values.specs.View.{is_address, raw_view, widths_of};
ghost use Rattle.entry_tree.specs.Entries.{coded_at};
ghost use Rattle.entry_tree.specs.Facts.{BasesFit, FactsFit, base_of, bases_of, low_pc_of, facts_of_values};
ghost use Rattle.entry_tree.specs.Keys.{RootCounts, RootKnown, RootNoted, RootPlaces};
ghost use Rattle.entry_tree.specs.RootValues.{values_of_entry, root_values_view};
ghost use Rattle.entry_tree.specs.Units.{IsUnitOf, facts_of, root_code_of};

use crate::declared::find_declaration;
use crate::first::{RootCode, first_code};
use crate::root_values::{RootValues, read_values};
use abbrev_decl::{Decls, Steps};
use dw_fields::{Cut, Fault};
use elf_sections::Sections;
use form_values::{Bases, Raw, UnitFacts, resolve_address};
use unit_headers::UnitHeader;

/// The greatest base that is kept: a place past every section.
const BASE_LIMIT: u64 = 1 << 40;

/// An offset into a section, if the value is one.
#[tactic(auto, unfolding(crate::specs::Facts::base_of))]
fn base_of(raw: Option<Raw<'_>>) -> Option<u64>
    ensures value { result ≡ base_of (option_map raw_view raw.entry) }
    ensures most { IfSome result (λ n. n ≤ 2 ^ 40) }
{
    match raw {
        Some(Raw::Offset(offset)) => Some(offset.min(BASE_LIMIT)),
        Some(Raw::Unsigned(offset)) => Some(offset.min(BASE_LIMIT)),
        _ => None,
    }
}

/// The unit's bases.
#[tactic(auto, unfolding(crate::specs::Facts::bases_of))]
fn bases_of(values: &RootValues<'_>) -> Bases
    ensures values { result ≡ bases_of (root_values_view values.entry.now) }
    ensures fit { BasesFit result }
{
    Bases {
        text: base_of(values.text),
        address: base_of(values.address),
        ranges: base_of(values.ranges),
        locations: base_of(values.locations),
    }
}

/// Whether a value stands for an address.
fn is_address(raw: &Raw<'_>) -> bool
    ensures { result ≡ is_address (raw_view raw.entry.now) }
{
    match *raw {
        Raw::Address(_) => true,
        Raw::AddressIndex(_) => true,
        _ => false,
    }
}

/// The unit's lowest address, if there is a value that can be resolved.
#[tactic(auto, unfolding(crate::specs::Facts::low_pc_of))]
fn low_pc_of(
    raw: Option<Raw<'_>>,
    header: &UnitHeader,
    sections: &Sections<'_>,
    bases: &Bases,
) -> Option<u64>
    requires { IsAddressSize header.now.address_size }
    ensures address { result ≡ low_pc_of (option_map raw_view raw.entry) header.now.address_size
        (sections_view sections.entry.now) bases.now }
    ensures fit { IfSome result (λ n. n < 2 ^ 64) }
{
    match raw {
        Some(raw) => {
            if is_address(&raw) {
                resolve_address(&raw, header, sections, bases).ok()
            } else {
                None
            }
        }
        None => None,
    }
}

/// The facts that the values of a root give which ends at `end`.
#[tactic(auto, unfolding(crate::specs::Facts::facts_of_values))]
fn facts_of_values(
    values: &RootValues<'_>,
    end: u64,
    header: &UnitHeader,
    sections: &Sections<'_>,
) -> UnitFacts
    requires { IsAddressSize header.now.address_size }
    ensures facts { result ≡ facts_of_values (root_values_view values.entry.now) end
        header.now.address_size (sections_view sections.entry.now) }
    ensures fit { FactsFit end result }
{
    let bases = bases_of(values);
    UnitFacts {
        bases,
        low_pc: low_pc_of(values.low_pc, header, sections, &bases),
        line: base_of(values.line),
        root_end: Some(end),
    }
}

/// The values of the root whose code ends where the cut stands.
#[tactic(auto, using(crate::proofs::RootSteps::values_entry), unfolding(crate::specs::Entries::coded_at))]
fn read_root<'f, D: Decls<'f>, L>(
    decls: &mut D,
    header: &UnitHeader,
    cut: &mut Cut<'f>,
    first: RootCode,
    steps: &mut Steps<L>,
) -> Result<RootValues<'f>, Fault>
    requires inside { header.now.«abbrev» ≤ length (D.section decls.old) }
    requires size { IsAddressSize header.now.address_size }
    requires some { 0 < first.code }
    ensures values { Reads root_values_view result
        (λ s. values_of_entry (coded_at (D.section decls.old)
        header.now.«abbrev» (widths_of header.now) 0 first.place first.code s)) cut.old cut.new }
    ensures follows { D.follows decls.old decls.new }
    ensures counted { D.counts decls.old header.now.«abbrev» first.code steps.old steps.new }
    ensures placed { PlacesAtMost (D.placed decls.old) (D.placed decls.new)
        (key header.now.«abbrev» first.code)
        (IsSmallFound first.code
        (first_declaration (D.section decls.old) header.now.«abbrev» first.code)) }
    ensures noted { first.code < 2 ^ 32
        → OnOk result (Notes (D.seen decls.new) (D.spent decls.new)
        (key header.now.«abbrev» first.code)) }
    ensures known { first.code < 2 ^ 32
        → Contains (D.seen decls.old) (key header.now.«abbrev» first.code) → steps.new ≡ steps.old }
{
    let declaration = find_declaration(decls, header.abbrev, first.code, first.place, steps)?;
    read_values(cut, header, declaration.attrs())
}

/// The facts of a unit without entries.
const NO_FACTS: UnitFacts = UnitFacts {
    bases: Bases {
        text: None,
        address: None,
        ranges: None,
        locations: None,
    },
    low_pc: None,
    line: None,
    root_end: None,
};

/// Reads the first entry of a unit and takes the facts of the unit from it (DWARF 5 section 3.1.1). Zero
/// codes before it are
/// passed over; a unit without entries has no facts. Counts one step beside those of the source.
///
/// Of each attribute the first counts. A base or the line offset is taken where its value is an offset
/// or an unsigned number, and one above 2^40, which lies past every section, is kept as 2^40. The
/// lowest address is taken where its value can be resolved. `decls` is asked for the code of that entry
/// alone, where there is one.
///
/// # Errors
/// The refusal met in reading the first entry, as in [`crate::read_entries`].
#[tactic(auto, unfolding(crate::specs::Units::facts_of, crate::specs::Entries::root_in))]
pub fn root_facts<'f, D: Decls<'f>, L>(
    decls: &mut D,
    header: &UnitHeader,
    sections: &Sections<'f>,
    steps: &mut Steps<L>,
) -> Result<UnitFacts, Fault>
    requires section { D.section decls.old ≡ (sections_view sections.now).«abbrev» }
    requires unit { IsUnitOf (sections_view sections.now) header.now }
    ensures facts { result ≡ facts_of (sections_view sections.entry.now) header.now }
    ensures fit { IfOk result (FactsFit (length (sections_view sections.entry.now).info)) }
    ensures follows { D.follows decls.old decls.new }
    ensures counted { RootCounts (D.counts decls.old) header.now.«abbrev»
        (root_code_of (sections_view sections.entry.now) header.now)
        (ticked steps.old) steps.new }
    ensures placed { RootPlaces (D.section decls.old) header.now.«abbrev» (D.placed decls.old)
        (D.placed decls.new) (root_code_of (sections_view sections.entry.now) header.now) }
    ensures noted { OnOk result
        (RootNoted (D.seen decls.new) (D.spent decls.new)
        header.now.«abbrev» (root_code_of (sections_view sections.entry.now) header.now)) }
    ensures known { RootKnown (D.seen decls.old)
        header.now.«abbrev» (root_code_of (sections_view sections.entry.now) header.now)
        → steps.new ≡ ticked steps.old }
{
    steps.tick();
    let mut cut = Cut::new(sections.info, header.entries, header.end, sections.order);
    let Some(first) = first_code(&mut cut)? else {
        return Ok(NO_FACTS);
    };
    let values = read_root(decls, header, &mut cut, first, steps)?;
    Ok(facts_of_values(&values, cut.place(), header, sections))
}
