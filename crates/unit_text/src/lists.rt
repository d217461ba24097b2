//! The range lists and location lists of attributes (DWARF 5 sections 2.6.2 and 2.17.3).

ghost use Rattle.std.specs.Prelude.{◌≡◌, ◌++◌, ◌∷◌, [], IsTrue, Ok, map};
ghost use Rattle.dw_fields.specs.Reading.{IsAddressSize};
ghost use Rattle.dw_text.specs.Added.{Adds};
ghost use Rattle.elf_sections.specs.Shapes.{sections_view};
ghost use Rattle.entry_tree.specs.Views.{attr_view};
ghost use Rattle.form_values.specs.View.{raw_view, is_list};
ghost use Rattle.range_lists.specs.Locations.{location_view};
ghost use Rattle.unit_text.specs.Pieces.{Puts, texts_of};
ghost use Rattle.unit_text.specs.UnitView.{unit_view};
ghost use Rattle.unit_text.specs.Lists.{is_range_list, is_location_list, list_place, range_text, range_line, range_list_text, location_list_text, bounds_text, expression_text, location_line, ranges_title, locations_title, ranges_text, locations_text, attr_lists};

use crate::last_lists::LastLists;
use crate::list_attrs::is_location_attribute;
use crate::pieces::as_put;
use crate::unit::Unit;
use dw_fields::Fault;
use dw_names::push_attribute_after;
use dw_numbers::attribute;
use dw_text::{push_decimal_after, push_hex_after, push_hex_bytes_after, push_text};
use entry_tree::Attr;
use form_values::{Raw, refused_at, resolve_list};
use range_lists::{Location, Range};
use std::alloc::{AllocError, Global};
use unit_headers::UnitRefusal;

/// Appends the list of an attribute, if it has one.
#[tactic(auto, unfolding(crate::specs::Lists::attr_lists))]
pub(crate) fn put_list(
    out: &mut Vec<u8>,
    alloc: Global,
    lists: &mut LastLists<'_>,
    unit: &Unit<'_, '_>,
    place: u64,
    attr: &Attr<'_>,
) -> Result<(), UnitRefusal>
    requires size { IsAddressSize unit.now.header.now.address_size }
    requires sections { lists.old ≡ sections_view unit.now.sections.now }
    ensures text { Puts result out.old.items out.new.items
        (attr_lists (unit_view unit.now) place (attr_view attr.now)) }
    ensures same { lists.new ≡ lists.old }
{
    if attr.name == attribute::RANGES && is_range_list(&attr.raw) {
        put_ranges(out, alloc, lists, unit, place, attr)
    } else if is_location_attribute(attr.name) && is_location_list(&attr.raw) {
        put_locations(out, alloc, lists, unit, place, attr)
    } else {
        Ok(())
    }
}

fn is_range_list(raw: &Raw<'_>) -> bool
    ensures { result ≡ is_range_list (raw_view raw.now) }
{
    matches!(raw, Raw::Offset(_) | Raw::RangeIndex(_))
}

fn is_location_list(raw: &Raw<'_>) -> bool
    ensures { result ≡ is_location_list (raw_view raw.now) }
{
    matches!(raw, Raw::Offset(_) | Raw::LocationIndex(_))
}

/// The place of the list that an attribute stands for.
#[tactic(auto, unfolding(crate::specs::Lists::list_place))]
fn place_of_list(unit: &Unit<'_, '_>, attr: &Attr<'_>) -> Result<u64, Fault>
    requires { IsTrue (is_list (raw_view attr.now.raw)) }
    ensures { result ≡ list_place (unit_view unit.now) (attr_view attr.now) }
{
    refused_at(
        resolve_list(&attr.raw, unit.header, unit.sections, &unit.facts.bases),
        attr.place,
    )
}

#[tactic(auto, unfolding(crate::specs::Lists::ranges_text))]
fn put_ranges(
    out: &mut Vec<u8>,
    alloc: Global,
    lists: &mut LastLists<'_>,
    unit: &Unit<'_, '_>,
    place: u64,
    attr: &Attr<'_>,
) -> Result<(), UnitRefusal>
    requires size { IsAddressSize unit.now.header.now.address_size }
    requires kind { IsTrue (is_range_list (raw_view attr.now.raw)) }
    requires sections { lists.old ≡ sections_view unit.now.sections.now }
    ensures text { Puts result out.old.items out.new.items
        (ranges_text (unit_view unit.now) place (attr_view attr.now)) }
    ensures same { lists.new ≡ lists.old }
{
    let offset = match place_of_list(unit, attr) {
        Ok(offset) => offset,
        Err(fault) => return Err(UnitRefusal::Refused(fault)),
    };
    let ranges = match lists.take_ranges(alloc, unit.header, unit.facts, offset) {
        Ok(ranges) => ranges,
        Err(refusal) => return Err(refusal),
    };
    let done = put_range_list(out, place, ranges.items.as_slice());
    lists.keep_ranges(ranges);
    done
}

#[tactic(auto, unfolding(crate::specs::Lists::range_list_text, crate::specs::Pieces::joined))]
fn put_range_list(out: &mut Vec<u8>, place: u64, ranges: &[Range]) -> Result<(), UnitRefusal>
    ensures { Puts result out.old.items out.new.items (range_list_text place ranges.now) }
{
    as_put(push_ranges_title(out, place))?;
    put_range_lines(out, ranges)?;
    Ok(())
}

#[tactic(auto, unfolding(crate::specs::Lists::ranges_title))]
fn push_ranges_title(out: &mut Vec<u8>, place: u64) -> Result<(), AllocError>
    ensures { Adds result out.old.items out.new.items (ranges_title place) }
{
    push_hex_after(out, b"ranges of 0x", place)?;
    push_text(out, b"\n")?;
    Ok(())
}

fn put_range_lines(out: &mut Vec<u8>, ranges: &[Range]) -> Result<(), UnitRefusal>
    ensures { Puts result out.old.items out.new.items (texts_of range_line ranges.now) }
{
    for range in ranges {
        match put_range_line(out, range) {
            Ok(()) => {}
            Err(refusal) => return Err(refusal),
        }
    }
    Ok(())
}

#[tactic(auto, unfolding(crate::specs::Lists::range_line))]
fn put_range_line(out: &mut Vec<u8>, range: &Range) -> Result<(), UnitRefusal>
    ensures { Puts result out.old.items out.new.items (range_line range.now) }
{
    as_put(push_range_line(out, range))
}

fn push_range_line(out: &mut Vec<u8>, range: &Range) -> Result<(), AllocError>
    ensures { Adds result out.old.items out.new.items (range_text range.now ++ 10 ∷ []) }
{
    push_range(out, range)?;
    push_text(out, b"\n")?;
    Ok(())
}

/// Appends the two ends of a range.
#[tactic(auto, unfolding(crate::specs::Lists::range_text))]
fn push_range(out: &mut Vec<u8>, range: &Range) -> Result<(), AllocError>
    ensures { Adds result out.old.items out.new.items (range_text range.now) }
{
    push_hex_after(out, b" 0x", range.low)?;
    push_hex_after(out, b" 0x", range.high)?;
    Ok(())
}

#[tactic(auto, unfolding(crate::specs::Lists::locations_text))]
fn put_locations(
    out: &mut Vec<u8>,
    alloc: Global,
    lists: &mut LastLists<'_>,
    unit: &Unit<'_, '_>,
    place: u64,
    attr: &Attr<'_>,
) -> Result<(), UnitRefusal>
    requires size { IsAddressSize unit.now.header.now.address_size }
    requires kind { IsTrue (is_location_list (raw_view attr.now.raw)) }
    requires sections { lists.old ≡ sections_view unit.now.sections.now }
    ensures text { Puts result out.old.items out.new.items
        (locations_text (unit_view unit.now) place (attr_view attr.now)) }
    ensures same { lists.new ≡ lists.old }
{
    let offset = match place_of_list(unit, attr) {
        Ok(offset) => offset,
        Err(fault) => return Err(UnitRefusal::Refused(fault)),
    };
    let locations = match lists.take_locations(alloc, unit.header, unit.facts, offset) {
        Ok(locations) => locations,
        Err(refusal) => return Err(refusal),
    };
    let done = put_location_list(out, place, attr.name, locations.items.as_slice());
    lists.keep_locations(locations);
    done
}

#[tactic(auto, unfolding(crate::specs::Lists::location_list_text, crate::specs::Pieces::joined))]
fn put_location_list(
    out: &mut Vec<u8>,
    place: u64,
    name: u64,
    locations: &[Location<'_>],
) -> Result<(), UnitRefusal>
    ensures { Puts result out.old.items out.new.items
        (location_list_text place name (map location_view locations.now)) }
{
    as_put(push_locations_title(out, place, name))?;
    put_location_lines(out, locations)?;
    Ok(())
}

#[tactic(auto, unfolding(crate::specs::Lists::locations_title))]
fn push_locations_title(out: &mut Vec<u8>, place: u64, name: u64) -> Result<(), AllocError>
    ensures { Adds result out.old.items out.new.items (locations_title place name) }
{
    push_hex_after(out, b"locations of 0x", place)?;
    push_attribute_after(out, b" ", name)?;
    push_text(out, b"\n")?;
    Ok(())
}

fn put_location_lines(out: &mut Vec<u8>, locations: &[Location<'_>]) -> Result<(), UnitRefusal>
    ensures { Puts result out.old.items out.new.items
        (texts_of location_line (map location_view locations.now)) }
{
    for location in locations {
        match put_location_line(out, location) {
            Ok(()) => {}
            Err(refusal) => return Err(refusal),
        }
    }
    Ok(())
}

#[tactic(auto, unfolding(crate::specs::Lists::location_line))]
fn put_location_line(out: &mut Vec<u8>, location: &Location<'_>) -> Result<(), UnitRefusal>
    ensures { Puts result out.old.items out.new.items (location_line (location_view location.now)) }
{
    as_put(push_location_line(out, location))
}

fn push_location_line(out: &mut Vec<u8>, location: &Location<'_>) -> Result<(), AllocError>
    ensures { Adds result out.old.items out.new.items
        (bounds_text location.now.range ++ expression_text location.now.expression.now ++ 10 ∷ []) }
{
    push_bounds(out, location.range)?;
    push_expression(out, location.expression)?;
    push_text(out, b"\n")?;
    Ok(())
}

/// Appends the addresses that a location holds for.
#[tactic(auto, unfolding(crate::specs::Lists::bounds_text))]
fn push_bounds(out: &mut Vec<u8>, range: Option<Range>) -> Result<(), AllocError>
    ensures { Adds result out.old.items out.new.items (bounds_text range) }
{
    match range {
        Some(range) => push_range(out, &range),
        None => push_text(out, b" default"),
    }
}

/// Appends how many bytes an expression has, and their digits.
#[tactic(auto, unfolding(crate::specs::Lists::expression_text))]
fn push_expression(out: &mut Vec<u8>, bytes: &[u8]) -> Result<(), AllocError>
    ensures { Adds result out.old.items out.new.items (expression_text bytes.now) }
{
    if bytes.is_empty() {
        return push_text(out, b" 0");
    }
    push_decimal_after(out, b" ", bytes.len() as u64)?;
    push_hex_bytes_after(out, b" ", bytes)?;
    Ok(())
}
