//! What the definitions of the lists say in the standard's own words. The functions do nothing: their
//! contracts are the laws.
ghost use Rattle.std.specs.Prelude.{ℕ};
ghost use Rattle.dw_fields.specs.Reading.{IsAddressSize};
ghost use Rattle.range_lists.specs.Context.{Context};
ghost use Rattle.range_lists.specs.Entries.{IsList};
ghost use Rattle.range_lists.specs.Locations.{location_entry_at};
ghost use Rattle.range_lists.specs.Ranges.{range_entry_at};
ghost use Rattle.range_lists.specs.ListSteps.{list_at, span_from};

use dw_fields::Order;

/// A range list is its entries, each behind the other and with the base that was left to it, up to the
/// one that ends it or the first that is refused. The unit's addresses have 2, 4 or 8 bytes.
pub fn ranges_are_their_entries(section: &[u8], order: Order, offset: u64)
    ensures { (c : Context) (base : ℕ) → IsAddressSize c.size
        → IsList (range_entry_at c) base (span_from section.now order offset)
        (list_at (range_entry_at c) base (span_from section.now order offset)) }
{}

/// So is a location list.
pub fn locations_are_their_entries(section: &[u8], order: Order, offset: u64)
    ensures { (c : Context) (base : ℕ) → IsAddressSize c.size
        → IsList (location_entry_at c) base (span_from section.now order offset)
        (list_at (location_entry_at c) base (span_from section.now order offset)) }
{}
