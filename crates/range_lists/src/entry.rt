//! What an entry of a list says, by the unit's version.

ghost use Rattle.std.specs.Prelude.{◌≡◌, ℕ, Option};
ghost use Rattle.dw_fields.specs.Reading.{IsAddressSize, Reads};
ghost use Rattle.range_lists.specs.Context.{context_view};
ghost use Rattle.range_lists.specs.Entry.{entry_operands_at, kind_and_operands_at};
ghost use Rattle.range_lists.specs.Kinds.{location_kind, range_kind};

use crate::context::{UnitContext, has_pairs};
use crate::kinds::{read_location_kind, read_range_kind};
use crate::operands::{Operands, read_operands};
use crate::pairs::read_pair;
use dw_fields::{Cut, Fault};

/// What an entry of a range list says.
#[tactic(auto, unfolding(crate::specs::Entry::entry_operands_at))]
pub(crate) fn read_range_operands(
    cut: &mut Cut,
    unit: &UnitContext<'_, '_>,
    base: u64,
) -> Result<Operands, Fault>
    requires { IsAddressSize unit.now.header.now.address_size }
    ensures { Reads (λ o. o) result (entry_operands_at range_kind (context_view unit.now) base)
        cut.old cut.new }
{
    if has_pairs(unit.header.version) {
        return read_pair(cut, unit, base);
    }
    read_range_kind_and_operands(cut, unit, base)
}

#[tactic(auto, unfolding(crate::specs::Entry::kind_and_operands_at))]
fn read_range_kind_and_operands(
    cut: &mut Cut,
    unit: &UnitContext<'_, '_>,
    base: u64,
) -> Result<Operands, Fault>
    requires { IsAddressSize unit.now.header.now.address_size }
    ensures { Reads (λ o. o) result (kind_and_operands_at range_kind (context_view unit.now) base)
        cut.old cut.new }
{
    let place = cut.place();
    let kind = read_range_kind(cut)?;
    read_operands(cut, unit, base, kind, place)
}

/// What an entry of a location list says.
#[tactic(auto, unfolding(crate::specs::Entry::entry_operands_at))]
pub(crate) fn read_location_operands(
    cut: &mut Cut,
    unit: &UnitContext<'_, '_>,
    base: u64,
) -> Result<Operands, Fault>
    requires { IsAddressSize unit.now.header.now.address_size }
    ensures { Reads (λ o. o) result (entry_operands_at location_kind (context_view unit.now) base)
        cut.old cut.new }
{
    if has_pairs(unit.header.version) {
        return read_pair(cut, unit, base);
    }
    read_location_kind_and_operands(cut, unit, base)
}

#[tactic(auto, unfolding(crate::specs::Entry::kind_and_operands_at))]
fn read_location_kind_and_operands(
    cut: &mut Cut,
    unit: &UnitContext<'_, '_>,
    base: u64,
) -> Result<Operands, Fault>
    requires { IsAddressSize unit.now.header.now.address_size }
    ensures { Reads (λ o. o) result
        (kind_and_operands_at location_kind (context_view unit.now) base) cut.old cut.new }
{
    let place = cut.place();
    let kind = read_location_kind(cut)?;
    read_operands(cut, unit, base, kind, place)
}
