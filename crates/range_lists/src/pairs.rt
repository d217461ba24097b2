//! The entries of the lists of version 4, which are pairs of addresses (DWARF 4, sections 2.6.2 and
//! 2.17.3).

ghost use Rattle.std.specs.Prelude.{◌≡◌};
ghost use Rattle.dw_fields.specs.Reading.{IsAddressSize, Reads};
ghost use Rattle.range_lists.specs.Context.{context_view};
ghost use Rattle.range_lists.specs.Pairs.{first_address_at, greatest_address, pair_at, pair_of};

use crate::bounds::Range;
use crate::context::UnitContext;
use crate::operands::{Operands, address, sum};
use dw_fields::{Code, Cut, Fault};

/// A pair of addresses.
///
/// # Errors
/// `ListUnended` where the section ends here, `ListTruncated` at an address that passes its end.
#[tactic(auto, unfolding(crate::specs::Pairs::pair_at))]
pub(crate) fn read_pair(
    cut: &mut Cut,
    unit: &UnitContext<'_, '_>,
    base: u64,
) -> Result<Operands, Fault>
    requires { IsAddressSize unit.now.header.now.address_size }
    ensures { Reads (λ o. o) result (pair_at (context_view unit.now) base) cut.old cut.new }
{
    let first = first_address(cut, unit)?;
    let second = address(cut, unit)?;
    Ok(pair(unit.header.address_size, base, first, second))
}

/// The first address of a pair. A list may not end with the section.
#[tactic(auto, unfolding(crate::specs::Pairs::first_address_at))]
fn first_address(cut: &mut Cut, unit: &UnitContext<'_, '_>) -> Result<u64, Fault>
    requires { IsAddressSize unit.now.header.now.address_size }
    ensures { Reads (λ x. x) result (first_address_at (context_view unit.now)) cut.old cut.new }
{
    let place = cut.place();
    if cut.left() == 0 {
        return Err(Fault::at(Code::ListUnended, place));
    }
    address(cut, unit)
}

/// What two addresses say.
#[tactic(auto, unfolding(crate::specs::Pairs::pair_of))]
fn pair(size: u8, base: u64, first: u64, second: u64) -> Operands
    requires { IsAddressSize size }
    ensures { result ≡ pair_of size base first second }
{
    if first == 0 && second == 0 {
        return Operands::End;
    }
    if first == greatest_address(size) {
        return Operands::Base(second);
    }
    let low = sum(base, first, size);
    let high = sum(base, second, size);
    Operands::Bounds(Some(Range { low, high }))
}

/// The greatest address of so many bytes.
fn greatest_address(size: u8) -> u64
    requires { IsAddressSize size }
    ensures { result ≡ greatest_address size }
{
    match size {
        2 => 0xffff,
        4 => 0xffff_ffff,
        _ => u64::MAX,
    }
}
