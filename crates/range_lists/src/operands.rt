//! The operands of an entry, by its kind.
ghost use Rattle.std.specs.Prelude.{◌≡◌, ◌+◌};
ghost use Rattle.dw_fields.specs.Reading.{IsAddressSize, Reads, wrapped_address};
ghost use Rattle.range_lists.specs.Context.{context_view};
ghost use Rattle.range_lists.specs.Operands.{operands_at, startx_endx_at, startx_length_at, offset_pair_at, start_end_at, start_length_at, in_list, index_at, number_operand_at, address_operand_at};

use crate::bounds::Range;
use crate::context::UnitContext;
use crate::kinds::Kind;
use dw_fields::{Code, Cut, Fault, renamed, wrap_address};
use form_values::{Raw, refused_at, resolve_address};

/// What the operands of an entry say.
#[derive(Clone, Copy, Debug)]
pub(crate) enum Operands {
    /// The list ends here.
    End,
    /// The base of the entries behind this one.
    Base(u64),
    /// The addresses that the entry holds for; `None` is every address that no other entry has.
    Bounds(Option<Range>),
}

/// The operands of an entry of this kind, whose kind stands at `place`.
#[tactic(auto, unfolding(crate::specs::Operands::operands_at))]
pub(crate) fn read_operands(
    cut: &mut Cut,
    unit: &UnitContext<'_, '_>,
    base: u64,
    kind: Kind,
    place: u64,
) -> Result<Operands, Fault>
    requires { IsAddressSize unit.now.header.now.address_size }
    ensures { Reads (λ o. o) result (operands_at (context_view unit.now) base kind place)
        cut.old cut.new }
{
    match kind {
        Kind::EndOfList => Ok(Operands::End),
        Kind::BaseAddressx => {
            let address = index(cut, unit, place)?;
            Ok(Operands::Base(address))
        }
        Kind::StartxEndx => startx_endx(cut, unit, place),
        Kind::StartxLength => startx_length(cut, unit, place),
        Kind::OffsetPair => offset_pair(cut, unit, base),
        Kind::DefaultLocation => Ok(Operands::Bounds(None)),
        Kind::BaseAddress => {
            let address = address(cut, unit)?;
            Ok(Operands::Base(address))
        }
        Kind::StartEnd => start_end(cut, unit),
        Kind::StartLength => start_length(cut, unit),
    }
}

#[tactic(auto, unfolding(crate::specs::Operands::startx_endx_at))]
fn startx_endx(cut: &mut Cut, unit: &UnitContext<'_, '_>, place: u64) -> Result<Operands, Fault>
    requires { IsAddressSize unit.now.header.now.address_size }
    ensures { Reads (λ o. o) result (startx_endx_at (context_view unit.now) place) cut.old cut.new }
{
    let low = index(cut, unit, place)?;
    let high = index(cut, unit, place)?;
    Ok(Operands::Bounds(Some(Range { low, high })))
}

#[tactic(auto, unfolding(crate::specs::Operands::startx_length_at))]
fn startx_length(cut: &mut Cut, unit: &UnitContext<'_, '_>, place: u64) -> Result<Operands, Fault>
    requires { IsAddressSize unit.now.header.now.address_size }
    ensures { Reads (λ o. o) result (startx_length_at (context_view unit.now) place)
        cut.old cut.new }
{
    let low = index(cut, unit, place)?;
    let length = number(cut)?;
    let high = sum(low, length, unit.header.address_size);
    Ok(Operands::Bounds(Some(Range { low, high })))
}

#[tactic(auto, unfolding(crate::specs::Operands::offset_pair_at))]
fn offset_pair(cut: &mut Cut, unit: &UnitContext<'_, '_>, base: u64) -> Result<Operands, Fault>
    requires { IsAddressSize unit.now.header.now.address_size }
    ensures { Reads (λ o. o) result (offset_pair_at (context_view unit.now) base) cut.old cut.new }
{
    let first = number(cut)?;
    let second = number(cut)?;
    let low = sum(base, first, unit.header.address_size);
    let high = sum(base, second, unit.header.address_size);
    Ok(Operands::Bounds(Some(Range { low, high })))
}

#[tactic(auto, unfolding(crate::specs::Operands::start_end_at))]
fn start_end(cut: &mut Cut, unit: &UnitContext<'_, '_>) -> Result<Operands, Fault>
    requires { IsAddressSize unit.now.header.now.address_size }
    ensures { Reads (λ o. o) result (start_end_at (context_view unit.now)) cut.old cut.new }
{
    let low = address(cut, unit)?;
    let high = address(cut, unit)?;
    Ok(Operands::Bounds(Some(Range { low, high })))
}

#[tactic(auto, unfolding(crate::specs::Operands::start_length_at))]
fn start_length(cut: &mut Cut, unit: &UnitContext<'_, '_>) -> Result<Operands, Fault>
    requires { IsAddressSize unit.now.header.now.address_size }
    ensures { Reads (λ o. o) result (start_length_at (context_view unit.now)) cut.old cut.new }
{
    let start = address(cut, unit)?;
    let length = number(cut)?;
    let end = sum(start, length, unit.header.address_size);
    Ok(Operands::Bounds(Some(Range {
        low: start,
        high: end,
    })))
}

/// The address that an index stands for. What the index refers to is refused at the entry's kind.
#[tactic(auto, unfolding(crate::specs::Operands::index_at))]
fn index(cut: &mut Cut, unit: &UnitContext<'_, '_>, place: u64) -> Result<u64, Fault>
    requires { IsAddressSize unit.now.header.now.address_size }
    ensures { Reads (λ x. x) result (index_at (context_view unit.now) place) cut.old cut.new }
{
    let index = number(cut)?;
    let raw = Raw::AddressIndex(index);
    refused_at(
        resolve_address(&raw, unit.header, unit.sections, unit.bases),
        place,
    )
}

/// An operand that passes the section's end is refused as `ListTruncated`, any other with its own
/// cause.
#[inline]
pub(crate) fn in_list<T>(read: Result<T, Fault>) -> Result<T, Fault>
    ensures { result ≡ in_list read }
{
    renamed(read, Code::Truncated, Code::ListTruncated)
}

/// The sum of an address and a number, at the unit's address size.
#[inline]
pub(crate) fn sum(address: u64, number: u64, size: u8) -> u64
    requires { IsAddressSize size }
    ensures { result ≡ wrapped_address size (address + number) }
{
    wrap_address(u128::from(address) + u128::from(number), size)
}

/// A number.
#[tactic(auto, unfolding(crate::specs::Operands::number_operand_at))]
pub(crate) fn number(cut: &mut Cut) -> Result<u64, Fault>
    ensures { Reads (λ x. x) result number_operand_at cut.old cut.new }
{
    in_list(cut.uleb())
}

/// An address.
#[tactic(auto, unfolding(crate::specs::Operands::address_operand_at))]
pub(crate) fn address(cut: &mut Cut, unit: &UnitContext<'_, '_>) -> Result<u64, Fault>
    requires { IsAddressSize unit.now.header.now.address_size }
    ensures { Reads (λ x. x) result (address_operand_at (context_view unit.now)) cut.old cut.new }
{
    in_list(cut.address(unit.header.address_size))
}
