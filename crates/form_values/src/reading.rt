//! Reading a value by its form (DWARF 5, sections 7.5.5 and 7.5.6).

ghost use Rattle.std.specs.Prelude.{◌≡◌, ◌≤◌, OnOk};
ghost use Rattle.dw_fields.specs.Codes.{fault};
ghost use Rattle.dw_fields.specs.Reading.{Gives, IsAddressSize};
ghost use Rattle.dw_fields.specs.declared.fault_code.Code.TheVariants as causes;
ghost use Rattle.form_values.specs.View.{raw_view, widths_of};
ghost use Rattle.form_values.specs.FormTable.{low_at, middle_at, high_at, direct_at, indirect_at, value_at, value_fault};

use crate::counted::{counted_by_u8, counted_by_u16, counted_by_u32, counted_by_uleb};
use crate::raw::{Raw, Widths};
use dw_fields::{Code, Cut, Fault};
use dw_numbers::form;
use unit_headers::UnitHeader;

/// Reads the value of the attribute that stands next in an entry of this unit. `implicit` is the number
/// of the declaration, which is the value of `DW_FORM_implicit_const`. The unit's address size is 2, 4
/// or 8.
///
/// # Errors
/// The cut is unchanged after each of them.
/// - `UnknownForm` at the value: the form isn't one of the standard's.
/// - `IndirectForm` at the value: an indirect form names itself or `DW_FORM_implicit_const`.
/// - `TextUnended` at the value: no zero byte ends a text.
/// - `Truncated` at the field that passes the cut's end. A count and the bytes that it counts are two
///   fields.
/// - `LebTooLarge` at the LEB128 whose value is outside 64 bits.
#[inline(always)]
pub fn read_value<'f>(
    cut: &mut Cut<'f>,
    form: u64,
    header: &UnitHeader,
    implicit: i64,
) -> Result<Raw<'f>, Fault>
    requires { IsAddressSize header.now.address_size }
    ensures value { Gives raw_view result (value_at form (widths_of header.now) implicit)
        cut.old cut.new }
    ensures forward { OnOk result (cut.old.place ≤ cut.new.place) }
{
    read_form(cut, form, Widths::of(header), implicit)
}

/// The same with given widths, for a value that stands in a line program's header.
///
/// # Errors
/// Those of [`read_value`].
#[inline(always)]
#[tactic(auto, unfolding(crate::specs::FormTable::value_at))]
pub fn read_form<'f>(
    cut: &mut Cut<'f>,
    form: u64,
    widths: Widths,
    implicit: i64,
) -> Result<Raw<'f>, Fault>
    requires { IsAddressSize widths.address_size }
    ensures value { Gives raw_view result (value_at form widths implicit) cut.old cut.new }
    ensures forward { OnOk result (cut.old.place ≤ cut.new.place) }
{
    match form {
        form::INDIRECT => indirect(cut, widths),
        form::IMPLICIT_CONST => Ok(Raw::Signed(implicit)),
        _ => direct(cut, form, widths),
    }
}

/// Reads a form, then the value in that form.
#[tactic(auto, unfolding(crate::specs::FormTable::indirect_at))]
fn indirect<'f>(cut: &mut Cut<'f>, widths: Widths) -> Result<Raw<'f>, Fault>
    requires { IsAddressSize widths.address_size }
    ensures value { Gives raw_view result (indirect_at widths) cut.old cut.new }
    ensures forward { OnOk result (cut.old.place ≤ cut.new.place) }
{
    let place = cut.place();
    let mut ahead = cut.fork();
    let form = ahead.uleb()?;
    if form == form::INDIRECT || form == form::IMPLICIT_CONST {
        return Err(Fault::at(Code::IndirectForm, place));
    }
    match direct(&mut ahead, form, widths) {
        Ok(raw) => {
            *cut = ahead;
            Ok(raw)
        }
        Err(fault) => Err(fault_of_value(place, fault)),
    }
}

/// A fault behind an indirect form: one that speaks of the value as a whole counts at its form.
fn fault_of_value(place: u64, fault: Fault) -> Fault
    ensures { result ≡ value_fault place fault }
{
    match fault.code {
        Code::UnknownForm | Code::TextUnended => Fault::at(fault.code, place),
        _ => fault,
    }
}

/// Reads a value whose form is neither indirect nor implicit.
#[inline(always)]
#[tactic(auto, unfolding(crate::specs::FormTable::direct_at))]
fn direct<'f>(cut: &mut Cut<'f>, form: u64, widths: Widths) -> Result<Raw<'f>, Fault>
    requires { IsAddressSize widths.address_size }
    ensures value { Gives raw_view result (direct_at form widths) cut.old cut.new }
    ensures forward { OnOk result (cut.old.place ≤ cut.new.place) }
{
    if form < 0x10 {
        low(cut, form, widths)
    } else if form < 0x20 {
        middle(cut, form, widths)
    } else {
        high(cut, form)
    }
}

/// The fault of a form that isn't one of the standard's.
fn unknown_form(cut: &Cut<'_>) -> Fault
    ensures { result ≡ fault causes.UnknownForm cut.now.place }
{
    Fault::at(Code::UnknownForm, cut.place())
}

/// The forms 0x01 to 0x0f.
#[inline(always)]
#[tactic(auto, unfolding(crate::specs::FormTable::low_at))]
fn low<'f>(cut: &mut Cut<'f>, form: u64, widths: Widths) -> Result<Raw<'f>, Fault>
    requires { IsAddressSize widths.address_size }
    ensures value { Gives raw_view result (low_at form widths) cut.old cut.new }
    ensures forward { OnOk result (cut.old.place ≤ cut.new.place) }
{
    match form {
        form::ADDR => Ok(Raw::Address(cut.address(widths.address_size)?)),
        form::BLOCK2 => Ok(Raw::Block(counted_by_u16(cut)?)),
        form::BLOCK4 => Ok(Raw::Block(counted_by_u32(cut)?)),
        form::DATA2 => Ok(Raw::Unsigned(u64::from(cut.u16()?))),
        form::DATA4 => Ok(Raw::Unsigned(u64::from(cut.u32()?))),
        form::DATA8 => Ok(Raw::Unsigned(cut.u64()?)),
        form::STRING => Ok(Raw::Text(cut.text()?)),
        form::BLOCK => Ok(Raw::Block(counted_by_uleb(cut)?)),
        form::BLOCK1 => Ok(Raw::Block(counted_by_u8(cut)?)),
        form::DATA1 => Ok(Raw::Unsigned(u64::from(cut.u8()?))),
        form::FLAG => Ok(Raw::Flag(cut.u8()? != 0)),
        form::SDATA => Ok(Raw::Signed(cut.sleb()?)),
        form::STRP => Ok(Raw::TextOffset(cut.offset(widths.wide)?)),
        form::UDATA => Ok(Raw::Unsigned(cut.uleb()?)),
        _ => Err(unknown_form(cut)),
    }
}

/// The forms 0x10 to 0x1f but indirect.
#[inline(always)]
#[tactic(auto, unfolding(crate::specs::FormTable::middle_at))]
fn middle<'f>(cut: &mut Cut<'f>, form: u64, widths: Widths) -> Result<Raw<'f>, Fault>
    ensures value { Gives raw_view result (middle_at form widths) cut.old cut.new }
    ensures forward { OnOk result (cut.old.place ≤ cut.new.place) }
{
    match form {
        form::REF_ADDR => Ok(Raw::Global(cut.offset(widths.wide)?)),
        form::REF1 => Ok(Raw::Local(u64::from(cut.u8()?))),
        form::REF2 => Ok(Raw::Local(u64::from(cut.u16()?))),
        form::REF4 => Ok(Raw::Local(u64::from(cut.u32()?))),
        form::REF8 => Ok(Raw::Local(cut.u64()?)),
        form::REF_UDATA => Ok(Raw::Local(cut.uleb()?)),
        form::SEC_OFFSET => Ok(Raw::Offset(cut.offset(widths.wide)?)),
        form::EXPRLOC => Ok(Raw::Expression(counted_by_uleb(cut)?)),
        form::FLAG_PRESENT => Ok(Raw::Flag(true)),
        form::STRX => Ok(Raw::TextIndex(cut.uleb()?)),
        form::ADDRX => Ok(Raw::AddressIndex(cut.uleb()?)),
        form::REF_SUP4 => Ok(Raw::Supplement(u64::from(cut.u32()?))),
        form::STRP_SUP => Ok(Raw::Supplement(cut.offset(widths.wide)?)),
        form::DATA16 => Ok(Raw::Wide(cut.bytes(16)?)),
        form::LINE_STRP => Ok(Raw::LineTextOffset(cut.offset(widths.wide)?)),
        _ => Err(unknown_form(cut)),
    }
}

/// The forms from 0x20 on but implicit_const.
#[inline(always)]
#[tactic(auto, unfolding(crate::specs::FormTable::high_at))]
fn high<'f>(cut: &mut Cut<'f>, form: u64) -> Result<Raw<'f>, Fault>
    ensures value { Gives raw_view result (high_at form) cut.old cut.new }
    ensures forward { OnOk result (cut.old.place ≤ cut.new.place) }
{
    match form {
        form::REF_SIG8 => Ok(Raw::Signature(cut.u64()?)),
        form::LOCLISTX => Ok(Raw::LocationIndex(cut.uleb()?)),
        form::RNGLISTX => Ok(Raw::RangeIndex(cut.uleb()?)),
        form::REF_SUP8 => Ok(Raw::Supplement(cut.u64()?)),
        form::STRX1 => Ok(Raw::TextIndex(u64::from(cut.u8()?))),
        form::STRX2 => Ok(Raw::TextIndex(u64::from(cut.u16()?))),
        form::STRX3 => Ok(Raw::TextIndex(u64::from(cut.u24()?))),
        form::STRX4 => Ok(Raw::TextIndex(u64::from(cut.u32()?))),
        form::ADDRX1 => Ok(Raw::AddressIndex(u64::from(cut.u8()?))),
        form::ADDRX2 => Ok(Raw::AddressIndex(u64::from(cut.u16()?))),
        form::ADDRX3 => Ok(Raw::AddressIndex(u64::from(cut.u24()?))),
        form::ADDRX4 => Ok(Raw::AddressIndex(u64::from(cut.u32()?))),
        _ => Err(unknown_form(cut)),
    }
}
