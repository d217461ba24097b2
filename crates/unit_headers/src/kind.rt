//! The unit types (DWARF 5 section 7.5.1, table 7.2), and what their headers add.

ghost use Rattle.std.specs.Prelude.{◌≡◌, OnOk};
ghost use Rattle.dw_fields.specs.Reading.{Moves, Reads};
ghost use Rattle.unit_headers.specs.Kinds.{extra_at, id_at, kind_of, signature_at};

use crate::refusal::in_unit;
use dw_fields::{Code, Cut, Fault};

/// The type of a unit (DWARF 5 table 7.2).
#[derive(Clone, Copy, Debug, PartialEq, Eq)]
pub enum UnitKind {
    /// `DW_UT_compile`, 1.
    Compile,
    /// `DW_UT_type`, 2.
    TypeUnit,
    /// `DW_UT_partial`, 3.
    Partial,
    /// `DW_UT_skeleton`, 4.
    Skeleton,
    /// `DW_UT_split_compile`, 5.
    SplitCompile,
    /// `DW_UT_split_type`, 6.
    SplitType,
}

/// What the header of a unit has behind the fields of all units (DWARF 5 sections 7.5.1.1 to
/// 7.5.1.3).
#[derive(Clone, Copy, Debug, PartialEq, Eq)]
pub enum Extra {
    /// A compilation or partial unit: nothing.
    Nothing,
    /// A skeleton or split compilation unit: its identifier, `dwo_id`.
    Id(u64),
    /// A type unit.
    Signature {
        /// `type_signature`.
        signature: u64,
        /// `type_offset`: where the type's entry stands, from the unit's first byte.
        type_offset: u64,
    },
}

/// The unit type of a number; the place is the type's.
#[tactic(auto, unfolding(crate::specs::Kinds::kind_of))]
pub(crate) fn unit_kind(number: u8, place: u64) -> Result<UnitKind, Fault>
    ensures { result ≡ kind_of number place }
{
    match number {
        1 => Ok(UnitKind::Compile),
        2 => Ok(UnitKind::TypeUnit),
        3 => Ok(UnitKind::Partial),
        4 => Ok(UnitKind::Skeleton),
        5 => Ok(UnitKind::SplitCompile),
        6 => Ok(UnitKind::SplitType),
        _ => Err(Fault::at(Code::UnitType, place)),
    }
}

/// What a header of this kind adds.
#[tactic(auto, unfolding(crate::specs::Kinds::extra_at))]
pub(crate) fn read_extra(cut: &mut Cut, kind: UnitKind, wide: bool) -> Result<Extra, Fault>
    ensures { Reads (λ x. x) result (extra_at kind wide) cut.old cut.new }
{
    match kind {
        UnitKind::Compile | UnitKind::Partial => Ok(Extra::Nothing),
        UnitKind::Skeleton | UnitKind::SplitCompile => read_id(cut),
        UnitKind::TypeUnit | UnitKind::SplitType => read_signature(cut, wide),
    }
}

#[tactic(auto, unfolding(crate::specs::Kinds::id_at))]
fn read_id(cut: &mut Cut) -> Result<Extra, Fault>
    ensures { Reads (λ x. x) result id_at cut.old cut.new }
{
    let id = in_unit(cut.u64())?;
    Ok(Extra::Id(id))
}

#[tactic(auto, unfolding(crate::specs::Kinds::signature_at))]
fn read_signature(cut: &mut Cut, wide: bool) -> Result<Extra, Fault>
    ensures { Reads (λ x. x) result (signature_at wide) cut.old cut.new }
{
    let signature = in_unit(cut.u64())?;
    let type_offset = in_unit(cut.offset(wide))?;
    Ok(Extra::Signature {
        signature,
        type_offset,
    })
}
