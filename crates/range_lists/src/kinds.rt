//! The kinds of entries, and the numbers that each section has for them (DWARF 5, section 7.25,
//! table 7.30, and section 7.7.3, table 7.10).
ghost use Rattle.std.specs.Prelude.{◌≡◌};
ghost use Rattle.dw_fields.specs.Reading.{Reads};
ghost use Rattle.range_lists.specs.Kinds.{range_kind as kind_of_range, location_kind as kind_of_location, known_kind, kind_number_at, list_kind_at};

use dw_fields::{Code, Cut, Fault, renamed};

/// What an entry of a list is. The names are the standard's, without `DW_RLE_` and `DW_LLE_`.
#[derive(Clone, Copy, Debug, PartialEq, Eq)]
pub(crate) enum Kind {
    EndOfList,
    BaseAddressx,
    StartxEndx,
    StartxLength,
    OffsetPair,
    DefaultLocation,
    BaseAddress,
    StartEnd,
    StartLength,
}

/// The kind that begins an entry of a range list.
///
/// # Errors
/// `ListUnended` where the section ends here, `ListKind` where no kind has this number.
#[tactic(auto, unfolding(crate::specs::Kinds::list_kind_at))]
pub(crate) fn read_range_kind(cut: &mut Cut) -> Result<Kind, Fault>
    ensures { Reads (λ k. k) result (list_kind_at kind_of_range) cut.old cut.new }
{
    let place = cut.place();
    let number = kind_number(cut)?;
    known(range_kind(number), place)
}

/// The kind that begins an entry of a location list.
///
/// # Errors
/// Those of a range list's kind.
#[tactic(auto, unfolding(crate::specs::Kinds::list_kind_at))]
pub(crate) fn read_location_kind(cut: &mut Cut) -> Result<Kind, Fault>
    ensures { Reads (λ k. k) result (list_kind_at kind_of_location) cut.old cut.new }
{
    let place = cut.place();
    let number = kind_number(cut)?;
    known(location_kind(number), place)
}

/// The number of the kind that begins an entry. A list may not end with the section.
#[tactic(auto, unfolding(crate::specs::Kinds::kind_number_at))]
fn kind_number(cut: &mut Cut) -> Result<u8, Fault>
    ensures { Reads (λ x. x) result kind_number_at cut.old cut.new }
{
    renamed(cut.u8(), Code::Truncated, Code::ListUnended)
}

/// A number that no kind has is refused at its place.
fn known(kind: Option<Kind>, place: u64) -> Result<Kind, Fault>
    ensures { result ≡ known_kind place kind }
{
    match kind {
        Some(kind) => Ok(kind),
        None => Err(Fault::at(Code::ListKind, place)),
    }
}

#[tactic(auto, unfolding(crate::specs::Kinds::range_kind))]
fn range_kind(number: u8) -> Option<Kind>
    ensures { result ≡ kind_of_range number }
{
    match number {
        0 => Some(Kind::EndOfList),
        1 => Some(Kind::BaseAddressx),
        2 => Some(Kind::StartxEndx),
        3 => Some(Kind::StartxLength),
        4 => Some(Kind::OffsetPair),
        5 => Some(Kind::BaseAddress),
        6 => Some(Kind::StartEnd),
        7 => Some(Kind::StartLength),
        _ => None,
    }
}

#[tactic(auto, unfolding(crate::specs::Kinds::location_kind))]
fn location_kind(number: u8) -> Option<Kind>
    ensures { result ≡ kind_of_location number }
{
    match number {
        0 => Some(Kind::EndOfList),
        1 => Some(Kind::BaseAddressx),
        2 => Some(Kind::StartxEndx),
        3 => Some(Kind::StartxLength),
        4 => Some(Kind::OffsetPair),
        5 => Some(Kind::DefaultLocation),
        6 => Some(Kind::BaseAddress),
        7 => Some(Kind::StartEnd),
        8 => Some(Kind::StartLength),
        _ => None,
    }
}
