//! The attributes that may have a range list or a location list.

ghost use Rattle.std.specs.Prelude.{◌≡◌};
ghost use Rattle.unit_text.specs.Lists.{is_list_attribute, is_location_attribute};

use abbrev_decl::Attrs;
use dw_numbers::attribute;
use entry_tree::AttrNames;

/// The attributes that may have a range list or a location list (DWARF 5 sections 2.6.2 and 2.17.3).
#[derive(Clone, Copy, Debug)]
pub(crate) struct ListAttrs;

impl AttrNames for ListAttrs {
    ghost use Rattle.unit_text.specs.Lists.{is_list_attribute};

    ghost keeps = { is_list_attribute };

    #[inline(always)]
    #[tactic(auto, unfolding(crate::specs::Lists::is_list_attribute))]
    fn keeps(name: u64) -> bool {
        name == attribute::RANGES || is_location_attribute(name)
    }

    #[inline(always)]
    fn room(_pairs: &Attrs<'_>) -> usize {
        0
    }
}

/// The attributes whose value may be a location list.
#[inline(always)]
#[tactic(auto, unfolding(crate::specs::Lists::is_location_attribute))]
pub(crate) fn is_location_attribute(name: u64) -> bool
    ensures { result ≡ is_location_attribute name }
{
    matches!(
        name,
        attribute::LOCATION
            | attribute::STRING_LENGTH
            | attribute::RETURN_ADDR
            | attribute::DATA_MEMBER_LOCATION
            | attribute::FRAME_BASE
            | attribute::SEGMENT
            | attribute::STATIC_LINK
            | attribute::USE_LOCATION
            | attribute::VTABLE_ELEM_LOCATION
    )
}
