//! The attributes that may name an entry.

ghost use Rattle.std.specs.Prelude.{◌≡◌};

use abbrev_decl::Attrs;
use dw_numbers::attribute;
use entry_tree::AttrNames;

/// The attributes of which the first names an entry (DWARF 5 section 2.15).
#[derive(Clone, Copy, Debug)]
pub(crate) struct NameAttrs;

impl AttrNames for NameAttrs {
    ghost use Rattle.visit_queries.specs.Shown.{is_name};

    ghost keeps = { is_name };

    #[inline(always)]
    #[tactic(auto, unfolding(crate::specs::Shown::is_name))]
    fn keeps(name: u64) -> bool {
        name == attribute::NAME
    }

    #[inline(always)]
    fn room(_pairs: &Attrs<'_>) -> usize {
        1
    }
}
