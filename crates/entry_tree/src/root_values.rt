//! The values of a root from which the facts of its unit are taken.

ghost use Rattle.std.specs.Prelude.{◌≡◌, option_map};
ghost use Rattle.dw_fields.specs.Reading.{IsAddressSize, Reads};
ghost use Rattle.form_values.specs.View.{raw_view, widths_of};
ghost use Rattle.entry_tree.specs.Views.{attr_view};
ghost use Rattle.entry_tree.specs.Entries.{attrs_at};
ghost use Rattle.entry_tree.specs.RootValues.{root_values_view, first_value, values_with, no_values, gathered_with};

use crate::attributes::read_attr;
use crate::entry::Attr;
use abbrev_decl::Attrs;
use dw_fields::{Cut, Fault};
use dw_numbers::attribute;
use form_values::Raw;
use unit_headers::UnitHeader;

/// Of each attribute that gives a fact the first value.
#[derive(Clone, Copy, Debug)]
pub(crate) struct RootValues<'f> {
    /// `DW_AT_str_offsets_base`
    pub text: Option<Raw<'f>>,
    /// `DW_AT_addr_base`
    pub address: Option<Raw<'f>>,
    /// `DW_AT_rnglists_base`
    pub ranges: Option<Raw<'f>>,
    /// `DW_AT_loclists_base`
    pub locations: Option<Raw<'f>>,
    /// `DW_AT_low_pc`
    pub low_pc: Option<Raw<'f>>,
    /// `DW_AT_stmt_list`
    pub line: Option<Raw<'f>>,
}

/// The value that was kept, or that of the attribute, if it has the name.
fn first_value<'f>(kept: Option<Raw<'f>>, name: u64, attr: &Attr<'f>) -> Option<Raw<'f>>
    ensures { option_map raw_view result
        ≡ first_value name (option_map raw_view kept.entry) (attr_view attr.entry.now) }
{
    match kept {
        Some(raw) => Some(raw),
        None => {
            if attr.name == name {
                Some(attr.raw)
            } else {
                None
            }
        }
    }
}

/// What was kept, and one attribute more.
#[tactic(auto, unfolding(crate::specs::RootValues::values_with))]
fn with_attribute<'f>(values: &RootValues<'f>, attr: &Attr<'f>) -> RootValues<'f>
    ensures { root_values_view result
        ≡ values_with (root_values_view values.entry.now) (attr_view attr.entry.now) }
{
    RootValues {
        text: first_value(values.text, attribute::STR_OFFSETS_BASE, attr),
        address: first_value(values.address, attribute::ADDR_BASE, attr),
        ranges: first_value(values.ranges, attribute::RNGLISTS_BASE, attr),
        locations: first_value(values.locations, attribute::LOCLISTS_BASE, attr),
        low_pc: first_value(values.low_pc, attribute::LOW_PC, attr),
        line: first_value(values.line, attribute::STMT_LIST, attr),
    }
}

/// The values among the attributes of the pairs.
pub(crate) fn read_values<'f>(
    cut: &mut Cut<'f>,
    header: &UnitHeader,
    pairs: Attrs<'f>,
) -> Result<RootValues<'f>, Fault>
    requires { IsAddressSize header.now.address_size }
    ensures { Reads root_values_view result
        (λ s. gathered_with no_values (attrs_at (widths_of header.now) pairs.entry s))
        cut.old cut.new }
{
    let mut values = RootValues {
        text: None,
        address: None,
        ranges: None,
        locations: None,
        low_pc: None,
        line: None,
    };
    let mut left = pairs;
    'pairs: while let Some(pair) = left.next() {
        let attr = match read_attr(cut, header, pair) {
            Ok(attr) => attr,
            Err(fault) => return Err(fault),
        };
        values = with_attribute(&values, &attr);
    }
    Ok(values)
}
