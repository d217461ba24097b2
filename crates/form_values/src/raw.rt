//! The values of attributes as they stand in the entries, and the facts by which they are followed.

ghost use Rattle.std.specs.Prelude.{◌≡◌};
ghost use Rattle.form_values.specs.View.{widths_of};

use unit_headers::UnitHeader;

/// The value of an attribute as it stands in the entry, before an offset or an index in it is followed.
#[derive(Clone, Copy, Debug)]
pub enum Raw<'f> {
    /// An address.
    Address(u64),
    /// The index of an address in `.debug_addr`.
    AddressIndex(u64),
    /// The bytes of a block.
    Block(&'f [u8]),
    /// The bytes of a location expression.
    Expression(&'f [u8]),
    /// A number without a sign.
    Unsigned(u64),
    /// A number with a sign.
    Signed(i64),
    /// The 16 bytes of `DW_FORM_data16`.
    Wide(&'f [u8]),
    /// A flag.
    Flag(bool),
    /// A text that stands in the entry, without its zero byte.
    Text(&'f [u8]),
    /// The offset of a text in `.debug_str`.
    TextOffset(u64),
    /// The offset of a text in `.debug_line_str`.
    LineTextOffset(u64),
    /// The index of a text's offset in `.debug_str_offsets`.
    TextIndex(u64),
    /// A reference to an entry, as an offset from the start of its unit's header.
    Local(u64),
    /// A reference to an entry, as an offset in `.debug_info`.
    Global(u64),
    /// The signature of a type unit.
    Signature(u64),
    /// An offset in another section.
    Offset(u64),
    /// The index of a range list.
    RangeIndex(u64),
    /// The index of a location list.
    LocationIndex(u64),
    /// An offset in the supplementary file.
    Supplement(u64),
}

/// Where the tables of a unit begin in their sections; `None` is a base that the unit doesn't give.
#[derive(Clone, Copy, Debug, PartialEq, Eq)]
pub struct Bases {
    /// In `.debug_str_offsets` (`DW_AT_str_offsets_base`).
    pub text: Option<u64>,
    /// In `.debug_addr` (`DW_AT_addr_base`).
    pub address: Option<u64>,
    /// In `.debug_rnglists` (`DW_AT_rnglists_base`).
    pub ranges: Option<u64>,
    /// In `.debug_loclists` (`DW_AT_loclists_base`).
    pub locations: Option<u64>,
}

/// What the first entry of a unit says about the unit; `None` is what it doesn't say.
#[derive(Clone, Copy, Debug, PartialEq, Eq)]
pub struct UnitFacts {
    /// Where the unit's tables begin.
    pub bases: Bases,
    /// The unit's lowest address (`DW_AT_low_pc`).
    pub low_pc: Option<u64>,
    /// The offset of the unit's line program in `.debug_line` (`DW_AT_stmt_list`).
    pub line: Option<u64>,
    /// The place behind the first entry in `.debug_info`.
    pub root_end: Option<u64>,
}

/// The widths that the bytes of a value depend on.
#[derive(Clone, Copy, Debug, PartialEq, Eq)]
pub struct Widths {
    /// Offsets have 8 bytes (the 64-bit format) in place of 4.
    pub wide: bool,
    /// Bytes of an address: 2, 4 or 8.
    pub address_size: u8,
}

impl Widths {
    /// The widths of the entries of a unit.
    #[inline]
    pub fn of(header: &UnitHeader) -> Widths
        ensures { result ≡ widths_of header.now }
    {
        Widths {
            wide: header.wide,
            address_size: header.address_size,
        }
    }
}
