//! The numbers of attributes (DWARF 5, section 7.5.4, table 7.5).

/// `DW_AT_location`
pub const LOCATION: u64 = 0x02;
/// `DW_AT_name`
pub const NAME: u64 = 0x03;
/// `DW_AT_stmt_list`
pub const STMT_LIST: u64 = 0x10;
/// `DW_AT_low_pc`
pub const LOW_PC: u64 = 0x11;
/// `DW_AT_string_length`
pub const STRING_LENGTH: u64 = 0x19;
/// `DW_AT_return_addr`
pub const RETURN_ADDR: u64 = 0x2a;
/// `DW_AT_data_member_location`
pub const DATA_MEMBER_LOCATION: u64 = 0x38;
/// `DW_AT_frame_base`
pub const FRAME_BASE: u64 = 0x40;
/// `DW_AT_segment`
pub const SEGMENT: u64 = 0x46;
/// `DW_AT_static_link`
pub const STATIC_LINK: u64 = 0x48;
/// `DW_AT_use_location`
pub const USE_LOCATION: u64 = 0x4a;
/// `DW_AT_vtable_elem_location`
pub const VTABLE_ELEM_LOCATION: u64 = 0x4d;
/// `DW_AT_ranges`
pub const RANGES: u64 = 0x55;
/// `DW_AT_str_offsets_base`
pub const STR_OFFSETS_BASE: u64 = 0x72;
/// `DW_AT_addr_base`
pub const ADDR_BASE: u64 = 0x73;
/// `DW_AT_rnglists_base`
pub const RNGLISTS_BASE: u64 = 0x74;
/// `DW_AT_loclists_base`
pub const LOCLISTS_BASE: u64 = 0x8c;
