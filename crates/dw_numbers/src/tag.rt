//! The numbers of tags (DWARF 5, section 7.5.3, table 7.3).

/// `DW_TAG_array_type`
pub const ARRAY_TYPE: u64 = 0x01;
/// `DW_TAG_class_type`
pub const CLASS_TYPE: u64 = 0x02;
/// `DW_TAG_enumeration_type`
pub const ENUMERATION_TYPE: u64 = 0x04;
/// `DW_TAG_structure_type`
pub const STRUCTURE_TYPE: u64 = 0x13;
/// `DW_TAG_typedef`
pub const TYPEDEF: u64 = 0x16;
/// `DW_TAG_union_type`
pub const UNION_TYPE: u64 = 0x17;
/// `DW_TAG_base_type`
pub const BASE_TYPE: u64 = 0x24;
/// `DW_TAG_subprogram`
pub const SUBPROGRAM: u64 = 0x2e;
/// `DW_TAG_variable`
pub const VARIABLE: u64 = 0x34;
