//! The numbers of the attribute forms (DWARF 5, table 7.6).

/// `DW_FORM_addr`
pub const ADDR: u64 = 0x01;
/// `DW_FORM_block2`
pub const BLOCK2: u64 = 0x03;
/// `DW_FORM_block4`
pub const BLOCK4: u64 = 0x04;
/// `DW_FORM_data2`
pub const DATA2: u64 = 0x05;
/// `DW_FORM_data4`
pub const DATA4: u64 = 0x06;
/// `DW_FORM_data8`
pub const DATA8: u64 = 0x07;
/// `DW_FORM_string`
pub const STRING: u64 = 0x08;
/// `DW_FORM_block`
pub const BLOCK: u64 = 0x09;
/// `DW_FORM_block1`
pub const BLOCK1: u64 = 0x0a;
/// `DW_FORM_data1`
pub const DATA1: u64 = 0x0b;
/// `DW_FORM_flag`
pub const FLAG: u64 = 0x0c;
/// `DW_FORM_sdata`
pub const SDATA: u64 = 0x0d;
/// `DW_FORM_strp`
pub const STRP: u64 = 0x0e;
/// `DW_FORM_udata`
pub const UDATA: u64 = 0x0f;
/// `DW_FORM_ref_addr`
pub const REF_ADDR: u64 = 0x10;
/// `DW_FORM_ref1`
pub const REF1: u64 = 0x11;
/// `DW_FORM_ref2`
pub const REF2: u64 = 0x12;
/// `DW_FORM_ref4`
pub const REF4: u64 = 0x13;
/// `DW_FORM_ref8`
pub const REF8: u64 = 0x14;
/// `DW_FORM_ref_udata`
pub const REF_UDATA: u64 = 0x15;
/// `DW_FORM_indirect`
pub const INDIRECT: u64 = 0x16;
/// `DW_FORM_sec_offset`
pub const SEC_OFFSET: u64 = 0x17;
/// `DW_FORM_exprloc`
pub const EXPRLOC: u64 = 0x18;
/// `DW_FORM_flag_present`
pub const FLAG_PRESENT: u64 = 0x19;
/// `DW_FORM_strx`
pub const STRX: u64 = 0x1a;
/// `DW_FORM_addrx`
pub const ADDRX: u64 = 0x1b;
/// `DW_FORM_ref_sup4`
pub const REF_SUP4: u64 = 0x1c;
/// `DW_FORM_strp_sup`
pub const STRP_SUP: u64 = 0x1d;
/// `DW_FORM_data16`
pub const DATA16: u64 = 0x1e;
/// `DW_FORM_line_strp`
pub const LINE_STRP: u64 = 0x1f;
/// `DW_FORM_ref_sig8`
pub const REF_SIG8: u64 = 0x20;
/// `DW_FORM_implicit_const`
pub const IMPLICIT_CONST: u64 = 0x21;
/// `DW_FORM_loclistx`
pub const LOCLISTX: u64 = 0x22;
/// `DW_FORM_rnglistx`
pub const RNGLISTX: u64 = 0x23;
/// `DW_FORM_ref_sup8`
pub const REF_SUP8: u64 = 0x24;
/// `DW_FORM_strx1`
pub const STRX1: u64 = 0x25;
/// `DW_FORM_strx2`
pub const STRX2: u64 = 0x26;
/// `DW_FORM_strx3`
pub const STRX3: u64 = 0x27;
/// `DW_FORM_strx4`
pub const STRX4: u64 = 0x28;
/// `DW_FORM_addrx1`
pub const ADDRX1: u64 = 0x29;
/// `DW_FORM_addrx2`
pub const ADDRX2: u64 = 0x2a;
/// `DW_FORM_addrx3`
pub const ADDRX3: u64 = 0x2b;
/// `DW_FORM_addrx4`
pub const ADDRX4: u64 = 0x2c;
