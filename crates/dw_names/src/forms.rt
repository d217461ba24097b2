//! Names of forms (DWARF 5 section 7.5.6, table 7.6), without `DW_FORM_`.
ghost use Rattle.std.specs.Prelude.{◌≡◌, option_map};
ghost use Rattle.dw_names.specs.Named.{named};
ghost use Rattle.dw_names.specs.Forms.{form_name, forms_00, forms_10, forms_20};

/// The name of a form, or `None` where the standard gives it none (DWARF 5 section 7.5.6).
#[tactic(auto, unfolding(crate::specs::Forms::form_name))]
pub fn form_name(form: u64) -> Option<&'static [u8]>
    ensures { option_map (λ name. name.now) result ≡ form_name form }
{
    match form / 16 {
        0 => forms_00(form),
        1 => forms_10(form),
        2 => forms_20(form),
        _ => None,
    }
}

#[tactic(auto, unfolding(crate::specs::Forms::forms_00))]
fn forms_00(form: u64) -> Option<&'static [u8]>
    ensures { option_map (λ name. name.now) result ≡ named forms_00 form }
{
    match form {
        0x01 => Some(b"addr"),
        0x03 => Some(b"block2"),
        0x04 => Some(b"block4"),
        0x05 => Some(b"data2"),
        0x06 => Some(b"data4"),
        0x07 => Some(b"data8"),
        0x08 => Some(b"string"),
        0x09 => Some(b"block"),
        0x0a => Some(b"block1"),
        0x0b => Some(b"data1"),
        0x0c => Some(b"flag"),
        0x0d => Some(b"sdata"),
        0x0e => Some(b"strp"),
        0x0f => Some(b"udata"),
        _ => None,
    }
}

#[tactic(auto, unfolding(crate::specs::Forms::forms_10))]
fn forms_10(form: u64) -> Option<&'static [u8]>
    ensures { option_map (λ name. name.now) result ≡ named forms_10 form }
{
    match form {
        0x10 => Some(b"ref_addr"),
        0x11 => Some(b"ref1"),
        0x12 => Some(b"ref2"),
        0x13 => Some(b"ref4"),
        0x14 => Some(b"ref8"),
        0x15 => Some(b"ref_udata"),
        0x16 => Some(b"indirect"),
        0x17 => Some(b"sec_offset"),
        0x18 => Some(b"exprloc"),
        0x19 => Some(b"flag_present"),
        0x1a => Some(b"strx"),
        0x1b => Some(b"addrx"),
        0x1c => Some(b"ref_sup4"),
        0x1d => Some(b"strp_sup"),
        0x1e => Some(b"data16"),
        0x1f => Some(b"line_strp"),
        _ => None,
    }
}

#[tactic(auto, unfolding(crate::specs::Forms::forms_20))]
fn forms_20(form: u64) -> Option<&'static [u8]>
    ensures { option_map (λ name. name.now) result ≡ named forms_20 form }
{
    match form {
        0x20 => Some(b"ref_sig8"),
        0x21 => Some(b"implicit_const"),
        0x22 => Some(b"loclistx"),
        0x23 => Some(b"rnglistx"),
        0x24 => Some(b"ref_sup8"),
        0x25 => Some(b"strx1"),
        0x26 => Some(b"strx2"),
        0x27 => Some(b"strx3"),
        0x28 => Some(b"strx4"),
        0x29 => Some(b"addrx1"),
        0x2a => Some(b"addrx2"),
        0x2b => Some(b"addrx3"),
        0x2c => Some(b"addrx4"),
        _ => None,
    }
}
