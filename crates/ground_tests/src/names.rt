//! Each call of `dw_names` once, with names of the public standard.
use dw_names::{
    attribute_name, form_name, prepend_attribute_after, prepend_tag_after, push_attribute_after,
    push_form_after, push_tag_after, tag_name,
};
use dw_text::LineBuffer;
use std::test::Fail;

#[test]
fn names_and_numbers(rt: HostRuntime) -> Result<(), Fail> {
    let mut out = Vec::new(rt.alloc());
    push_tag_after(&mut out, b"", 0x01)?;
    push_tag_after(&mut out, b" ", 0x4b)?;
    push_tag_after(&mut out, b" ", 0x4080)?;
    push_attribute_after(&mut out, b" ", 0x01)?;
    push_attribute_after(&mut out, b" ", 0x8c)?;
    push_attribute_after(&mut out, b" ", 0)?;
    push_form_after(&mut out, b" ", 0x01)?;
    push_form_after(&mut out, b" ", 0x2c)?;
    push_form_after(&mut out, b" ", 0x1f20)?;
    assert_eq!(rt;
        out.as_slice(),
        b"array_type immutable_type 0x4080 sibling loclists_base 0x0 addr addrx4 0x1f20".as_slice()
    );
    assert!(rt; tag_name(0x06).is_none());
    assert!(rt; attribute_name(0x26).is_none());
    assert!(rt; form_name(0x02).is_none());
    Ok(())
}

#[test]
fn names_before_what_stands(rt: HostRuntime) -> Result<(), Fail> {
    let mut line = LineBuffer::new();
    prepend_tag_after(&mut line, b" ", 0x4080);
    prepend_tag_after(&mut line, b" ", 0x30);
    prepend_attribute_after(&mut line, b" ", 0x70);
    prepend_attribute_after(&mut line, b"", 0x2000);
    assert_eq!(rt;
        line.text(),
        b"0x2000 string_length_byte_size template_value_parameter 0x4080".as_slice()
    );
    Ok(())
}
