//! Each call of `dw_text` once, with texts that were written by hand.
use dw_text::{
    LineBuffer, plain_end, push_decimal, push_decimal_after, push_escaped, push_escaped_after,
    push_hex, push_hex_after, push_hex_bytes, push_hex_bytes_after, push_signed, push_signed_after,
    push_sixteen, push_sixteen_after, push_text, push_text_after,
};
use std::test::Fail;

#[test]
fn numbers_as_texts(rt: HostRuntime) -> Result<(), Fail> {
    let mut out = Vec::new(rt.alloc());
    push_decimal(&mut out, 0)?;
    push_decimal_after(&mut out, b" ", 18446744073709551615)?;
    push_hex_after(&mut out, b" 0x", 0)?;
    push_hex_after(&mut out, b" 0x", 0x10af)?;
    push_hex_after(&mut out, b" 0x", 18446744073709551615)?;
    assert_eq!(rt;
        out.as_slice(),
        b"0 18446744073709551615 0x0 0x10af 0xffffffffffffffff".as_slice()
    );
    out.clear();
    push_hex(&mut out, 9)?;
    push_sixteen_after(&mut out, b" 0x", 0)?;
    push_sixteen_after(&mut out, b" 0x", 0x123456789abcdef0)?;
    push_text(&mut out, b" ")?;
    push_sixteen(&mut out, 0xff)?;
    assert_eq!(rt;
        out.as_slice(),
        b"9 0x0000000000000000 0x123456789abcdef0 00000000000000ff".as_slice()
    );
    out.clear();
    push_signed(&mut out, 0)?;
    push_signed_after(&mut out, b" ", -1)?;
    push_signed_after(&mut out, b" ", -9223372036854775808)?;
    push_signed_after(&mut out, b" ", 9223372036854775807)?;
    assert_eq!(rt;
        out.as_slice(),
        b"0 -1 -9223372036854775808 9223372036854775807".as_slice()
    );
    Ok(())
}

#[test]
fn escapes_and_bytes(rt: HostRuntime) -> Result<(), Fail> {
    let mut out = Vec::new(rt.alloc());
    push_escaped_after(&mut out, b"text ", b"a \"b\\~\x7f\x1f\n\xff")?;
    push_escaped(&mut out, b"")?;
    push_text_after(&mut out, b"|", b"\"")?;
    assert_eq!(rt;
        out.as_slice(),
        b"text a \\\"b\\\\~\\x7f\\x1f\\x0a\\xff|\"".as_slice()
    );
    out.clear();
    let bytes = [0xab; 33];
    push_hex_bytes_after(&mut out, b"x ", &bytes)?;
    push_hex_bytes(&mut out, b"\x00\x9f")?;
    push_hex_bytes(&mut out, b"")?;
    assert_eq!(rt;
        out.as_slice(),
        b"x ababababababababababababababababababababababababababababababababab009f".as_slice()
    );
    Ok(())
}

#[test]
fn a_line_from_its_end(rt: HostRuntime) -> Result<(), Fail> {
    let mut line = LineBuffer::new();
    line.prepend_text(b"\n");
    line.prepend_decimal_after(b" ", 18446744073709551615);
    line.prepend_decimal_after(b" ", 0);
    line.prepend_hex_after(b" 0x", 0x123456789abcdef0);
    line.prepend_hex_after(b"0x", 0);
    assert_eq!(rt;
        line.text(),
        b"0x0 0x123456789abcdef0 0 18446744073709551615\n".as_slice()
    );
    line.clear();
    assert_eq!(rt; line.text(), b"".as_slice());
    line.prepend_sixteen_after(b" 0x", 0x123456789abcdef0);
    line.prepend_signed_after(b" ", -9223372036854775808);
    line.prepend_signed_after(b" ", 9223372036854775807);
    line.prepend_signed_after(b"", -1);
    assert_eq!(rt;
        line.text(),
        b"-1 9223372036854775807 -9223372036854775808 0x123456789abcdef0".as_slice()
    );
    Ok(())
}

#[test]
fn pieces_of_a_fixed_length_and_bytes_in_a_line(rt: HostRuntime) -> Result<(), Fail> {
    let mut line = LineBuffer::new();
    line.prepend_hex_bytes_after(b" ", b"");
    line.prepend_hex_bytes_after(b" ", b"\x00\x9f\xff");
    line.prepend_last(b"..............................ab", 2);
    line.prepend_hex_after(b"0x", 0x100);
    line.prepend_last(b"................................", 0);
    line.prepend_hex_after(b"0x", 0x10);
    line.prepend_hex_after(b"0x", 0xf);
    line.prepend_last(b"0123456789abcdef0123456789abcde ", 32);
    assert_eq!(rt;
        line.text(),
        b"0123456789abcdef0123456789abcde 0xf0x100x100ab 009fff ".as_slice()
    );
    Ok(())
}

#[test]
fn runs_of_plain_bytes(rt: HostRuntime) -> Result<(), Fail> {
    let text = b"0123456789abcdef0123456789abcdef~\\\x00 \"";
    assert_eq!(rt; plain_end(text, 0), 33);
    assert_eq!(rt; plain_end(text, 20), 33);
    assert_eq!(rt; plain_end(text, 33), 33);
    assert_eq!(rt; plain_end(text, 35), 36);
    assert_eq!(rt; plain_end(text, 37), 37);
    assert_eq!(rt; plain_end(b"0123456789abcde\x7f", 0), 15);
    assert_eq!(rt; plain_end(b"0123456789abcdef", 0), 16);
    assert_eq!(rt; plain_end(b"", 0), 0);
    Ok(())
}
