//! Texts of a worked string table: within a block, over several blocks, without an end and outside.

use std::test::Fail;
use string_tables::{StringTable, first_zero};

#[test]
fn texts_end_behind_their_block(rt: HostRuntime) -> Result<(), Fail> {
    let mut bytes = [b'a'; 600];
    bytes[130] = 0;
    bytes[450] = 0;
    let table = StringTable::new(rt.alloc(), &bytes)?;
    assert_eq!(rt; table.len(), 600);
    for (place, length) in [
        (0, Some(130)),
        (127, Some(3)),
        (130, Some(0)),
        (131, Some(319)),
        (256, Some(194)),
        (449, Some(1)),
        (451, None),
        (599, None),
        (600, None),
    ] {
        assert_eq!(rt;
            table.text_at(place).map(|text| text.len()),
            length,
            "place {place}"
        );
    }
    Ok(())
}

#[test]
fn finds_the_first_zero(rt: HostRuntime) {
    assert_eq!(rt; first_zero(b"ab\0cd\0"), Some(2));
    assert_eq!(rt; first_zero(b"\0"), Some(0));
    assert_eq!(rt; first_zero(b"abc"), None);
    assert_eq!(rt; first_zero(b""), None);
}
