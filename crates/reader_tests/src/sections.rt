//! Worked files: one without sections, and one with `.debug_info` and the names' section.

use dw_fields::Order;
use elf_sections::{Elf, ElfRefusal, OpenRefusal, Sections};
use std::alloc::Global;
use std::test::Fail;

/// A file with a section `.debug_info` of 12 bytes at 0x40 and its names at 0x4c. The section
/// headers begin at 0x63.
const FILE: [u8; 291] = [
    0x7f, 0x45, 0x4c, 0x46, 0x02, 0x01, 0x01, 0, 0, 0, 0, 0, 0, 0, 0, 0, 0x02, 0, 0x3e, 0, 0x01, 0,
    0, 0, 0, 0, 0, 0, 0, 0, 0, 0, 0, 0, 0, 0, 0, 0, 0, 0, 0x63, 0, 0, 0, 0, 0, 0, 0, 0, 0, 0, 0,
    0x40, 0, 0, 0, 0, 0, 0x40, 0, 0x03, 0, 0x02, 0, 0x08, 0, 0, 0, 0x05, 0, 0x01, 0x08, 0, 0, 0, 0,
    0, 0x2e, 0x64, 0x65, 0x62, 0x75, 0x67, 0x5f, 0x69, 0x6e, 0x66, 0x6f, 0, 0x2e, 0x73, 0x68, 0x73,
    0x74, 0x72, 0x74, 0x61, 0x62, 0, 0, 0, 0, 0, 0, 0, 0, 0, 0, 0, 0, 0, 0, 0, 0, 0, 0, 0, 0, 0, 0,
    0, 0, 0, 0, 0, 0, 0, 0, 0, 0, 0, 0, 0, 0, 0, 0, 0, 0, 0, 0, 0, 0, 0, 0, 0, 0, 0, 0, 0, 0, 0, 0,
    0, 0, 0, 0, 0, 0, 0, 0, 0, 0, 0, 0x01, 0, 0, 0, 0x01, 0, 0, 0, 0, 0, 0, 0, 0, 0, 0, 0, 0, 0, 0,
    0, 0, 0, 0, 0, 0x40, 0, 0, 0, 0, 0, 0, 0, 0x0c, 0, 0, 0, 0, 0, 0, 0, 0, 0, 0, 0, 0, 0, 0, 0,
    0x01, 0, 0, 0, 0, 0, 0, 0, 0, 0, 0, 0, 0, 0, 0, 0, 0x0d, 0, 0, 0, 0x03, 0, 0, 0, 0, 0, 0, 0, 0,
    0, 0, 0, 0, 0, 0, 0, 0, 0, 0, 0, 0x4c, 0, 0, 0, 0, 0, 0, 0, 0x17, 0, 0, 0, 0, 0, 0, 0, 0, 0, 0,
    0, 0, 0, 0, 0, 0x01, 0, 0, 0, 0, 0, 0, 0, 0, 0, 0, 0, 0, 0, 0, 0,
];

/// The file with one byte changed.
fn changed(place: usize, value: u8) -> [u8; 291] {
    let mut file = FILE;
    if place < 291 {
        file[place] = value;
    }
    file
}

fn refusal_of(alloc: Global, file: &[u8]) -> Option<OpenRefusal> {
    match Elf::read(alloc, file) {
        Ok(_) => None,
        Err(refusal) => Some(refusal),
    }
}

#[test]
fn lists_sections(rt: HostRuntime) -> Result<(), Fail> {
    let file = FILE;
    let elf = match Elf::read(rt.alloc(), &file) {
        Ok(elf) => elf,
        Err(_) => return Err(Fail::from("refused")),
    };
    let sections = elf.sections();
    assert_eq!(rt; sections.len(), 3);
    assert_eq!(rt; sections[0].size, 0);
    assert_eq!(rt; sections[1].size, 12);
    assert_eq!(rt; sections[2].kind, 3);
    assert_eq!(rt; sections[2].bytes.len(), 23);
    assert!(rt; sections[2].name.starts_with(b".shstrtab"));
    assert_eq!(rt;
        elf.section(".debug_info").map_or(0, |bytes| bytes.len()),
        12
    );
    assert!(rt; elf.section(".debug_abbrev").is_none());
    let debug = elf.debug_sections();
    assert_eq!(rt; debug.info.len(), 12);
    assert_eq!(rt; debug.abbrev.len(), 0);
    assert!(rt; debug.text.is_none());
    Ok(())
}

#[test]
fn refuses_in_order(rt: HostRuntime) {
    let file = FILE;
    assert_eq!(rt;
        refusal_of(rt.alloc(), &file[..3]),
        Some(OpenRefusal::Refused(ElfRefusal::NotElf))
    );
    assert_eq!(rt;
        refusal_of(rt.alloc(), &file[..20]),
        Some(OpenRefusal::Refused(ElfRefusal::HeaderShort))
    );
    assert_eq!(rt;
        refusal_of(rt.alloc(), &file[..290]),
        Some(OpenRefusal::Refused(ElfRefusal::SectionTable))
    );
    for (place, value, refusal) in [
        (4, 0, ElfRefusal::ElfClass),
        (4, 3, ElfRefusal::ElfClass),
        (5, 0, ElfRefusal::ElfData),
        (5, 3, ElfRefusal::ElfData),
        (16, 1, ElfRefusal::Relocatable),
        (58, 40, ElfRefusal::SectionTable),
        (62, 3, ElfRefusal::SectionTable),
        (195, 228, ElfRefusal::SectionBounds(1)),
        (163, 23, ElfRefusal::NameOutside(1)),
        (172, 8, ElfRefusal::Compressed(1)),
    ] {
        assert_eq!(rt;
            refusal_of(rt.alloc(), &changed(place, value)),
            Some(OpenRefusal::Refused(refusal)),
            "byte {place}"
        );
    }
    assert_eq!(rt; refusal_of(rt.alloc(), &changed(195, 227)), None);
    assert_eq!(rt; refusal_of(rt.alloc(), &changed(40, 0)), None);
}

#[test]
fn refusals_are_told_in_words(rt: HostRuntime) -> Result<(), Fail> {
    let alloc = rt.alloc();
    for (refusal, words) in [
        (ElfRefusal::NotElf, "not an ELF file"),
        (
            ElfRefusal::SectionBounds(12),
            "section 12 past the end of the file",
        ),
        (ElfRefusal::Compressed(3), "section 3 is compressed"),
    ] {
        let told = format!(in alloc; "{}", OpenRefusal::from(refusal))?;
        assert_eq!(rt; told.as_str(), words);
    }
    let told = format!(in alloc; "{}", OpenRefusal::OutOfMemory)?;
    assert_eq!(rt; told.as_str(), "out of memory");
    assert!(rt; Sections::none(Order::Little).text.is_none());
    Ok(())
}
