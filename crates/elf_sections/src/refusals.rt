//! Why a file's section table is refused.

ghost use Rattle.std.specs.Prelude.{◌≡◌};
ghost use Rattle.elf_sections.specs.declared.refusals.OpenRefusal.TheVariants.{OutOfMemory, Refused};

use std::alloc::{AllocError, AllocFailed};
use std::error::Error;
use std::fmt;

/// The first reason, in the order of the checks, why a file has no section table that can be read.
///
/// A number is that of the section header, counted from 0 in table order.
#[derive(Clone, Copy, Debug, PartialEq, Eq)]
pub enum ElfRefusal {
    /// The file doesn't begin with the four bytes `7f 45 4c 46`.
    NotElf,
    /// The class byte isn't 1 (32-bit) or 2 (64-bit).
    ElfClass,
    /// The data byte isn't 1 (little-endian) or 2 (big-endian).
    ElfData,
    /// The file ends before its ELF header does.
    HeaderShort,
    /// The section headers have another size than the class asks for, aren't wholly in the file, or
    /// the number of the names' section is none of theirs.
    SectionTable,
    /// This section has bytes, and they aren't wholly in the file.
    SectionBounds(u64),
    /// This section holds debugging data in compressed form.
    Compressed(u64),
    /// The file is a relocatable object file.
    Relocatable,
    /// This section's name doesn't begin or doesn't end within the names' section.
    NameOutside(u64),
    /// The file has more than [`FILE_LIMIT`](crate::FILE_LIMIT) bytes.
    FileLimit,
}

impl fmt::Display for ElfRefusal {
    ghost use Rattle.std.specs.Prelude.{Some};
    ghost use Rattle.elf_sections.specs.RefusalMessages.{elf_message};

    ghost output = { λ refusal. Some (elf_message refusal) };

    fn fmt<W: fmt::Write>(&self, f: &mut fmt::Formatter<W>) -> fmt::Result {
        match self {
            ElfRefusal::NotElf => f.write_str("not an ELF file"),
            ElfRefusal::ElfClass => f.write_str("ELF class that is not read"),
            ElfRefusal::ElfData => f.write_str("byte order that is not read"),
            ElfRefusal::HeaderShort => f.write_str("ELF header past the end of the file"),
            ElfRefusal::SectionTable => {
                f.write_str("section headers that do not fit the file or its class")
            }
            ElfRefusal::SectionBounds(number) => {
                write!(f, "section {number} past the end of the file")
            }
            ElfRefusal::Compressed(number) => write!(f, "section {number} is compressed"),
            ElfRefusal::Relocatable => f.write_str("relocatable object file"),
            ElfRefusal::NameOutside(number) => {
                write!(f, "name of section {number} outside the section of names")
            }
            ElfRefusal::FileLimit => f.write_str("more bytes than are read"),
        }
    }
}

impl Error for ElfRefusal {}

/// Why `Elf::read` gave no list.
#[derive(Clone, Copy, Debug, PartialEq, Eq)]
pub enum OpenRefusal {
    /// The file is refused.
    Refused(ElfRefusal),
    /// There was no memory for the list, or for the ends of the names' texts.
    OutOfMemory,
}

impl From<ElfRefusal> for OpenRefusal {
    ghost from_gives = { λ refusal e. e ≡ Refused refusal };

    fn from(refusal: ElfRefusal) -> OpenRefusal {
        OpenRefusal::Refused(refusal)
    }
}

impl From<AllocError> for OpenRefusal {
    ghost from_gives = { λ _ e. e ≡ OutOfMemory };

    fn from(_: AllocError) -> OpenRefusal {
        OpenRefusal::OutOfMemory
    }
}

impl<T: Drop> From<AllocFailed<T>> for OpenRefusal {
    ghost from_gives = { λ _ e. e ≡ OutOfMemory };

    fn from(_: AllocFailed<T>) -> OpenRefusal {
        OpenRefusal::OutOfMemory
    }
}

impl fmt::Display for OpenRefusal {
    ghost use Rattle.std.specs.Prelude.{Some};
    ghost use Rattle.elf_sections.specs.RefusalMessages.{open_message};

    ghost output = { λ refusal. Some (open_message refusal) };

    fn fmt<W: fmt::Write>(&self, f: &mut fmt::Formatter<W>) -> fmt::Result {
        match self {
            OpenRefusal::Refused(refusal) => write!(f, "{refusal}"),
            OpenRefusal::OutOfMemory => f.write_str("out of memory"),
        }
    }
}

impl Error for OpenRefusal {}
