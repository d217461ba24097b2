//! Refusals in words.

ghost use Rattle.std.specs.Prelude.{◌≡◌};
ghost use Rattle.dw_fields.specs.FaultMessages.{code_message};

use crate::fault_code::{Code, Fault};
use std::error::Error;
use std::fmt;

impl Code {
    /// What was wrong, in words.
    pub fn message(&self) -> &'static str
        ensures { result.now ≡ code_message self.now }
    {
        match self {
            Code::LengthReserved => "reserved value of an initial length",
            Code::UnitTruncated =>
                "unit past the end of its section, or header field past the end of the unit",
            Code::UnitVersion => "unit of a version that is not read",
            Code::UnitType => "unknown unit type",
            Code::AddressSize => "address size other than 2, 4 or 8",
            Code::AbbrevOutside => "declarations past the end of .debug_abbrev",
            Code::UnitLimit => "more units than are read",
            Code::CodeMissing => "entry with a code that is not declared",
            Code::DeclTruncated => "declaration past the end of .debug_abbrev",
            Code::LebTooLarge => "LEB128 number outside 64 bits",
            Code::ChildrenByte => "children byte other than 0 or 1",
            Code::UnknownForm => "unknown attribute form",
            Code::Truncated => "field past the end of what it stands in",
            Code::TextOutside => "text past the end of its section",
            Code::TextUnended => "text without a zero byte behind it",
            Code::IndexOutside => "index past the end of its section",
            Code::NoBase => "index in a unit that has no base for it",
            Code::IndirectForm => "indirect form naming a form that cannot stand there",
            Code::NoSection => "value in a section that is absent",
            Code::LineVersion => "line program of a version that is not read",
            Code::LineRange => "line range or opcode base of 0",
            Code::MaxOps => "maximum of 0 operations per instruction",
            Code::LineTruncated => "field past the end of its line program",
            Code::LineForm => "form that cannot stand in a file or directory entry",
            Code::ExtendedLength => "extended opcode of a length that does not fit it",
            Code::ListKind => "unknown kind of list entry",
            Code::ListTruncated => "list entry past the end of its section",
            Code::ListUnended => "list without an end in its section",
        }
    }
}

impl fmt::Display for Code {
    ghost use Rattle.std.specs.Prelude.{Some};
    ghost use Rattle.dw_fields.specs.FaultMessages.{code_message};

    ghost output = { λ c. Some (code_message c) };

    fn fmt<W: fmt::Write>(&self, f: &mut fmt::Formatter<W>) -> fmt::Result {
        f.write_str(self.message())
    }
}

impl Error for Code {}

impl fmt::Display for Fault {
    ghost use Rattle.std.specs.Prelude.{Some};
    ghost use Rattle.dw_fields.specs.FaultMessages.{fault_message};

    ghost output = { λ f. Some (fault_message f) };

    fn fmt<W: fmt::Write>(&self, f: &mut fmt::Formatter<W>) -> fmt::Result {
        write!(f, "{} at offset 0x{:x}", self.code, self.place)
    }
}

impl Error for Fault {}
