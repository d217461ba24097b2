//! The faults of the readers: a code and the place of the field.

ghost use Rattle.std.specs.Prelude.{◌≡◌};
ghost use Rattle.dw_fields.specs.Codes.{code_number, fault, renamed_fault};
ghost use Rattle.dw_fields.specs.Reading.{renamed as renamed_in};

/// Why a section can't be read on, one variant for each cause. The number is the one that the
/// program prints.
#[derive(Clone, Copy, Debug, PartialEq, Eq)]
pub enum Code {
    /// 20. The first word of an initial length is from 0xfffffff0 to 0xfffffffe.
    LengthReserved,
    /// 21. A unit passes its section's end, or a field of its header passes the unit's end.
    UnitTruncated,
    /// 22. The version of a unit isn't one that is read.
    UnitVersion,
    /// 23. The type of a unit isn't one of the standard.
    UnitType,
    /// 24. The size of an address isn't 2, 4 or 8 bytes.
    AddressSize,
    /// 25. The offset of a unit's declarations is above the length of their section.
    AbbrevOutside,
    /// 26. The unit's number is the greatest number of units.
    UnitLimit,
    /// 30. The code of an entry isn't declared in its table.
    CodeMissing,
    /// 31. A field of a declaration passes its section's end.
    DeclTruncated,
    /// 32. The value of a LEB128 number is outside 64 bits.
    LebTooLarge,
    /// 33. The children byte of a declaration isn't 0 or 1.
    ChildrenByte,
    /// 40. The form of an attribute isn't one of the standard.
    UnknownForm,
    /// 41. A field passes the end of what it stands in.
    Truncated,
    /// 42. The offset of a text is at or past its section's end.
    TextOutside,
    /// 43. No zero byte ends a text.
    TextUnended,
    /// 44. The word that an index names isn't wholly in its section.
    IndexOutside,
    /// 45. The unit has no base for an index.
    NoBase,
    /// 46. An indirect form names a form that can't stand there.
    IndirectForm,
    /// 47. The section that is needed is absent.
    NoSection,
    /// 50. The version of a line program isn't one that is read.
    LineVersion,
    /// 51. The line range or the opcode base of a line program is 0.
    LineRange,
    /// 52. The number of operations of an instruction is 0 in a line program.
    MaxOps,
    /// 53. A field of a line program passes its end.
    LineTruncated,
    /// 54. The form of a file or directory entry isn't one that can stand there.
    LineForm,
    /// 55. The length of an extended operation doesn't fit its operation.
    ExtendedLength,
    /// 60. The kind of a list entry isn't one of the standard.
    ListKind,
    /// 61. An operand of a list entry passes its section's end.
    ListTruncated,
    /// 62. A list isn't ended by its section's end.
    ListUnended,
}

/// A refusal of a section's bytes: the cause, and the offset of the field from the section's start.
#[derive(Clone, Copy, Debug, PartialEq, Eq)]
pub struct Fault {
    /// What is wrong.
    pub code: Code,
    /// Where: the field's offset from the section's start.
    pub place: u64,
}

impl Code {
    /// The number that stands for the cause in the program's output.
    pub fn number(&self) -> u8
        ensures { result ≡ code_number self.now }
    {
        match self {
            Code::LengthReserved => 20,
            Code::UnitTruncated => 21,
            Code::UnitVersion => 22,
            Code::UnitType => 23,
            Code::AddressSize => 24,
            Code::AbbrevOutside => 25,
            Code::UnitLimit => 26,
            Code::CodeMissing => 30,
            Code::DeclTruncated => 31,
            Code::LebTooLarge => 32,
            Code::ChildrenByte => 33,
            Code::UnknownForm => 40,
            Code::Truncated => 41,
            Code::TextOutside => 42,
            Code::TextUnended => 43,
            Code::IndexOutside => 44,
            Code::NoBase => 45,
            Code::IndirectForm => 46,
            Code::NoSection => 47,
            Code::LineVersion => 50,
            Code::LineRange => 51,
            Code::MaxOps => 52,
            Code::LineTruncated => 53,
            Code::LineForm => 54,
            Code::ExtendedLength => 55,
            Code::ListKind => 60,
            Code::ListTruncated => 61,
            Code::ListUnended => 62,
        }
    }
}

impl Fault {
    /// The refusal for this cause of the field at `place`.
    #[inline]
    pub fn at(code: Code, place: u64) -> Fault
        ensures { result ≡ fault code place }
    {
        Fault { code, place }
    }
}

/// The answer of a reader under another name: a fault of the cause `from` gets the cause `to`, at
/// the same place, and all else stays.
#[inline]
pub fn renamed<T>(read: Result<T, Fault>, from: Code, to: Code) -> Result<T, Fault>
    ensures { result ≡ renamed_in from to read }
{
    match read {
        Ok(value) => Ok(value),
        Err(fault) => Err(renamed_fault(fault, from, to)),
    }
}

#[inline]
fn renamed_fault(fault: Fault, from: Code, to: Code) -> Fault
    ensures { result ≡ renamed_fault from to fault }
{
    if fault.code == from {
        Fault::at(to, fault.place)
    } else {
        fault
    }
}
