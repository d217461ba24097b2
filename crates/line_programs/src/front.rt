//! The front of a line program's header, up to the lengths of the standard opcodes (DWARF 5 section
//! 6.2.4, items 1 to 10, DWARF 4 section 6.2.4, items 1 to 10).

ghost use Rattle.std.specs.Prelude.{◌≡◌, ◌+◌, ◌≤◌, ◌<◌, length, IfOk};
ghost use Rattle.dw_fields.specs.Reading.{Reads};
ghost use Rattle.line_programs.specs.Front.{bounds_at, in_header, instruction_fields_at, line_version_at, sizes_passed_at, special_opcodes_at, start_at};

use dw_fields::{Code, Cut, Fault, Order, renamed};

/// Where a line program lies in its section.
#[derive(Clone, Copy, Debug, PartialEq, Eq)]
pub(crate) struct Bounds {
    /// Behind its length.
    pub place: u64,
    /// Behind the program.
    pub end: u64,
    /// Whether it is of the 64-bit format: its offsets have 8 bytes.
    pub wide: bool,
}

/// The version of a header, and how many bytes of it are left behind its length.
#[derive(Clone, Copy, Debug, PartialEq, Eq)]
pub(crate) struct Start {
    pub version: u16,
    pub size: u64,
}

/// How an instruction is counted, and `stmt` at the start of a sequence.
#[derive(Clone, Copy, Debug, PartialEq, Eq)]
pub(crate) struct InstructionFields {
    pub min_length: u8,
    pub max_ops: u8,
    pub default_stmt: bool,
}

/// What special opcodes mean.
#[derive(Clone, Copy, Debug, PartialEq, Eq)]
pub(crate) struct SpecialOpcodes {
    pub line_base: i8,
    pub line_range: u8,
    pub opcode_base: u8,
}

/// A field or a text of the header that passes the header's end: `Truncated` and `TextUnended`
/// become `LineTruncated`.
pub(crate) fn in_header<T>(read: Result<T, Fault>) -> Result<T, Fault>
    ensures { result ≡ in_header read }
{
    renamed(
        renamed(read, Code::Truncated, Code::LineTruncated),
        Code::TextUnended,
        Code::LineTruncated,
    )
}

/// Where the program at an offset of the section lies.
#[tactic(auto, unfolding(crate::specs::Front::bounds_at))]
pub(crate) fn read_bounds(section: &[u8], order: Order, offset: u64) -> Result<Bounds, Fault>
    ensures answer { result ≡ bounds_at section.now order offset }
    ensures inside { IfOk result (λ b. (b.place ≤ b.end) × (b.end ≤ length section.now)) }
{
    let length = section.len() as u64;
    if length <= offset {
        return Err(Fault::at(Code::LineTruncated, length));
    }
    let mut cut = Cut::new(section, offset, length, order);
    let size = in_header(cut.length())?;
    if cut.left() < size.value {
        return Err(Fault::at(Code::LineTruncated, offset));
    }
    Ok(Bounds {
        place: cut.place(),
        end: cut.front(size.value).end(),
        wide: size.wide,
    })
}

/// The version, with the sizes that its header has.
#[tactic(auto, unfolding(crate::specs::Front::line_version_at))]
fn read_line_version(cut: &mut Cut<'_>) -> Result<u16, Fault>
    ensures { Reads (λ x. x) result line_version_at cut.old cut.new }
{
    let place = cut.place();
    let version = in_header(cut.u16())?;
    if version == 4 || version == 5 {
        return pass_sizes(cut, version);
    }
    Err(Fault::at(Code::LineVersion, place))
}

/// A version, and behind version 5 the sizes of addresses and segments, which aren't used.
#[tactic(auto, unfolding(crate::specs::Front::sizes_passed_at))]
fn pass_sizes(cut: &mut Cut<'_>, version: u16) -> Result<u16, Fault>
    ensures { Reads (λ x. x) result (sizes_passed_at version) cut.old cut.new }
{
    if version == 4 {
        return Ok(version);
    }
    let _address_size = in_header(cut.u8())?;
    let _segment_size = in_header(cut.u8())?;
    Ok(version)
}

/// What stands before the fields of the machine.
#[tactic(auto, unfolding(crate::specs::Front::start_at))]
pub(crate) fn read_start(cut: &mut Cut<'_>, wide: bool) -> Result<Start, Fault>
    ensures field { Reads (λ x. x) result (start_at wide) cut.old cut.new }
    ensures fits { IfOk result (λ start. cut.new.place + start.size ≤ cut.new.end) }
{
    let version = read_line_version(cut)?;
    let place = cut.place();
    let size = in_header(cut.offset(wide))?;
    if cut.left() < size {
        return Err(Fault::at(Code::LineTruncated, place));
    }
    Ok(Start { version, size })
}

/// The size of an instruction, its greatest number of operations, and `stmt` at the start.
#[tactic(auto, unfolding(crate::specs::Front::instruction_fields_at))]
pub(crate) fn read_instruction_fields(cut: &mut Cut<'_>) -> Result<InstructionFields, Fault>
    ensures field { Reads (λ x. x) result instruction_fields_at cut.old cut.new }
    ensures some { IfOk result (λ s. 0 < s.max_ops) }
{
    let min_length = in_header(cut.u8())?;
    let place = cut.place();
    let max_ops = in_header(cut.u8())?;
    if max_ops == 0 {
        return Err(Fault::at(Code::MaxOps, place));
    }
    let stmt = in_header(cut.u8())?;
    Ok(InstructionFields {
        min_length,
        max_ops,
        default_stmt: stmt != 0,
    })
}

/// What special opcodes mean.
#[tactic(auto, unfolding(crate::specs::Front::special_opcodes_at))]
pub(crate) fn read_special_opcodes(cut: &mut Cut<'_>) -> Result<SpecialOpcodes, Fault>
    ensures field { Reads (λ x. x) result special_opcodes_at cut.old cut.new }
    ensures some { IfOk result (λ r. (0 < r.line_range) × (0 < r.opcode_base)) }
{
    let base = in_header(cut.u8())?;
    let place = cut.place();
    let line_range = in_header(cut.u8())?;
    if line_range == 0 {
        return Err(Fault::at(Code::LineRange, place));
    }
    let place = cut.place();
    let opcode_base = in_header(cut.u8())?;
    if opcode_base == 0 {
        return Err(Fault::at(Code::LineRange, place));
    }
    Ok(SpecialOpcodes {
        line_base: base.cast_signed(),
        line_range,
        opcode_base,
    })
}
