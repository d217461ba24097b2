//! The operations of a line program as they stand in its bytes (DWARF 5 section 6.2.5, DWARF 4 section
//! 6.2.5).

ghost use Rattle.std.specs.Prelude.{◌≡◌, ℕ, ◌+◌, ◌-◌, ◌<◌, ◌≤◌, length, OnOk};
ghost use Rattle.dw_fields.specs.Reading.{Moves, Onward, Reads, number_at};
ghost use Rattle.line_machine.specs.Operations.{define_file_at, extended_at, file_numbers_at, file_passed_at, in_operation, in_program, operation_at, overlong, passed_over, set_address_at, standard_at, within_at};

use crate::registers::Program;
use dw_fields::{Code, Cut, Fault, renamed};

/// An operation with its operands (DWARF 5 sections 6.2.5.1 to 6.2.5.3).
#[derive(Clone, Copy, Debug, PartialEq, Eq)]
pub enum Operation {
    /// `DW_LNS_copy`: appends a row.
    Copy,
    /// `DW_LNS_advance_pc`: advances by so many operations.
    AdvancePc(u64),
    /// `DW_LNS_advance_line`: advances the line.
    AdvanceLine(i64),
    /// `DW_LNS_set_file`: sets the file.
    SetFile(u64),
    /// `DW_LNS_set_column`: sets the column.
    SetColumn(u64),
    /// `DW_LNS_negate_stmt`: turns `stmt` over.
    NegateStmt,
    /// `DW_LNS_set_basic_block`: a basic block begins.
    SetBasicBlock,
    /// `DW_LNS_const_add_pc`: advances as the special opcode 255 would, and appends no row.
    ConstAddPc,
    /// `DW_LNS_fixed_advance_pc`: advances the address by so many bytes.
    FixedAdvancePc(u64),
    /// `DW_LNS_set_prologue_end`: a prologue ends.
    SetPrologueEnd,
    /// `DW_LNS_set_epilogue_begin`: an epilogue begins.
    SetEpilogueBegin,
    /// `DW_LNS_set_isa`: sets the instruction set.
    SetIsa(u64),
    /// `DW_LNE_end_sequence`: appends the last row of a sequence.
    EndSequence,
    /// `DW_LNE_set_address`: sets the address.
    SetAddress(u64),
    /// `DW_LNE_define_file`, in headers of version 4 alone: names a file behind those of the header.
    /// The machine does nothing.
    DefineFile,
    /// `DW_LNE_set_discriminator`: sets the discriminator.
    SetDiscriminator(u64),
    /// The special opcode that is so many above the first.
    Special(u64),
    /// An operation that this machine doesn't know, and that does nothing here.
    Nothing,
}

/// Reads one operation, and passes it. The cut is the program from the operation on; `lengths` are
/// the header's numbers of operands, from opcode 1 on.
///
/// # Errors
/// - `LineTruncated` at a field that passes the program's end, and behind the length of an extended
///   operation that passes it.
/// - `ExtendedLength` at the length of an extended operation that is 0 or that an operand passes, or
///   where an address operand isn't 2, 4 or 8 bytes.
/// - `LebTooLarge` at a LEB128 outside 64 bits.
#[tactic(auto, unfolding(crate::specs::Operations::operation_at))]
pub fn read_operation(
    cut: &mut Cut<'_>,
    program: &Program,
    lengths: &[u8],
) -> Result<Operation, Fault>
    requires { program.now.opcode_base ≤ length lengths.now + 1 }
    ensures field { Reads (λ x. x) result (operation_at program.now lengths.now) cut.old cut.new }
    ensures moves { OnOk result (Moves 1 cut.old cut.new) }
{
    let opcode = in_program(cut.u8())?;
    if program.opcode_base <= opcode {
        return Ok(Operation::Special(u64::from(opcode - program.opcode_base)));
    }
    if opcode == 0 {
        return read_extended(cut, program.version);
    }
    in_program(read_standard(cut, opcode, lengths))
}

/// A field that passes the program's end: `Truncated` becomes `LineTruncated`.
fn in_program<T>(read: Result<T, Fault>) -> Result<T, Fault>
    ensures { result ≡ in_program read }
{
    renamed(read, Code::Truncated, Code::LineTruncated)
}

/// An operand that passes its extended operation is refused at the operation's length, which stands
/// at `place`: `Truncated` becomes `ExtendedLength`.
fn overlong(place: u64, fault: Fault) -> Fault
    ensures { result ≡ overlong place fault }
{
    if fault.code == Code::Truncated {
        Fault::at(Code::ExtendedLength, place)
    } else {
        fault
    }
}

/// The answer of a reader inside an extended operation whose length stands at `place`.
fn in_operation<T>(place: u64, read: Result<T, Fault>) -> Result<T, Fault>
    ensures { result ≡ in_operation place read }
{
    match read {
        Ok(value) => Ok(value),
        Err(fault) => Err(overlong(place, fault)),
    }
}

/// The operands of a standard opcode.
#[tactic(auto, unfolding(crate::specs::Operations::standard_at))]
fn read_standard(cut: &mut Cut<'_>, opcode: u8, lengths: &[u8]) -> Result<Operation, Fault>
    requires some { 0 < opcode }
    requires inside { opcode ≤ length lengths.now }
    ensures field { Reads (λ x. x) result (standard_at lengths.now opcode) cut.old cut.new }
    ensures onward { OnOk result (Onward cut.old cut.new) }
{
    match opcode {
        1 => Ok(Operation::Copy),
        2 => Ok(Operation::AdvancePc(cut.uleb()?)),
        3 => Ok(Operation::AdvanceLine(cut.sleb()?)),
        4 => Ok(Operation::SetFile(cut.uleb()?)),
        5 => Ok(Operation::SetColumn(cut.uleb()?)),
        6 => Ok(Operation::NegateStmt),
        7 => Ok(Operation::SetBasicBlock),
        8 => Ok(Operation::ConstAddPc),
        9 => Ok(Operation::FixedAdvancePc(u64::from(cut.u16()?))),
        10 => Ok(Operation::SetPrologueEnd),
        11 => Ok(Operation::SetEpilogueBegin),
        12 => Ok(Operation::SetIsa(cut.uleb()?)),
        _ => pass_operands(cut, lengths[opcode as usize - 1]),
    }
}

/// Passes over so many unsigned LEB128.
fn pass_operands(cut: &mut Cut<'_>, count: u8) -> Result<Operation, Fault>
    ensures field { Reads (λ x. x) result (passed_over count) cut.old cut.new }
    ensures onward { OnOk result (Onward cut.old cut.new) }
{
    for _turn in 0..count {
        let _operand = cut.uleb()?;
    }
    Ok(Operation::Nothing)
}

/// An extended operation behind its opcode 0.
#[tactic(auto, unfolding(crate::specs::Operations::extended_at))]
fn read_extended(cut: &mut Cut<'_>, version: u16) -> Result<Operation, Fault>
    ensures field { Reads (λ x. x) result (extended_at version) cut.old cut.new }
    ensures moves { OnOk result (Moves 1 cut.old cut.new) }
{
    let place = cut.place();
    let count = in_program(cut.uleb())?;
    if count == 0 {
        return Err(Fault::at(Code::ExtendedLength, place));
    }
    if cut.left() < count {
        return Err(Fault::at(Code::LineTruncated, cut.place()));
    }
    let mut inside = cut.front(count);
    let operation = read_within(&mut inside, version, place)?;
    cut.pass(count);
    Ok(operation)
}

/// What stands inside an extended operation, whose length stands at `place`.
#[tactic(auto, unfolding(crate::specs::Operations::within_at))]
fn read_within(cut: &mut Cut<'_>, version: u16, place: u64) -> Result<Operation, Fault>
    ensures { Reads (λ x. x) result (within_at version place) cut.old cut.new }
{
    let kind = in_operation(place, cut.u8())?;
    match kind {
        1 => Ok(Operation::EndSequence),
        2 => read_address(cut, place),
        3 => read_define_file(cut, version, place),
        4 => Ok(Operation::SetDiscriminator(in_operation(place, cut.uleb())?)),
        _ => Ok(Operation::Nothing),
    }
}

/// The address takes all that is left of its operation.
#[tactic(auto, unfolding(crate::specs::Operations::set_address_at))]
fn read_address(cut: &mut Cut<'_>, place: u64) -> Result<Operation, Fault>
    ensures { Reads (λ x. x) result (set_address_at place) cut.old cut.new }
{
    match cut.left() {
        2 => Ok(Operation::SetAddress(u64::from(cut.u16()?))),
        4 => Ok(Operation::SetAddress(u64::from(cut.u32()?))),
        8 => Ok(Operation::SetAddress(cut.u64()?)),
        _ => Err(Fault::at(Code::ExtendedLength, place)),
    }
}

/// The operation 3, which only a program whose header is of version 4 knows.
#[tactic(auto, unfolding(crate::specs::Operations::define_file_at))]
fn read_define_file(cut: &mut Cut<'_>, version: u16, place: u64) -> Result<Operation, Fault>
    ensures { Reads (λ x. x) result (define_file_at version place) cut.old cut.new }
{
    if version != 4 {
        return Ok(Operation::Nothing);
    }
    let _directory = in_operation(place, pass_file(cut))?;
    Ok(Operation::DefineFile)
}

/// A path and the numbers behind it.
#[tactic(auto, unfolding(crate::specs::Operations::file_passed_at))]
fn pass_file(cut: &mut Cut<'_>) -> Result<u64, Fault>
    ensures { Reads (λ x. x) result file_passed_at cut.old cut.new }
{
    let _path = renamed(cut.text(), Code::TextUnended, Code::Truncated)?;
    read_file_numbers(cut)
}

/// The numbers that stand behind the path of a file of version 4 (DWARF 4 section 6.2.4, item 12): of
/// its directory, which is the answer, of the time of its last change, and of its size.
///
/// # Errors
/// `Truncated` at a number that passes the cut's end, `LebTooLarge` at one outside 64 bits.
#[tactic(auto, unfolding(crate::specs::Operations::file_numbers_at))]
pub fn read_file_numbers(cut: &mut Cut<'_>) -> Result<u64, Fault>
    ensures { Reads (λ x. x) result file_numbers_at cut.old cut.new }
{
    let directory = cut.uleb()?;
    let _time = cut.uleb()?;
    let _size = cut.uleb()?;
    Ok(directory)
}
