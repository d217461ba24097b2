//! What each operation does (DWARF 5 section 6.2.5).

ghost use Rattle.std.specs.Prelude.{◌≡◌, ℕ, ◌/◌, ◌%◌, ◌*◌, ◌^◌, ◌<◌, true};
ghost use Rattle.dw_fields.specs.Reading.{IsAddressSize, wrapped_address};
ghost use Rattle.line_machine.specs.Machine.{IsRunnable, advanced, cleared, fresh as fresh_of, line_step, moved, special};

use crate::operations::Operation;
use crate::registers::{Program, Row, clear, fresh};
use dw_fields::wrap_address;

/// Does one operation on the registers, and answers the row that it appends (DWARF 5 section
/// 6.2.5).
#[inline]
#[tactic(auto, unfolding(crate::specs::Machine::line_step))]
pub fn step(program: &Program, registers: &mut Row, operation: Operation) -> Option<Row>
    requires { IsRunnable program.now }
    ensures { (registers.new, result) ≡ line_step program.now registers.old operation }
{
    match operation {
        Operation::Copy => Some(append(registers)),
        Operation::AdvancePc(count) => {
            advance(program, registers, count);
            None
        }
        Operation::AdvanceLine(count) => {
            registers.line = registers.line.wrapping_add_signed(count);
            None
        }
        Operation::SetFile(file) => {
            registers.file = file;
            None
        }
        Operation::SetColumn(column) => {
            registers.column = column;
            None
        }
        Operation::NegateStmt => {
            registers.stmt = !registers.stmt;
            None
        }
        Operation::SetBasicBlock => {
            registers.block = true;
            None
        }
        Operation::ConstAddPc => {
            let above = (255 - program.opcode_base) / program.line_range;
            advance(program, registers, u64::from(above));
            None
        }
        Operation::FixedAdvancePc(count) => {
            move_address(program, registers, count);
            None
        }
        Operation::SetPrologueEnd => {
            registers.prologue_end = true;
            None
        }
        Operation::SetEpilogueBegin => {
            registers.epilogue_begin = true;
            None
        }
        Operation::SetIsa(isa) => {
            registers.isa = isa;
            None
        }
        Operation::EndSequence => Some(end_sequence(program, registers)),
        Operation::SetAddress(address) => {
            registers.address = wrap_address(u128::from(address), program.address_size);
            registers.op_index = 0;
            None
        }
        Operation::SetDiscriminator(discriminator) => {
            registers.discriminator = discriminator;
            None
        }
        Operation::Special(above) => {
            advance_special(program, registers, above);
            Some(append(registers))
        }
        Operation::DefineFile => None,
        Operation::Nothing => None,
    }
}

/// The row of the registers, which are cleared behind it.
#[inline]
fn append(registers: &mut Row) -> Row
    ensures row { result ≡ registers.old }
    ensures behind { registers.new ≡ cleared registers.old }
{
    let row = *registers;
    clear(registers);
    row
}

/// The last row of a sequence. The registers are those at the start of one.
#[inline]
fn end_sequence(program: &Program, registers: &mut Row) -> Row
    ensures row { result ≡ record registers.old { end = true } }
    ensures behind { registers.new ≡ fresh_of program.now }
{
    let row = Row {
        end: true,
        ..*registers
    };
    *registers = fresh(program);
    row
}

/// Advances by so many operations, which may be several instructions. The sums here are unbounded:
/// only the address is taken modulo its size.
#[inline]
#[tactic(auto, unfolding(crate::specs::Machine::advanced))]
fn advance(program: &Program, registers: &mut Row, count: u64)
    requires size { IsAddressSize program.now.address_size }
    requires ops { 0 < program.now.max_ops }
    ensures { registers.new ≡ advanced program.now registers.old count }
{
    let operations = u128::from(registers.op_index) + u128::from(count);
    let packed = pack(operations, program.max_ops);
    let address = u128::from(registers.address)
        + u128::from(program.min_length) * packed.instructions;
    registers.address = wrap_address(address, program.address_size);
    registers.op_index = packed.op_index;
}

/// Operations as whole instructions, and the operations that are left of them.
#[derive(Clone, Copy)]
struct Packed {
    instructions: u128,
    op_index: u64,
}

/// Packs operations into instructions of at most so many. Most machines have one operation in each:
/// these divide nothing.
#[inline]
fn pack(operations: u128, max_ops: u8) -> Packed
    requires { 0 < max_ops }
    ensures instructions { result.instructions ≡ operations / max_ops }
    ensures op_index { result.op_index ≡ operations % max_ops }
{
    if max_ops == 1 {
        return Packed {
            instructions: operations,
            op_index: 0,
        };
    }
    let most = u128::from(max_ops);
    Packed {
        instructions: operations / most,
        op_index: (operations % most) as u64,
    }
}

/// Moves the address by so many bytes.
#[inline]
#[tactic(auto, unfolding(crate::specs::Machine::moved))]
fn move_address(program: &Program, registers: &mut Row, count: u64)
    requires { IsAddressSize program.now.address_size }
    ensures { registers.new ≡ moved program.now registers.old count }
{
    let address = u128::from(registers.address) + u128::from(count);
    registers.address = wrap_address(address, program.address_size);
    registers.op_index = 0;
}

/// The special opcode so many above the first: both the line and the address advance.
#[inline]
#[tactic(auto, unfolding(crate::specs::Machine::special))]
fn advance_special(program: &Program, registers: &mut Row, above: u64)
    requires size { IsAddressSize program.now.address_size }
    requires ops { 0 < program.now.max_ops }
    requires range { 0 < program.now.line_range }
    ensures { registers.new ≡ special program.now registers.old above }
{
    let range = u64::from(program.line_range);
    let based = registers
        .line
        .wrapping_add_signed(i64::from(program.line_base));
    registers.line = based.wrapping_add(above % range);
    advance(program, registers, above / range);
}
