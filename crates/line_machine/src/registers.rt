//! The registers of the line machine.

ghost use Rattle.std.specs.Prelude.{◌≡◌};
ghost use Rattle.line_machine.specs.declared.registers.Row.{Row};
ghost use Rattle.line_machine.specs.Machine.{cleared, fresh};

/// A row of the line table; the machine's registers have the same fields (DWARF 5 section 6.2.2).
#[derive(Clone, Copy, Debug, PartialEq, Eq)]
pub struct Row {
    /// The address of an instruction, or of its first operation.
    pub address: u64,
    /// Which operation of the instruction, on machines that pack several into one.
    pub op_index: u64,
    /// The number of the source file.
    pub file: u64,
    /// The line in that file; modulo `2^64`.
    pub line: u64,
    /// The column in that line; 0 where none is told.
    pub column: u64,
    /// The instruction set.
    pub isa: u64,
    /// Tells blocks of one line apart.
    pub discriminator: u64,
    /// Whether the instruction is a good place for a breakpoint.
    pub stmt: bool,
    /// Whether a basic block begins here.
    pub block: bool,
    /// Whether a function's prologue ends here.
    pub prologue_end: bool,
    /// Whether a function's epilogue begins here.
    pub epilogue_begin: bool,
    /// Whether the address is the first behind a sequence of instructions.
    pub end: bool,
}

/// What a caller keeps of a row of the line table.
///
/// `kept` is what is kept. A list of such rows is made while the program runs, without a list of whole
/// rows beside it.
pub trait OfRow: Copy {
    ghost kept: { Row → Self };

    /// What is kept of this row.
    fn of_row(row: &Row) -> Self
        ensures { result ≡ kept row.now };
}

/// All of it.
impl OfRow for Row {
    ghost kept = { λ row. row };

    #[inline]
    fn of_row(row: &Row) -> Row {
        *row
    }
}

/// What a line program's header tells its machine (DWARF 5 section 6.2.4), and the unit's address
/// size in bytes.
#[derive(Clone, Copy, Debug, PartialEq, Eq)]
pub struct Program {
    /// The header's version, 4 or 5: in version 4 a program may define files.
    pub version: u16,
    /// The size of the smallest instruction.
    pub min_length: u8,
    /// How many operations an instruction has at most.
    pub max_ops: u8,
    /// `stmt` at the start of a sequence.
    pub default_stmt: bool,
    /// The least advance of a special opcode's line.
    pub line_base: i8,
    /// How many advances of the line special opcodes know.
    pub line_range: u8,
    /// The number of the first special opcode.
    pub opcode_base: u8,
    /// The size of an address.
    pub address_size: u8,
}

/// The registers at the start of a sequence.
#[tactic(auto, unfolding(crate::specs::Machine::fresh))]
pub(crate) fn fresh(program: &Program) -> Row
    ensures { result ≡ fresh program.now }
{
    Row {
        address: 0,
        op_index: 0,
        file: 1,
        line: 1,
        column: 0,
        isa: 0,
        discriminator: 0,
        stmt: program.default_stmt,
        block: false,
        prologue_end: false,
        epilogue_begin: false,
        end: false,
    }
}

/// Clears what tells of one row alone, behind an appended row.
#[inline]
#[tactic(auto, unfolding(crate::specs::Machine::cleared))]
pub(crate) fn clear(registers: &mut Row)
    ensures { registers.new ≡ cleared registers.old }
{
    registers.discriminator = 0;
    registers.block = false;
    registers.prologue_end = false;
    registers.epilogue_begin = false;
}
