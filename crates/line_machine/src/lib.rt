//! The machine of line programs (DWARF 5 section 6.2): its registers, its operations, and the rows
//! that a program appends.
//!
//! An operation is read (`specs/Operations.antt`) and then done (`specs/Machine.antt`): each step is
//! by cases of the operation. `rows` runs a program from its first byte to its end. Promised: the
//! rows, or the first refusal, are those of the definitions. A row takes no memory of its own.
#![tactic(auto)]

mod machine;
mod operations;
mod registers;
mod running;

pub use machine::step;
pub use operations::{Operation, read_file_numbers, read_operation};
pub use registers::{OfRow, Program, Row};
pub use running::{rows, rows_are_those_of_the_operations, rows_as};
