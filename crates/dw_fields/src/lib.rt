//! Bounds-checked fields of DWARF sections: numbers of fixed width in either byte order, LEB128
//! numbers, initial lengths, offsets, addresses, byte runs and texts (DWARF 5 sections 7.4, 7.5.1.1
//! and 7.6).
//!
//! A [`Cut`] is a part of a section with a place in it. Each call either answers the field that
//! begins at the place and moves past it, or answers the one [`Fault`] and leaves the cut as it
//! was. What the value, the new place and the fault are is a definition of `specs/Reading.antt`.
//! A [`Fault`] is a cause and a place; in words it is shown by `Display`.
#![tactic(auto)]

mod address;
mod byte_order;
mod cursor;
mod fault_code;
mod fault_message;
mod leb128;

pub use address::wrap_address;
pub use byte_order::Order;
pub use cursor::{Cut, Length};
pub use fault_code::{Code, Fault, renamed};
