//! What a worker keeps of a unit that it read.

use dw_fields::Fault;

/// What was read of a unit.
#[derive(Drop)]
pub enum UnitRead {
    /// Its text, and how many entries it has.
    Whole {
        /// The text.
        text: Vec<u8>,
        /// The number of entries.
        entries: u32,
    },
    /// Its first fault.
    Refused(Fault),
    /// Nothing: a unit of its window before it is refused.
    Skipped,
    /// Its text, which was handed on.
    Handed,
}

/// A unit that was read.
#[derive(Drop)]
pub struct Reading {
    /// The number of the unit.
    pub unit: u32,
    /// What was read of it.
    pub read: UnitRead,
}
