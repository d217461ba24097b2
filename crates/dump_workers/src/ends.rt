//! How a dump ends, and what a whole one tells.

ghost use Rattle.std.specs.Prelude.{◌≡◌};

use dw_fields::Fault;
use std::error::Error;
use std::fmt;
use std::marker::Model;

/// What a dump of all units tells. Only [`crate::dump`] makes one.
#[derive(Debug, Drop)]
pub struct Whole {
    pub(crate) units: u32,
    pub(crate) entries: u64,
    pub(crate) workers: u32,
}

impl Model for Whole {
    ghost use Rattle.dump_workers.specs.Ends.{WholeView};

    ghost Value = { WholeView };

    ghost view = { λ w. record { units = w.units; entries = w.entries; workers = w.workers } };
}

impl Whole {
    /// How many units the file has.
    pub fn units(&self) -> u32
        ensures { result ≡ self.now.units }
    {
        self.units
    }

    /// How many entries they have.
    pub fn entries(&self) -> u64
        ensures { result ≡ self.now.entries }
    {
        self.entries
    }

    /// How many workers read them.
    pub fn workers(&self) -> u32
        ensures { result ≡ self.now.workers }
    {
        self.workers
    }
}

/// What a whole dump left in the table. Only [`published`] makes one.
#[derive(Debug, Drop)]
pub struct Published {
    pub(crate) number: u64,
    pub(crate) units: u32,
    pub(crate) entries: u64,
    pub(crate) workers: u32,
}

impl Model for Published {
    ghost use Rattle.dump_workers.specs.Ends.{PublishedView};

    ghost Value = { PublishedView };

    ghost view = { λ p. record {
      number = p.number;
      units = p.units;
      entries = p.entries;
      workers = p.workers;
    } };
}

impl Published {
    /// How many of the file's keys the table has.
    pub fn number(&self) -> u64
        ensures { result ≡ self.now.number }
    {
        self.number
    }

    /// How many units the file has.
    pub fn units(&self) -> u32
        ensures { result ≡ self.now.units }
    {
        self.units
    }

    /// How many entries they have.
    pub fn entries(&self) -> u64
        ensures { result ≡ self.now.entries }
    {
        self.entries
    }

    /// How many workers read them.
    pub fn workers(&self) -> u32
        ensures { result ≡ self.now.workers }
    {
        self.workers
    }
}

/// A unit that is refused, and why.
#[derive(Clone, Copy, Debug, PartialEq, Eq)]
pub struct RefusedUnit {
    /// The number of the unit.
    pub unit: u32,
    /// Its first fault.
    pub fault: Fault,
}

/// How a dump ended that nothing outside stopped.
#[derive(Debug, Drop)]
pub enum DumpEnd {
    /// All units were written.
    Whole(Whole),
    /// The units before this one were written, and this one is refused.
    Refused {
        /// The number of the unit.
        unit: u32,
        /// Its first fault.
        fault: Fault,
    },
}

/// Why a dump was stopped.
#[derive(Clone, Copy, Debug, PartialEq, Eq)]
pub enum DumpFault {
    /// The sink failed, and counted it.
    WriteFault,
    /// Memory ran out.
    OutOfMemory,
}

impl fmt::Display for DumpFault {
    ghost use Rattle.std.specs.Prelude.{Some};
    ghost use Rattle.dump_workers.specs.Ends.{dump_fault_message};

    ghost output = { λ fault. Some (dump_fault_message fault) };

    fn fmt<W: fmt::Write>(&self, f: &mut fmt::Formatter<W>) -> fmt::Result {
        f.write_str(match self {
            DumpFault::WriteFault => "the text could not be written",
            DumpFault::OutOfMemory => "out of memory",
        })
    }
}

impl Error for DumpFault {}
