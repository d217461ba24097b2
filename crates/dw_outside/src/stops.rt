//! Why a read or a write gave nothing.

use std::error::Error;
use std::fmt;

/// Why a [`Source`](super::Source) gave no bytes.
#[derive(Clone, Copy, Debug, PartialEq, Eq, Drop)]
pub enum ReadStop {
    /// The file couldn't be opened or read. The source counted it.
    Failed,
    /// Memory ran out. Nothing was counted.
    OutOfMemory,
}

impl fmt::Display for ReadStop {
    ghost use Rattle.std.specs.Prelude.{Some};
    ghost use Rattle.dw_outside.specs.StopMessages.{read_message};

    ghost output = { λ stop. Some (read_message stop) };

    fn fmt<W: fmt::Write>(&self, f: &mut fmt::Formatter<W>) -> fmt::Result {
        f.write_str(match self {
            ReadStop::Failed => "the file could not be read",
            ReadStop::OutOfMemory => "out of memory",
        })
    }
}

impl Error for ReadStop {}

/// Why a [`Sink`](super::Sink) took no bytes.
#[derive(Clone, Copy, Debug, PartialEq, Eq, Drop)]
pub enum WriteStop {
    /// The bytes couldn't be written. The sink counted it.
    Failed,
    /// Memory ran out. Nothing was counted.
    OutOfMemory,
}

impl fmt::Display for WriteStop {
    ghost use Rattle.std.specs.Prelude.{Some};
    ghost use Rattle.dw_outside.specs.StopMessages.{write_message};

    ghost output = { λ stop. Some (write_message stop) };

    fn fmt<W: fmt::Write>(&self, f: &mut fmt::Formatter<W>) -> fmt::Result {
        f.write_str(match self {
            WriteStop::Failed => "the bytes could not be written",
            WriteStop::OutOfMemory => "out of memory",
        })
    }
}

impl Error for WriteStop {}
