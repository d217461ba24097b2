//! Why a unit isn't read.

ghost use Rattle.std.specs.Prelude.{◌≡◌};
ghost use Rattle.unit_headers.specs.Kinds.{in_unit};
ghost use Rattle.unit_headers.specs.declared.refusal.UnitRefusal.TheVariants.{OutOfMemory, Refused};

use dw_fields::{Code, Fault, renamed};
use std::alloc::{AllocError, AllocFailed};
use std::error::Error;
use std::fmt;

/// Why a unit isn't read: its bytes are refused, or memory is wanting.
#[derive(Clone, Copy, Debug, PartialEq, Eq)]
pub enum UnitRefusal {
    /// The first of the bytes' faults, by the order of the reader.
    Refused(Fault),
    /// Memory was wanting, which says nothing of the bytes.
    OutOfMemory,
}

/// The answer of a reader in a unit: a field that passes the end is refused as `UnitTruncated`.
#[inline]
pub(crate) fn in_unit<T>(read: Result<T, Fault>) -> Result<T, Fault>
    ensures { result ≡ in_unit read }
{
    renamed(read, Code::Truncated, Code::UnitTruncated)
}

impl From<Fault> for UnitRefusal {
    ghost from_gives = { λ fault e. e ≡ Refused fault };

    fn from(fault: Fault) -> UnitRefusal {
        UnitRefusal::Refused(fault)
    }
}

impl From<AllocError> for UnitRefusal {
    ghost from_gives = { λ _ e. e ≡ OutOfMemory };

    fn from(_: AllocError) -> UnitRefusal {
        UnitRefusal::OutOfMemory
    }
}

impl<T: Drop> From<AllocFailed<T>> for UnitRefusal {
    ghost from_gives = { λ _ e. e ≡ OutOfMemory };

    fn from(_: AllocFailed<T>) -> UnitRefusal {
        UnitRefusal::OutOfMemory
    }
}

impl fmt::Display for UnitRefusal {
    ghost use Rattle.std.specs.Prelude.{Some};
    ghost use Rattle.unit_headers.specs.RefusalMessages.{refusal_message};

    ghost output = { λ e. Some (refusal_message e) };

    fn fmt<W: fmt::Write>(&self, f: &mut fmt::Formatter<W>) -> fmt::Result {
        match self {
            UnitRefusal::Refused(fault) => write!(f, "{}", fault),
            UnitRefusal::OutOfMemory => f.write_str("out of memory"),
        }
    }
}

impl Error for UnitRefusal {}
