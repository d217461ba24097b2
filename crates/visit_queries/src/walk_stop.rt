//! Why a walk ends without a report.

ghost use Rattle.std.specs.Prelude.{◌≡◌};
ghost use Rattle.visit_queries.specs.Seen.{stop_in};

use dw_fields::Fault;
use std::alloc::AllocError;
use std::error::Error;
use std::fmt;
use unit_headers::UnitRefusal;

/// Why a walk ended without a report.
#[derive(Clone, Copy, Debug, PartialEq, Eq)]
pub enum WalkStop {
    /// A unit is refused that was reached.
    Refused {
        /// The number of the unit.
        unit: u32,
        /// The first fault of the unit.
        fault: Fault,
    },
    /// Memory was wanting, which says nothing of the file.
    OutOfMemory,
}

impl From<AllocError> for WalkStop {
    ghost use Rattle.visit_queries.specs.declared.walk_stop.WalkStop.TheVariants.{OutOfMemory};

    ghost from_gives = { λ _ e. e ≡ OutOfMemory };

    fn from(_: AllocError) -> WalkStop {
        WalkStop::OutOfMemory
    }
}

impl fmt::Display for WalkStop {
    ghost use Rattle.std.specs.Prelude.{Some};
    ghost use Rattle.visit_queries.specs.StopMessages.{stop_message};

    ghost output = { λ stop. Some (stop_message stop) };

    fn fmt<W: fmt::Write>(&self, f: &mut fmt::Formatter<W>) -> fmt::Result {
        match self {
            WalkStop::Refused { unit, fault } => write!(f, "unit {unit}: {fault}"),
            WalkStop::OutOfMemory => f.write_str("out of memory"),
        }
    }
}

impl Error for WalkStop {}

/// What a refusal in a unit makes of a walk.
pub(crate) fn stop_in(unit: u32, refusal: UnitRefusal) -> WalkStop
    ensures { result ≡ stop_in unit refusal }
{
    match refusal {
        UnitRefusal::Refused(fault) => WalkStop::Refused { unit, fault },
        UnitRefusal::OutOfMemory => WalkStop::OutOfMemory,
    }
}
