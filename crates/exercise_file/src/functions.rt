//! The entries behind a unit's root.

ghost use Rattle.std.specs.Prelude.{◌≡◌, ◌<◌, ◌≤◌, ◌++◌, OnOk};
ghost use Rattle.exercise_file.specs.Generated.{base_type, function, functions, low_address as low_address_of, variable};
ghost use Rattle.exercise_file.specs.declared.generated.TheConstants.{MOST_UNITS};

use crate::numbers::{push_eight, push_four};
use std::alloc::AllocError;

/// The address at which a unit begins.
pub(super) fn low_address(unit: u64) -> u64
    requires { unit ≤ MOST_UNITS }
    ensures { result ≡ low_address_of unit }
{
    0x400000 + 0x1000 * unit
}

/// Appends the base type.
#[tactic(auto, unfolding(crate::specs::Generated::base_type))]
pub(super) fn push_base_type(out: &mut Vec<u8>) -> Result<(), AllocError>
    ensures { OnOk result (out.new.items ≡ out.old.items ++ base_type) }
{
    out.push(2)?;
    push_four(out, 4)?;
    out.extend_from_slice(&[4, 5])?;
    Ok(())
}

/// Appends the function with this number, from 0 to 3.
#[tactic(auto, unfolding(crate::specs::Generated::function))]
fn push_function(out: &mut Vec<u8>, unit: u64, number: u8) -> Result<(), AllocError>
    requires few { unit ≤ MOST_UNITS }
    requires four { number < 4 }
    ensures { OnOk result (out.new.items ≡ out.old.items ++ function unit number) }
{
    let k = u64::from(number);
    out.push(3)?;
    push_four(out, 8 + 3 * k)?;
    out.push(10 + number)?;
    push_four(out, 0x25)?;
    push_eight(out, low_address(unit) + 0x100 * k)?;
    push_four(out, 256)?;
    Ok(())
}

/// Appends the four functions.
#[tactic(auto, unfolding(crate::specs::Generated::functions))]
pub(super) fn push_functions(out: &mut Vec<u8>, unit: u64) -> Result<(), AllocError>
    requires { unit ≤ MOST_UNITS }
    ensures { OnOk result (out.new.items ≡ out.old.items ++ functions unit) }
{
    push_function(out, unit, 0)?;
    push_function(out, unit, 1)?;
    push_function(out, unit, 2)?;
    push_function(out, unit, 3)?;
    Ok(())
}

/// Appends the variable.
#[tactic(auto, unfolding(crate::specs::Generated::variable))]
pub(super) fn push_variable(out: &mut Vec<u8>) -> Result<(), AllocError>
    ensures { OnOk result (out.new.items ≡ out.old.items ++ variable) }
{
    out.push(4)?;
    push_four(out, 20)?;
    out.push(20)?;
    push_four(out, 0x25)?;
    Ok(())
}
