//! Causes with a place.

ghost use Rattle.std.specs.Prelude.{◌≡◌};
ghost use Rattle.form_values.specs.Resolved.{refused_at};

use dw_fields::{Code, Fault};

/// The answer for the value at `place`: a cause is the refusal of that place.
#[inline]
pub fn refused_at<T>(answer: Result<T, Code>, place: u64) -> Result<T, Fault>
    ensures { result ≡ refused_at place answer }
{
    match answer {
        Ok(value) => Ok(value),
        Err(code) => Err(Fault::at(code, place)),
    }
}
