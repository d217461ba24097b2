//! Which units are refused.
ghost use Rattle.std.specs.Prelude.{ℕ, List};

use boxcar::tag::Names;
use std::marker::PhantomData;

/// Which units of what is drawn are refused.
///
/// `tag` reads a list of numbers off a value that the draws are lent when they are made. `refuses` says by such a list
/// which units are refused.
pub trait RefusedUnits {
    ghost tag: { Self → List ℕ };

    ghost refuses: { List ℕ → ℕ → Type 0 };
}

/// How a tag is read off a value that says which units are refused.
pub(crate) struct TagOfRefused<U> {
    refused: PhantomData<U>,
}

impl<U: RefusedUnits> Names<U> for TagOfRefused<U> {
    ghost numbers = { U.tag };
}
