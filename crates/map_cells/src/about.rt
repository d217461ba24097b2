//! What a table is made of: its sizes, and which pairs it may hold.
ghost use Rattle.std.specs.Prelude.{ℕ, List};

use boxcar::tag::{Names, Tag};
use map_core::{Fitting, Layout};
use std::marker::PhantomData;

/// Which pairs of a key and a value a table may hold.
///
/// `tag` reads a list of numbers off a value that the table is lent when it is made. `fits` says by such a list which
/// pairs fit.
pub trait Facts {
    ghost tag: { Self → List ℕ };

    ghost fits: { List ℕ → ℕ → ℕ → Type 0 };
}

/// Facts by which every pair fits.
#[derive(Clone, Copy)]
pub struct AnyPair;

impl Facts for AnyPair {
    ghost use Rattle.std.specs.Prelude.{[]};

    ghost tag = { λ _. [] };

    ghost fits = { λ _ _ _. Unit {0} };
}

/// The sizes of a table, and the tag of its facts.
#[derive(Drop)]
pub struct About {
    pub layout: Layout,
    pub tag: Tag,
}

/// How a tag is read off facts, and which pairs fit by it. It stands for the facts in the laws of `map_core`.
pub struct TagOfFacts<F> {
    facts: PhantomData<F>,
}

impl<F: Facts> Names<F> for TagOfFacts<F> {
    ghost numbers = { F.tag };
}

impl<F: Facts> Fitting for TagOfFacts<F> {
    ghost fits = { F.fits };
}
