//! A table that may hold the pairs of one sum alone.

use map_cells::Facts;

/// A pair fits where the key and the value add up to this sum.
#[derive(Clone, Copy)]
pub(crate) struct PairsOfSum {
    pub sum: u64,
}

impl Facts for PairsOfSum {
    ghost use Rattle.std.specs.Prelude.{◌≡◌, ◌+◌, [], ◌∷◌};

    ghost tag = { λ f. f.sum ∷ [] };

    ghost fits = { λ tag key value. tag ≡ (key + value) ∷ [] };
}
