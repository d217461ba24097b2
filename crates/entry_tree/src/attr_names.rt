//! Which attributes of an entry a reader keeps.

ghost use Rattle.std.specs.Prelude.{◌≡◌, ℕ, Bool};

use abbrev_decl::Attrs;

/// Which attributes are kept when entries are read, by their numbers. The values of the others are
/// read too, and refused as they are, but take no memory.
pub trait AttrNames {
    ghost keeps: { ℕ → Bool };

    /// Whether attributes of this number are kept.
    fn keeps(name: u64) -> bool
        ensures { result ≡ keeps name };

    /// For how many attributes there is to be room at first, in an entry with these pairs; a cursor counts an
    /// entry's attributes so, too. It is a matter of speed alone.
    fn room(pairs: &Attrs<'_>) -> usize;
}

/// Every attribute.
#[derive(Clone, Copy, Debug)]
pub struct AllAttrs;

impl AttrNames for AllAttrs {
    ghost use Rattle.std.specs.Prelude.{true};

    ghost keeps = { λ name. true };

    #[inline(always)]
    fn keeps(_name: u64) -> bool {
        true
    }

    #[inline(always)]
    fn room(pairs: &Attrs<'_>) -> usize {
        pairs.count()
    }
}
