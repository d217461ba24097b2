//! The arena in which the entries of one unit at a time lie.

use bumpalo::Bump;
use std::alloc::Global;

/// Gives up what lies in the arena; a refused reset is answered by a new arena.
pub fn renew(alloc: Global, arena: &mut Bump) {
    if arena.reset().is_err() {
        *arena = Bump::new(alloc);
    }
}
