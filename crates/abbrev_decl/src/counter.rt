//! A counter of work.

ghost use Rattle.std.specs.Prelude.{◌≡◌, ◌≤◌, ℕ};
ghost use Rattle.abbrev_decl.specs.Counting.{ticked};

use std::marker::Model;

/// Counts how many declarations and roots were read.
///
/// `L` is a type of the caller's choice. A body that is generic in it can't make a second counter,
/// so what it counts stands in the one that it was given. A counter can be sent to another thread
/// where an `L` can.
#[derive(Drop)]
pub struct Steps<L> {
    ledger: L,
    count: u64,
}

impl<L> Model for Steps<L> {
    ghost use Rattle.std.specs.Prelude.{ℕ};

    ghost Value = { ℕ };

    ghost view = { λ s. s.count };
}

impl<L> Steps<L> {
    /// A counter at 0.
    pub fn start(ledger: L) -> Steps<L>
        ensures { result ≡ 0 }
    {
        Steps { ledger, count: 0 }
    }

    /// Counts one more. At the greatest `u64` the counter stands still.
    #[tactic(auto, unfolding(crate::specs::Counting::ticked_by))]
    pub fn tick(&mut self)
        ensures counted { self.new ≡ ticked self.old }
        ensures never_less { self.old ≤ self.new }
    {
        self.count = self.count.saturating_add(1);
    }

    /// How often `tick` was called.
    pub fn count(&self) -> u64
        ensures { result ≡ self.now }
    {
        self.count
    }
}
