//! A pass: what one caller knows of a table.
ghost use Rattle.std.specs.Prelude.{◌≡◌, length};
ghost use Rattle.map_core.specs.Calls.{own};
ghost use Rattle.map_core.specs.Passes.{AtRest, PassFacts};

use crate::about::Facts;
use atomic_table::Seat;
use map_core::View;
use std::marker::{Model, PhantomData};

/// What one caller knows of a table. It belongs to one caller at a time, and may be sent to another thread.
///
/// `entries` is how many entries it has counted, `count_seen` the greatest count that it has seen, and `generation` the
/// last generation that it has seen current. The padding keeps passes that lie side by side, each written by its own thread, on cache lines of their own.
#[derive(Drop)]
pub struct Pass<F: Facts> {
    pub(crate) seat: Seat<(), View>,
    pub(crate) number: u32,
    pub(crate) spare: u32,
    pub(crate) entries: u64,
    pub(crate) count_seen: u64,
    pub(crate) generation: u32,
    pub(crate) padding: [u64; 8],
    pub(crate) facts: PhantomData<F>,
}

impl<F: Facts> Model for Pass<F> {
    ghost use Rattle.map_cells.specs.Seen.{PassView};
    ghost use Rattle.map_cells.specs.PassFields.{FieldsAgree};

    ghost Value = { PassView };

    ghost view = { λ p. record { table = p.seat.table_id; knows = p.seat.me.0 } };

    ghost invariant = { λ p. FieldsAgree F.fits p.seat.me p.number p.spare p.entries p.count_seen
        p.generation };
}

impl<F: Facts> Pass<F> {
    /// The pass's number. The first pass has number 0.
    pub fn number(&self) -> u32
        ensures { result ≡ self.now.knows.number }
    {
        self.number
    }

    /// How many passes may still be split off.
    pub fn spare(&self) -> u32
        ensures { result ≡ self.now.knows.spare }
    {
        self.spare
    }

    /// How many entries the pass, and those joined into it, have placed.
    pub fn placed(&self) -> u64
        requires { AtRest self.now.knows }
        ensures { result ≡ length (own self.now.knows) }
    {
        self.entries
    }

    /// The greatest count of entries that the pass has seen.
    pub fn count_seen(&self) -> u64
        ensures { result ≡ self.now.knows.count_seen }
    {
        self.count_seen
    }

    /// The last generation that the pass has seen current.
    pub fn generation(&self) -> u32
        ensures { result ≡ self.now.knows.generation }
    {
        self.generation
    }

    /// What is true of a pass by itself. It does nothing: a proof learns it by this call.
    pub fn recall(&self)
        ensures { PassFacts F.fits self.now.knows }
    {
        let _ = &self.seat;
    }
}
