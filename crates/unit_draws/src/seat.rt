//! A seat: what one worker draws units with.
ghost use Rattle.std.specs.Prelude.{◌≡◌};

use crate::view::DrawView;
use atomic_table::Seat;
use std::marker::Model;

/// What one worker draws units with. It belongs to one worker at a time, and may be sent to another thread.
#[derive(Drop)]
pub struct DrawSeat {
    pub(crate) seat: Seat<(), DrawView>,
    pub(crate) number: u32,
    pub(crate) spare: u32,
}

impl Model for DrawSeat {
    ghost use Rattle.unit_draws.specs.Seats.{SeatView, SeatHolds};

    ghost Value = { SeatView };

    ghost view = { λ s. record { table = s.seat.table_id; knows = s.seat.me.0 } };

    ghost invariant = { λ s. SeatHolds s.seat.me s.number s.spare };
}

impl DrawSeat {
    /// The seat's number. The first seat has number 0.
    pub fn number(&self) -> u32
        ensures { result ≡ self.now.knows.number }
    {
        self.number
    }

    /// How many seats may still be split off.
    pub fn spare(&self) -> u32
        ensures { result ≡ self.now.knows.spare }
    {
        self.spare
    }
}
