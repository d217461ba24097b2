//! What one worker of a dump has.

ghost use Rattle.std.specs.Prelude.{◌≡◌, IfOk};
ghost use Rattle.dump_workers.specs.declared.seat.Work.TheVariants.{Idle, Drawn};

use crate::reading::Reading;
use abbrev_decl::Steps;
use handle_cache::HandlePass;
use std::alloc::{AllocError, Global};
use std::marker::Model;
use std::mem;
use unit_draws::DrawSeat;

/// What a worker holds in a window of a dump.
#[derive(Drop)]
pub(crate) enum Work {
    /// Nothing: no dump goes on, or there was no memory.
    Idle,
    /// The seat that it draws units with.
    Drawing(DrawSeat),
    /// That seat behind the window's end, and what was read of the units that it drew.
    Drawn {
        /// The seat.
        seat: DrawSeat,
        /// What was read, in the order of the drawing.
        readings: Vec<Reading>,
    },
}

/// What one worker of a dump has: its pass over the opened file, and its counter of steps.
#[derive(Drop)]
pub struct DumpSeat<'f, L> {
    /// The worker's pass.
    pub pass: HandlePass<'f>,
    /// The worker's counter.
    pub steps: Steps<L>,
    work: Work,
}

impl<'f, L> Model for DumpSeat<'f, L> {
    ghost use Rattle.dump_workers.specs.Seats.{DumpSeatView};

    ghost Value = { DumpSeatView };

    ghost view = { λ s. record { pass = s.pass; steps = s.steps; work = s.work } };
}

impl<'f, L> DumpSeat<'f, L> {
    /// A seat with this pass and this counter.
    pub fn new(_alloc: Global, pass: HandlePass<'f>, steps: Steps<L>) -> DumpSeat<'f, L>
        ensures pass { result.pass ≡ pass.entry }
        ensures steps { result.steps ≡ steps }
    {
        DumpSeat {
            pass,
            steps,
            work: Work::Idle,
        }
    }

    /// Gives the pass and the counter back.
    pub fn into_parts(self) -> (HandlePass<'f>, Steps<L>)
        ensures pass { result.0 ≡ self.entry.pass }
        ensures steps { result.1 ≡ self.entry.steps }
    {
        (self.pass, self.steps)
    }

    /// Puts other work in the place of the seat's.
    pub(crate) fn change(&mut self, work: Work) -> Work
        ensures result { result ≡ self.old.work }
        ensures new { self.new ≡ record self.old { work = work } }
    {
        mem::replace(&mut self.work, work)
    }

    /// Takes what a worker drew and read, unless it had no memory.
    pub(crate) fn take_drawn(&mut self) -> Result<(DrawSeat, Vec<Reading>), AllocError>
        ensures new { self.new ≡ record self.old { work = Idle } }
        ensures drawn { IfOk result (λ r. self.old.work ≡ Drawn r.0 r.1) }
    {
        match self.change(Work::Idle) {
            Work::Drawn { seat, readings } => Ok((seat, readings)),
            Work::Idle => Err(AllocError),
            Work::Drawing(_) => Err(AllocError),
        }
    }
}
