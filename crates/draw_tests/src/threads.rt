//! Seats that draw in threads of their own.
ghost use Rattle.std.specs.Prelude.{◌≡◌, ◌<◌, [], ◌∷◌, ◌++◌, OnOk, IfOk};
ghost use Rattle.unit_draws.specs.Windows.{window_count};
ghost use Rattle.unit_draws.specs.Seats.{occurrences, IsSeatOf};

use crate::least::EveryUnit;
use std::alloc::{AllocError, Global};
use std::process::Abort;
use std::test::Fail;
use std::thread::{Threads, join};
use unit_draws::{DrawSeat, Draws, count_windows};

const UNITS: u32 = 600;

/// A seat, and the units that it drew in their order.
#[derive(Drop)]
struct Worker {
    seat: DrawSeat,
    units: Vec<u32>,
}

type WorkerPair = (Result<Worker, AllocError>, Result<Worker, AllocError>);

impl Worker {
    /// A worker that has drawn nothing.
    fn new(alloc: Global, seat: DrawSeat) -> Worker
        ensures { result.seat ≡ seat }
    {
        Worker {
            seat,
            units: Vec::new(alloc),
        }
    }

    /// Draws what is left of a window.
    fn draw_window(&mut self, draws: &Draws<EveryUnit>, window: u32) -> Result<(), AllocError>
        requires of { IsSeatOf draws.now self.old.seat }
        requires window { window < window_count draws.now.sizes.units }
        requires open { occurrences window self.old.seat.knows.ended ≡ 0 }
        ensures of { IsSeatOf draws.now self.new.seat }
        ensures ended { OnOk result
            (self.new.seat.knows.ended ≡ self.old.seat.knows.ended ++ window ∷ []) }
    {
        while let Some(unit) = draws.draw(&mut self.seat, window) {
            self.units.push(unit)?;
        }
        Ok(())
    }

    /// Draws what is left of each window.
    fn draw_all(mut self, draws: &Draws<EveryUnit>, units: u32) -> Result<Worker, AllocError>
        requires of { IsSeatOf draws.now self.seat }
        requires units { draws.now.sizes.units ≡ units }
        requires open { self.seat.knows.ended ≡ [] }
        ensures { IfOk result (λ w. IsSeatOf draws.now w.seat) }
    {
        for window in 0..count_windows(units) {
            self.draw_window(draws, window)?;
        }
        Ok(self)
    }
}

/// Two workers in two threads.
fn two_workers<R: Threads>(
    rt: &R,
    draws: &Draws<EveryUnit>,
    one: Worker,
    other: Worker,
) -> WorkerPair
    requires first { IsSeatOf draws.now one.seat × (one.seat.knows.ended ≡ []) }
    requires second { IsSeatOf draws.now other.seat × (other.seat.knows.ended ≡ []) }
    requires units { draws.now.sizes.units ≡ UNITS }
    ensures first { IfOk result.0 (λ w. IsSeatOf draws.now w.seat) }
    ensures second { IfOk result.1 (λ w. IsSeatOf draws.now w.seat) }
{
    join(
        rt,
        move || -> Result<Worker, AllocError>
            requires { IsSeatOf draws.now one.seat × (one.seat.knows.ended ≡ [])
                × (draws.now.sizes.units ≡ UNITS) }
            ensures { IfOk result (λ w. IsSeatOf draws.entry.now w.seat) }
        { one.draw_all(draws, UNITS) },
        move || -> Result<Worker, AllocError>
            requires { IsSeatOf draws.now other.seat × (other.seat.knows.ended ≡ [])
                × (draws.now.sizes.units ≡ UNITS) }
            ensures { IfOk result (λ w. IsSeatOf draws.entry.now w.seat) }
        { other.draw_all(draws, UNITS) },
    )
}

/// Takes a worker into another.
fn take_in<R: Abort>(
    rt: &R,
    draws: &Draws<EveryUnit>,
    into: &mut Worker,
    from: Worker,
) -> Result<(), AllocError>
    requires of { IsSeatOf draws.now into.old.seat }
    requires also { IsSeatOf draws.now from.seat }
    ensures { IsSeatOf draws.now into.new.seat }
{
    let Worker { seat, units } = from;
    assert!(rt; seat.number() != 0);
    draws.join(&mut into.seat, seat);
    into.units.extend_from_slice(units.as_slice())
}

/// The units are the numbers below this one, each once.
fn are_each_once<R: Abort>(rt: &R, mut units: Vec<u32>, count: u32) -> Result<(), AllocError> {
    units.sort()?;
    assert_eq!(rt; units.len(), count as usize);
    for (at, &unit) in units.iter().enumerate() {
        assert_eq!(rt; unit as usize, at);
    }
    Ok(())
}

#[test]
fn two_threads_draw_each_unit_once(rt: HostRuntime) -> Result<(), Fail> {
    let alloc = rt.alloc();
    let (draws, mut seat) = Draws::new(alloc, UNITS, 2, &EveryUnit)?;
    let other = Worker::new(alloc, draws.split(&mut seat));
    let one = Worker::new(alloc, seat);
    let (one, other) = two_workers(&rt, &draws, one, other);
    let mut all = one?;
    take_in(&rt, &draws, &mut all, other?)?;
    are_each_once(&rt, all.units, UNITS)?;
    Ok(())
}
