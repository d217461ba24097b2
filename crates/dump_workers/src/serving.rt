//! Work that is done at each place of a list by threads of its own.

ghost use Rattle.std.specs.Prelude.{◌≡◌, ◌<◌, ◌+◌, ℕ, length, slice_index_or};

use std::thread::{self, Threads};

/// How many workers a dump has at most.
pub const MOST_WORKERS: usize = 64;

/// Work on the elements of a list, each of which is given to one worker.
pub(crate) trait Serves<T> {
    ghost accepts: { Self → ℕ → T → Type 0 };

    ghost gives: { Self → ℕ → T → T → Type 0 };

    /// Does the work on one element, in the worker of this number.
    fn serve(&self, worker: usize, seat: &mut T)
        requires { accepts self.now worker seat.old }
        ensures { gives self.now worker seat.old seat.new };
}

/// Does the work on each element. Where no thread can be made the workers run one after another.
pub(crate) fn serve_each<R: Threads + Sync, T: Send, W: Serves<T> + Sync>(
    rt: &R,
    work: &W,
    seats: &mut [T],
)
    requires { (i : ℕ) (d : T) → i < length seats.old
        → W.Serves.accepts work.now i (slice_index_or seats.old i d) }
    ensures same { length seats.new ≡ length seats.old }
    ensures gives { (i : ℕ) (d : T) → i < length seats.old
        → W.Serves.gives work.now i (slice_index_or seats.old i d)
        (slice_index_or seats.new i d) }
{
    thread::for_each_mut(
        rt,
        seats,
        MOST_WORKERS,
        &|worker: usize, seat: &mut T|
            requires { W.Serves.accepts work.now worker seat.old }
            ensures { W.Serves.gives work.entry.now worker seat.old seat.new }
        { work.serve(worker, seat) },
    );
}

/// Work on one element that is done in the calling thread.
pub(crate) trait Runs<T> {
    ghost ready: { Self → T → Type 0 };

    ghost moves: { Self → Self → Type 0 };

    ghost ran: { Self → T → T → Type 0 };

    /// Does the work.
    fn run(&mut self, seat: &mut T)
        requires { ready self.old seat.old }
        ensures moves { moves self.old self.new }
        ensures ran { ran self.old seat.old seat.new };
}

/// Does the work on the one element of a list.
fn run_first<T, F: Runs<T>>(mine: &mut F, first: &mut [T])
    requires one { length first.old ≡ 1 }
    requires ready { (d : T) → F.ready mine.old (slice_index_or first.old 0 d) }
    ensures same { length first.new ≡ length first.old }
    ensures moves { F.moves mine.old mine.new }
    ensures ran { (d : T) → F.ran mine.old
        (slice_index_or first.old 0 d) (slice_index_or first.new 0 d) }
{
    mine.run(&mut first[0]);
}

/// Does the work on each of the others, in threads of their own, and other work on the first one in this thread beside
/// it. Where no thread can be made this one comes first.
fn serve_two<R: Threads + Sync, T: Send, W: Serves<T> + Sync, F: Runs<T>>(
    rt: &R,
    work: &W,
    others: &mut [T],
    mine: &mut F,
    first: &mut [T],
)
    requires one { length first.old ≡ 1 }
    requires each { (i : ℕ) (d : T) → i < length others.old
        → W.Serves.accepts work.now i (slice_index_or others.old i d) }
    requires ready { (d : T) → F.ready mine.old (slice_index_or first.old 0 d) }
    ensures same { length others.new ≡ length others.old }
    ensures gives { (i : ℕ) (d : T) → i < length others.old
        → W.Serves.gives work.now i (slice_index_or others.old i d)
        (slice_index_or others.new i d) }
    ensures first { length first.new ≡ length first.old }
    ensures moves { F.moves mine.old mine.new }
    ensures ran { (d : T) → F.ran mine.old
        (slice_index_or first.old 0 d) (slice_index_or first.new 0 d) }
{
    thread::join_mut(
        rt,
        &mut || -> ()
            requires { (i : ℕ) (d : T) → i < length others.now
                → W.Serves.accepts work.now i (slice_index_or others.now i d) }
            ensures { (length others.exit.now ≡ length others.entry.now)
                × ((i : ℕ) (d : T) → i < length others.entry.now
                → W.Serves.gives work.entry.now i (slice_index_or others.entry.now i d)
                (slice_index_or others.exit.now i d)) }
        { serve_each(rt, work, others) },
        &mut || -> ()
            requires { (length first.now ≡ 1)
                × ((d : T) → F.ready mine.now (slice_index_or first.now 0 d)) }
            ensures { (length first.exit.now ≡ length first.entry.now)
                × F.moves mine.entry.now mine.exit.now
                × ((d : T) → F.ran mine.entry.now
                (slice_index_or first.entry.now 0 d) (slice_index_or first.exit.now 0 d)) }
        { run_first(mine, first) },
    );
}

/// Does the work on each element but the first, in threads of their own, and other work on the first in this thread
/// beside it.
pub(crate) fn serve_beside<R: Threads + Sync, T: Send, W: Serves<T> + Sync, F: Runs<T>>(
    rt: &R,
    work: &W,
    mine: &mut F,
    seats: &mut [T],
)
    requires some { 0 < length seats.old }
    requires each { (i : ℕ) (d : T) → i + 1 < length seats.old
        → W.Serves.accepts work.now i (slice_index_or seats.old (i + 1) d) }
    requires ready { (d : T) → F.ready mine.old (slice_index_or seats.old 0 d) }
    ensures same { length seats.new ≡ length seats.old }
    ensures gives { (i : ℕ) (d : T) → i + 1 < length seats.old
        → W.Serves.gives work.now i (slice_index_or seats.old (i + 1) d)
        (slice_index_or seats.new (i + 1) d) }
    ensures moves { F.moves mine.old mine.new }
    ensures ran { (d : T) → F.ran mine.old
        (slice_index_or seats.old 0 d) (slice_index_or seats.new 0 d) }
{
    let (first, others) = seats.split_at_mut(1);
    serve_two(rt, work, others, mine, first);
}
