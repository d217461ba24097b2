//! The steps that the workers of a dump made.

ghost use Rattle.std.specs.Prelude.{◌≡◌, ◌-◌, ◌^◌, min, sum_by};

use dump_workers::DumpSeat;

/// The sum of the counters of some seats; it stands still at the greatest `u64`.
pub(super) fn steps_of(seats: &[DumpSeat<'_, ()>]) -> u64
    ensures { result ≡ min (sum_by (λ seat. seat.steps) seats.now) (2 ^ 64 - 1) }
{
    let mut sum: u64 = 0;
    for seat in seats {
        sum = sum.saturating_add(seat.steps.count());
    }
    sum
}
