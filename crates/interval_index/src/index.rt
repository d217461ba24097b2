//! Intervals in an order of their own, bisected.

ghost use Rattle.std.specs.Prelude.{◌≡◌, ℕ, IfOk};
ghost use Rattle.std.specs.List.{range_with_len};
ghost use Rattle.interval_index.specs.Intervals.{first_with};
ghost use Rattle.interval_index.specs.Boundaries.{first_covering};

use crate::boundaries::{Boundary, first_covering, lay};
use crate::interval::Interval;
use std::alloc::{AllocError, Global};
use std::marker::Model;

/// How many piles of intervals are made before what is left is laid out by halves.
const PILES: u32 = 4;

/// The numbers from 0 up to, and without, `count`.
fn numbers_below(alloc: Global, count: usize) -> Result<Vec<usize>, AllocError>
    ensures { IfOk result (λ v. v.items ≡ range_with_len 0 count) }
{
    let mut numbers = Vec::with_capacity(alloc, count)?;
    for number in 0..count {
        numbers.push(number)?;
    }
    Ok(numbers)
}

/// Finds, in a list of intervals, the first one that has a number.
///
/// Contracts see it as its boundaries, of which `first_covering` reads the answer.
#[derive(Drop)]
pub struct IntervalIndex {
    boundaries: Vec<Boundary>,
}

impl Model for IntervalIndex {
    ghost use Rattle.std.specs.Prelude.{◌≡◌, List};
    ghost use Rattle.interval_index.specs.declared.boundaries.Boundary.{Boundary};
    ghost use Rattle.interval_index.specs.Boundaries.{AscendsBy};

    ghost Value = { List Boundary };

    ghost view = { λ x. x.boundaries.items };

    ghost invariant = { λ x. AscendsBy (λ (b : Boundary). b.from) 0 x.boundaries.items };
}

impl IntervalIndex {
    /// The index of these intervals, numbered from 0 in their order.
    ///
    /// # Errors
    /// [`AllocError`] for want of memory.
    pub fn build(alloc: Global, intervals: &[Interval]) -> Result<IntervalIndex, AllocError>
        ensures { IfOk result (λ index. (n : ℕ)
            → first_covering index n ≡ first_with intervals.now n) }
    {
        let numbers = numbers_below(alloc, intervals.len())?;
        let boundaries = lay(alloc, intervals, &numbers, PILES)?;
        Ok(IntervalIndex { boundaries })
    }

    /// The number of the first interval that has `number`, or `None` where none has. No memory is
    /// taken.
    pub fn first(&self, number: u64) -> Option<usize>
        ensures { result ≡ first_covering self.now number }
    {
        first_covering(&self.boundaries, number)
    }
}
