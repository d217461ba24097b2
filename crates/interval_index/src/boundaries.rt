//! Intervals laid out as boundaries.

ghost use Rattle.std.specs.Prelude.{◌≡◌, ◌<◌, ◌≤◌, length, IfOk};
ghost use Rattle.std.specs.List.{All};
ghost use Rattle.interval_index.specs.declared.boundaries.Boundary.{Boundary};
ghost use Rattle.interval_index.specs.Boundaries.{AscendsBy, Lays, first_covering};

use crate::interval::Interval;
use crate::merging::merge;
use crate::piles::pile_up;
use std::alloc::{AllocError, Global};

/// From a number on, up to the next boundary, the first interval is this one, or none.
#[derive(Clone, Copy)]
pub(crate) struct Boundary {
    /// The first number.
    pub from: u64,
    /// The number of the interval.
    pub owner: Option<usize>,
}

/// Lays out the intervals with these numbers: a pile of those that lie one behind the other, then the
/// others, and then both in one. What is left behind so many piles is laid out by halves.
pub(crate) fn lay(
    alloc: Global,
    intervals: &[Interval],
    numbers: &[usize],
    piles: u32,
) -> Result<Vec<Boundary>, AllocError>
    requires { All (λ k. k < length intervals.now) numbers.now }
    ensures { IfOk result (λ v. Lays intervals.now numbers.now v.items) }
{
    if numbers.len() < 2 {
        return lay_one(alloc, intervals, numbers);
    }
    if piles == 0 {
        let middle = numbers.len() / 2;
        let first = lay(alloc, intervals, &numbers[..middle], 0)?;
        let second = lay(alloc, intervals, &numbers[middle..], 0)?;
        return merge(alloc, &first, &second);
    }
    let pile = pile_up(alloc, intervals, numbers)?;
    if pile.others.is_empty() {
        return Ok(pile.boundaries);
    }
    let others = lay(alloc, intervals, &pile.others, piles - 1)?;
    merge(alloc, &pile.boundaries, &others)
}

/// Lays out the interval with this number, or none.
fn lay_one(
    alloc: Global,
    intervals: &[Interval],
    numbers: &[usize],
) -> Result<Vec<Boundary>, AllocError>
    requires known { All (λ k. k < length intervals.now) numbers.now }
    requires one { length numbers.now ≤ 1 }
    ensures { IfOk result (λ v. Lays intervals.now numbers.now v.items) }
{
    let mut boundaries = Vec::with_capacity(alloc, 2 * numbers.len())?;
    if let Some(number) = numbers.first() {
        let interval = intervals[*number];
        if interval.low < interval.high {
            boundaries.push(Boundary {
                from: interval.low,
                owner: Some(*number),
            })?;
            boundaries.push(Boundary {
                from: interval.high,
                owner: None,
            })?;
        }
    }
    Ok(boundaries)
}

/// The first interval that has `number`, read off the boundaries.
pub(crate) fn first_covering(boundaries: &[Boundary], number: u64) -> Option<usize>
    requires { AscendsBy (λ (b : Boundary). b.from) 0 boundaries.now }
    ensures { result ≡ first_covering boundaries.now number }
{
    let count = boundaries.partition_point(|boundary| boundary.from <= number);
    if count == 0 {
        None
    } else {
        boundaries[count - 1].owner
    }
}
