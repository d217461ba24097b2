//! Intervals that lie one behind the other, and the others.

ghost use Rattle.std.specs.Prelude.{◌≡◌, ◌<◌, ◌^◌, ◌∷◌, ◌++◌, ℕ, List, [], Some, None, length, IfOk, IfSome, OnOk};
ghost use Rattle.std.specs.List.{All};
ghost use Rattle.interval_index.specs.Intervals.{hides};
ghost use Rattle.interval_index.specs.declared.boundaries.Boundary.{Boundary};
ghost use Rattle.interval_index.specs.Boundaries.{AscendsBy, first_covering};
ghost use Rattle.interval_index.specs.Piles.{IsPile};

use crate::boundaries::{Boundary, first_covering};
use crate::interval::Interval;
use std::alloc::{AllocError, Global};

/// Intervals that lie one behind the other, laid out as boundaries, and the others of those that were
/// added. Sequences of instructions mostly ascend. Those of functions that a linker left out have the
/// addresses of the functions that it kept, or all begin at one address: they are hidden by others.
#[derive(Drop)]
pub(crate) struct Pile {
    pub boundaries: Vec<Boundary>,
    /// The end of the last interval that was laid out.
    pub end: u64,
    /// The numbers of the others. An interval that is hidden is not among them.
    pub others: Vec<usize>,
    /// One of the others with the lowest numbers.
    pub cover: Option<usize>,
}

/// Makes a pile of the intervals with these numbers.
pub(crate) fn pile_up(
    alloc: Global,
    intervals: &[Interval],
    numbers: &[usize],
) -> Result<Pile, AllocError>
    requires { All (λ k. k < length intervals.now) numbers.now }
    ensures { IfOk result (IsPile intervals.now numbers.now) }
{
    let mut pile = Pile::new(alloc, numbers.len())?;
    for place in 0..numbers.len() {
        pile.add(intervals, numbers[place])?;
    }
    Ok(pile)
}

/// Whether one interval has each number of another that stands behind it.
#[inline]
fn hides(intervals: &[Interval], one: usize, other: usize) -> bool
    requires one { one < length intervals.now }
    requires other { other < length intervals.now }
    ensures { result ≡ hides intervals.now one other }
{
    one <= other
        && intervals[one].low <= intervals[other].low
        && intervals[other].high <= intervals[one].high
}

impl Pile {
    /// A pile of no intervals, with room for the boundaries of so many.
    fn new(alloc: Global, count: usize) -> Result<Pile, AllocError>
        requires { count < 2 ^ 63 }
        ensures boundaries { IfOk result (λ p. p.boundaries.items ≡ []) }
        ensures end { IfOk result (λ p. p.end ≡ 0) }
        ensures others { IfOk result (λ p. p.others.items ≡ []) }
        ensures cover { IfOk result (λ p. p.cover ≡ None) }
    {
        let boundaries = Vec::with_capacity(alloc, 2 * count)?;
        Ok(Pile {
            boundaries,
            end: 0,
            others: Vec::new(alloc),
            cover: None,
        })
    }

    /// Adds the interval with this number.
    fn add(&mut self, intervals: &[Interval], number: usize) -> Result<(), AllocError>
        requires number { number < length intervals.now }
        requires cover { IfSome self.old.cover (λ c. c < length intervals.now) }
        requires ascends { AscendsBy (λ (b : Boundary). b.from) 0 self.old.boundaries.items }
        requires owners { (n c : ℕ) → first_covering self.old.boundaries.items n ≡ Some c
            → c < length intervals.now }
        ensures { OnOk result ((done : List ℕ) → IsPile intervals.now done self.old
            → IsPile intervals.now (done ++ number ∷ []) self.new) }
    {
        let interval = intervals[number];
        if interval.high <= interval.low {
            return Ok(());
        }
        if self.end <= interval.low {
            return self.lay_behind(number, interval);
        }
        if let Some(owner) = first_covering(&self.boundaries, interval.low) {
            if hides(intervals, owner, number) {
                return Ok(());
            }
        }
        let Some(cover) = self.cover else {
            return self.leave(number, number);
        };
        if hides(intervals, cover, number) {
            return Ok(());
        }
        if interval.low <= intervals[cover].low {
            return self.leave(number, number);
        }
        self.leave(number, cover)
    }

    /// Lays out an interval behind the others.
    #[inline]
    fn lay_behind(&mut self, number: usize, interval: Interval) -> Result<(), AllocError>
        ensures boundaries { OnOk result (self.new.boundaries.items ≡ self.old.boundaries.items
            ++ record { from = interval.low; owner = Some number }
            ∷ record { from = interval.high; owner = None } ∷ []) }
        ensures end { OnOk result (self.new.end ≡ interval.high) }
        ensures others { self.new.others ≡ self.old.others }
        ensures cover { self.new.cover ≡ self.old.cover }
    {
        self.boundaries.push(Boundary {
            from: interval.low,
            owner: Some(number),
        })?;
        self.boundaries.push(Boundary {
            from: interval.high,
            owner: None,
        })?;
        self.end = interval.high;
        Ok(())
    }

    /// Leaves an interval to the others, of which this one is the cover from now on.
    fn leave(&mut self, number: usize, cover: usize) -> Result<(), AllocError>
        ensures others { OnOk result (self.new.others.items
            ≡ self.old.others.items ++ number ∷ []) }
        ensures boundaries { self.new.boundaries ≡ self.old.boundaries }
        ensures end { self.new.end ≡ self.old.end }
        ensures cover { self.new.cover ≡ Some cover }
    {
        self.cover = Some(cover);
        self.others.push(number)?;
        Ok(())
    }
}
