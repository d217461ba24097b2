//! Intervals in an order of their own, and the first one that has a number.
//!
//! Intervals may overlap, and the first of them counts (`specs/Intervals.antt`). [`IntervalIndex::build`]
//! lays `n` of them out as at most `2 * n` boundaries in ascending order, in time in the order of
//! `n log n` on any input, and in that of `n` where they ascend; [`IntervalIndex::first`] bisects these
//! and takes no memory. Promised: what it answers is what a walk over the intervals in their order finds.
#![tactic(auto)]

mod boundaries;
mod index;
mod interval;
mod merging;
mod piles;

pub use index::IntervalIndex;
pub use interval::Interval;
