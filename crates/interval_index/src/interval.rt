//! An interval of numbers.

/// The numbers from `low` up to, and without, `high`: none where `high` is not above `low`.
#[derive(Clone, Copy, Debug, PartialEq, Eq)]
pub struct Interval {
    /// The first number of the interval.
    pub low: u64,
    /// The first number behind it.
    pub high: u64,
}
