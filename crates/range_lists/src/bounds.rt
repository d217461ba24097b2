//! Ranges of addresses.

/// The addresses from `low` up to `high`, which isn't one of them. Where a sum has wrapped, `low` may
/// be above `high`.
#[derive(Clone, Copy, Debug, PartialEq, Eq)]
pub struct Range {
    /// The first address.
    pub low: u64,
    /// The address behind the last one.
    pub high: u64,
}
