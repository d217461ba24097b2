//! What an entry of a list leaves.

/// The base of the entries behind an entry, and what the entry lists, if it lists something.
#[derive(Clone, Copy)]
pub(crate) struct ListStep<T> {
    /// The base.
    pub base: u64,
    /// The range or location.
    pub listed: Option<T>,
}
