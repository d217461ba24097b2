//! One entry of a table's history.

/// A successful insert: the number of the pass that made it, the key and the value.
pub struct Entry {
    pub who: u32,
    pub key: u64,
    pub value: u64,
}
