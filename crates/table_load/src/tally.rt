//! Counts of what calls answered.

use share_map::{Full, Kept};

/// How many inserts placed their pair, found a value or found no room; how many finds hit or missed, and the sum of
/// the values that they found.
#[derive(Clone, Copy)]
pub(crate) struct Tally {
    pub placed: u64,
    pub found: u64,
    pub full: u64,
    pub hits: u64,
    pub missing: u64,
    pub sum: u64,
}

impl Tally {
    pub fn new() -> Tally {
        Tally {
            placed: 0,
            found: 0,
            full: 0,
            hits: 0,
            missing: 0,
            sum: 0,
        }
    }

    #[inline]
    pub fn note_insert(&mut self, answer: Result<Kept, Full>) {
        match answer {
            Ok(Kept::Placed) => self.placed = self.placed.wrapping_add(1),
            Ok(Kept::Found(_)) => self.found = self.found.wrapping_add(1),
            Err(_) => self.full = self.full.wrapping_add(1),
        }
    }

    #[inline]
    pub fn note_find(&mut self, answer: Option<u64>) {
        match answer {
            Some(value) => {
                self.hits = self.hits.wrapping_add(1);
                self.sum = self.sum.wrapping_add(value);
            }
            None => self.missing = self.missing.wrapping_add(1),
        }
    }

    pub fn add(&mut self, other: Tally) {
        self.placed = self.placed.wrapping_add(other.placed);
        self.found = self.found.wrapping_add(other.found);
        self.full = self.full.wrapping_add(other.full);
        self.hits = self.hits.wrapping_add(other.hits);
        self.missing = self.missing.wrapping_add(other.missing);
        self.sum = self.sum.wrapping_add(other.sum);
    }
}
