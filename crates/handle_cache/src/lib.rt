//! An opened file, and what its readers share: the declarations that were looked up, and the facts of its
//! units (DWARF 5 sections 7.5.3 and 3.1.1).
//!
//! A [`Handle`] holds the sections of a file, the index of its units, and a table from keys to values that
//! threads share without locks. Each reader has a pass of its own. [`Cached`] finds declarations as a
//! `Scanner` does, and [`Handle::unit`] the facts of a unit as its header and its root tell them: both ask
//! the table first, and put into it what they had to read. Whatever the table holds, the answers are those
//! of scanning the file, which is the definition `scanned` of `specs/Scanned.antt`. Nothing but
//! [`Handle::open`] takes memory.
#![tactic(auto)]

mod cached;
mod cached_walk;
mod facts;
mod handle;
mod laws;
mod table_calls;
mod units;
mod words;

pub use cached::Cached;
pub use cached_walk::CachedWalk;
pub use facts::{FileFacts, HandlePass};
pub use handle::Handle;
