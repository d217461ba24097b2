//! Moves of the shared table: how its callers together carry the entries of a generation that is three quarters full into
//! the next one.
//!
//! A generation is moved in blocks of 64 cells. Each caller that finds a move due takes blocks that nobody has taken,
//! then goes over each block that isn't finished, so that nobody waits for a caller that has stopped, and then makes the
//! next generation current. A cell's empty key word is sealed, its unset value word closed, and a published pair put into
//! the next generation. A block may be moved twice without harm.
#![tactic(auto)]

mod blocks;
mod moves;

pub use blocks::move_block;
pub use moves::{Helped, help};
