//! The words of the shared table as atomic cells, and the passes that step on them.
//!
//! The words lie in an `atomic_table`, whose rule says that they are the state of the plain machine (`map_core`) after
//! a lawful list of events. Each step call makes exactly one atomic step, a load or one event. A lost exchange is a
//! load. Two walks stand on the steps: one looks a key up, the other puts a pair in. No call but `Cells::new` takes
//! memory, and none waits.
#![tactic(auto)]

mod about;
mod cells;
mod counts;
mod keys;
mod moves;
mod pass;
mod places;
mod plays;
mod values;
mod walks;
mod words;

pub use about::{About, AnyPair, Facts, TagOfFacts};
pub use cells::Cells;
pub use map_core::{Cell, Layout};
pub use pass::Pass;
pub use plays::TheRule;
pub use walks::{Put, SeekEnd};
pub use words::{KeyWord, ValueWord};
