//! Units of a file, drawn one by one from shared words by any number of threads.
//!
//! The units stand in windows of 256. Each window has two words in an `atomic_table`. The next-unit word begins as 0. A
//! seat draws from a window by adding 1 to it: the number that it found there is its unit within the window, as long as
//! it is below the window's length. The table's rule says that each number below a next-unit word was drawn once, by
//! one seat. So no unit is drawn twice, and where all seats are joined each unit of a window that has ended was drawn
//! once: these are clauses of `draw` and `join`.
//!
//! The least word begins as the window's length. A seat that met a refused unit lowers it to the unit's number
//! ([`Draws::lower`]), and by a load any seat is told of the least refused unit of a window that was met so far
//! ([`Draws::least`]). By the rule only a refused unit is told. Which units are refused is said by a [`RefusedUnits`].
//!
//! No call but `Draws::new` takes memory, and none waits.
#![tactic(auto)]

mod draws;
mod refused;
mod rule;
mod seat;
mod view;
mod windows;

pub use draws::Draws;
pub use refused::RefusedUnits;
pub use seat::DrawSeat;
pub use view::{AboutDraws, DrawSizes, DrawView, MOST_SEATS};
pub use windows::{WINDOW, count_windows};
