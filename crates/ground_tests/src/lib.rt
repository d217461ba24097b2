//! Tests of the crates that the others stand on: texts, names, sources and sinks, string tables, indexes of intervals and
//! of rows. They lie here, and not inside, since a crate with tests inside is proved twice.
#![tactic(auto)]

#[cfg(test)]
mod intervals;
#[cfg(test)]
mod memory;
#[cfg(test)]
mod names;
#[cfg(test)]
mod real_files;
#[cfg(test)]
mod rows;
#[cfg(test)]
mod strings;
#[cfg(test)]
mod texts;
