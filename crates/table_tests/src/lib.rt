//! Tests of the shared table, by the calls of `map_cells` and `share_map`.
//!
//! The clauses of these calls say what each answers. The tests show what no clause can: that a table is made where
//! memory is ample, that the answers on one thread are those of a plain map, and that threads which put the same keys
//! in agree. A test is proved safe like any function, and what it needs of a pass from step to step stands in
//! `specs/States.antt`.
#![tactic(auto)]

#[cfg(test)]
mod calls;
#[cfg(test)]
mod chains;
#[cfg(test)]
mod four_threads;
#[cfg(test)]
mod growth;
#[cfg(test)]
mod hand_steps;
#[cfg(test)]
mod plain_map;
#[cfg(test)]
mod sealed_cells;
#[cfg(test)]
mod start;
#[cfg(test)]
mod steps;
#[cfg(test)]
mod stopped_helpers;
#[cfg(test)]
mod sum_pairs;
#[cfg(test)]
mod table_calls;
