//! Tests of the draws of units.
//!
//! The clauses of `unit_draws` say that no unit is drawn twice, and that only refused units are told of. The tests show
//! what no clause can: that draws are made where memory is ample, that seats in threads of their own draw each unit,
//! which windows there are, and that a seat is told of the least refused unit that another one met.
#![tactic(auto)]

#[cfg(test)]
mod least;
#[cfg(test)]
mod threads;
#[cfg(test)]
mod windows;
