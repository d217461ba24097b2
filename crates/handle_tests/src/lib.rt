//! Tests of an opened file: declarations and the facts of units, as its readers find and share them.
//!
//! The clauses of `handle_cache` say what each call answers, and what it may put into the table. The tests
//! show what no clause can: that a file is opened and its declarations are found where memory is ample,
//! with the steps and the entries of the worked examples, and that two threads over one file find what
//! either has placed.
#![tactic(auto)]

#[cfg(test)]
mod declarations;
#[cfg(test)]
mod files;
#[cfg(test)]
mod readers;
#[cfg(test)]
mod threads;
#[cfg(test)]
mod units;
