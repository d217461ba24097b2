//! Tests of a dump by several workers.
//!
//! The clauses of `dump_workers` say which bytes a dump writes, or which unit it refuses, and how many keys of the file
//! the table has then. The tests show what no clause can: that a file is opened and dumped where memory and threads are
//! ample, with one worker, with two, and with more than the file has units; that a second dump makes no step, also one into a sink that fails; that
//! two workers are inside at once; and that units behind a refused one are skipped.
#![tactic(auto)]

#[cfg(test)]
mod dumps;
#[cfg(test)]
mod files;
#[cfg(test)]
mod gates;
#[cfg(test)]
mod seats;
