//! Tests of the readers and of the texts of units, over small sections that were written by hand.
//!
//! The clauses of the readers say what each call answers. The tests show what no clause can: that a call
//! succeeds where memory is ample, with the answers of the worked examples. They stand in a crate of their
//! own, so that no reader is proved once more for them.
#![tactic(auto)]

#[cfg(test)]
mod declarations;
#[cfg(test)]
mod entries;
#[cfg(test)]
mod line_tables;
#[cfg(test)]
mod lists;
#[cfg(test)]
mod queries;
#[cfg(test)]
mod sections;
#[cfg(test)]
mod small_file;
#[cfg(test)]
mod unit_texts;
