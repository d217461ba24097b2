//! Tests of the places of addresses, over the sections of small files.
//!
//! The clauses of `address_lookup` say what each call answers. The tests show what no clause can: that an
//! index is built where memory is ample, with the places of the worked examples.
#![tactic(auto)]

#[cfg(test)]
mod places;
#[cfg(test)]
mod programs;
