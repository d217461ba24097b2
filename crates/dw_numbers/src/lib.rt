//! Numbers of DWARF's own that code and definitions name: the forms, and those attributes and tags
//! that mean something to a reader of entries (DWARF 5, section 7.5, tables 7.3, 7.5 and 7.6).
//!
//! Each stands here once, and clauses cite it from here. The names that texts show are tables of
//! another crate.
#![tactic(auto)]

pub mod attribute;
pub mod form;
pub mod tag;
