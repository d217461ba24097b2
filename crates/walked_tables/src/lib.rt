//! Tables of abbreviation declarations that are walked once for many codes (DWARF 5, section 7.5.3).
//!
//! A `Scanner` walks from a table's start each time. A [`TableWalker`] goes on where its last walk in the
//! same table ended: it keeps the places of the declarations that it passed, as long as their codes are 1,
//! 2, 3 and so on.
//!
//! Promised: each answer is the first declaration of the code, as `first_declaration` of `abbrev_decl`
//! gives it, in whatever order codes and tables are asked for. It allocates the places that it keeps; where
//! there is no memory for them it answers the same and walks farther.
#![tactic(auto)]

mod table_walker;

pub use table_walker::TableWalker;
