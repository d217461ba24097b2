//! Abbreviation declarations: reads `.debug_abbrev` (DWARF 5, section 7.5.3).
//!
//! A declaration names the tag of the entries that use its code, says whether they have children,
//! and lists their attributes with their forms. `read_decl` reads the declaration at a place and
//! counts the reading in a `Steps`; `decl_at` reads one again that is known to stand there.
//! `Decls` is what a reader of entries asks for declarations: the answer is the first declaration
//! of a code, walking from its table's start. `Scanner` answers by that walk.
//!
//! Promised: each answer is that of the definitions in `specs/`, which know no table. Nothing here
//! allocates.
#![tactic(auto)]

mod counter;
mod declarations;
mod lookup;
mod pairs;

pub use counter::Steps;
pub use declarations::{Attrs, Decl, decl_at, read_decl};
pub use lookup::{Decls, FindFault, Scanner, first_declaration_is_first};
pub use pairs::{AttrSpec, pairs_end_at_first_zero_pair};
