//! The debugging information entries of a unit (DWARF 5 sections 2.1 to 2.3 and 7.5.2 to 7.5.4).
//!
//! [`read_unit_into`] gives the entries of a unit to an [`EntrySink`] as they are read, and an [`EntryCursor`]
//! does so a part at a time; an [`EntryBatch`] is such a sink. [`read_entries`] reads all entries of a unit into
//! an arena, [`read_kept_entries`] reads them and keeps the attributes that an [`AttrNames`] names, and
//! [`root_facts`] reads what the unit's first entry says of the unit. All ask a source of declarations, any
//! [`abbrev_decl::Decls`], and their answers are those of the definitions `entries_of` and `facts_of` of
//! `specs/Units.antt`, which know no arena and take each declaration as the first of its code in the unit's
//! table. What they leave of the source and of the counter of steps is part of their contracts.
#![tactic(auto)]

mod arena;
mod attr_names;
mod attributes;
mod batch;
mod cursor;
mod declared;
mod entries;
mod entry;
mod first;
mod laws;
mod remembered;
mod root;
mod root_values;
mod sink;

pub use arena::renew;
pub use attr_names::{AllAttrs, AttrNames};
pub use batch::EntryBatch;
pub use cursor::EntryCursor;
pub use entries::{read_entries, read_kept_entries, read_unit_into};
pub use entry::{Attr, Entry, EntryHead};
pub use first::RootCode;
pub use laws::{entries_tile_the_unit, facts_are_of_the_first_entry};
pub use root::root_facts;
pub use sink::EntrySink;
