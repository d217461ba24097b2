//! Queries over all entries of a file (DWARF 5 sections 2.1 to 2.3): a caller's visitor is shown the
//! entries of each unit in their order, and says when it has seen enough.
//!
//! [`walk`] takes a [`Visitor`], in a box or not, calls it through the trait's meanings alone, appends its
//! report and drops it. What is met in a file is `met_in` of `specs/Shown.antt`: the entries of each unit
//! with their names, or in their place the unit's refusal. What a visitor has seen of it is `seen_by` of
//! `specs/Seen.antt`, and `report_on` its report. [`Functions`], [`Variables`] and [`Types`] keep a line for
//! each named entry of their tags. [`pick`] finds a visitor by its name.
#![tactic(auto)]

mod file_walk;
mod kept_lines;
mod laws;
mod name_attrs;
mod named;
mod named_entries;
mod names;
mod show;
mod tag_visitors;
mod unit_walk;
mod visitor;
mod walk_stop;

pub use file_walk::walk;
pub use laws::entries_are_seen_up_to_enough;
pub use named::{IsNamed, NamedVisitor, pick};
pub use tag_visitors::{Functions, Types, Variables};
pub use visitor::{EntryView, Turn, Visitor};
pub use walk_stop::WalkStop;
