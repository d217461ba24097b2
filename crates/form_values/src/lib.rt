//! Attribute values: the forms of the entries and what their values stand for (DWARF 5, sections
//! 7.5.5 and 7.5.6).
//!
//! [`read_value`] reads the value of one attribute by its form and answers it as it stands, a [`Raw`].
//! [`resolve_text`], [`resolve_address`] and [`resolve_list`] then follow an offset or an index in it
//! to the text, the address or the place of a list. The value and every refusal are exact: they are
//! the definitions of `specs/FormTable.antt` and `specs/Resolved.antt`.
#![tactic(auto)]

mod counted;
mod raw;
mod reading;
mod refused;
mod resolution;
mod words;

pub use dw_numbers::form;
pub use raw::{Bases, Raw, UnitFacts, Widths};
pub use reading::{read_form, read_value};
pub use refused::refused_at;
pub use resolution::{resolve_address, resolve_list, resolve_text};
pub use words::text_in;
