//! Names of tags, attributes and forms (DWARF 5 sections 7.5.3, 7.5.4 and 7.5.6), without the
//! standard's prefixes.
//!
//! Each table is one definition, and its call gives the name beside a number exactly. The appending
//! calls print a number without a name as `0x` and its hexadecimal digits.
#![tactic(auto)]

mod attributes;
mod forms;
mod rows;
mod tags;
mod texts;

pub use attributes::{attribute_name, prepend_attribute_after};
pub use forms::form_name;
pub use tags::{prepend_tag_after, tag_name};
pub use texts::{push_attribute_after, push_form_after, push_tag_after};
