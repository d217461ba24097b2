//! The units of `.debug_info`: the chain of their lengths, and their headers of version 5 (DWARF 5
//! section 7.5.1) and of version 4 (DWARF 4 section 7.5.1.1).
//!
//! [`UnitIndex::read`] follows the chain of lengths from the section's start. [`UnitIndex::header`]
//! answers the header of one unit, or the first refusal in byte order. Which units there are is
//! `unit_chain` of `specs/Links.antt`, and what the header of a unit is, `header_at` of
//! `specs/Headers.antt`.
#![tactic(auto)]

mod chain;
mod header;
mod index;
mod kind;
mod laws;
mod refusal;

pub use chain::UNIT_LIMIT;
pub use header::UnitHeader;
pub use index::UnitIndex;
pub use kind::{Extra, UnitKind};
pub use laws::{header_keeps_its_shape, links_tile_the_section};
pub use refusal::UnitRefusal;
