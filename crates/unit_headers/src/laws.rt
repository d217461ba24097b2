//! What the definitions of the chain and of a header say in the format's own words. The functions
//! do nothing: their contracts are the laws.

ghost use Rattle.std.specs.Prelude.{ℕ, length, IfOk};
ghost use Rattle.unit_headers.specs.Headers.{HasShape, header_at};
ghost use Rattle.unit_headers.specs.Links.{Tile, unit_chain};

use dw_fields::Order;

/// The units tile the section: the first begins at its start, each other one where its predecessor
/// ends, and the last ends at the section's end or can't be followed.
#[tactic(auto, using(crate::proofs::UnitLaws::chain_tiles))]
pub fn links_tile_the_section(info: &[u8], order: Order)
    ensures { Tile info.now order 0 0 (unit_chain info.now order) }
{}

/// A header lies in its unit and in the section, and its fields are those of its kind.
#[tactic(auto, using(crate::proofs::UnitLaws::header_shape))]
pub fn header_keeps_its_shape(info: &[u8], order: Order, abbrev_length: u64, i: u32)
    ensures { IfOk (header_at info.now order abbrev_length i)
        (λ h. HasShape (length info.now) abbrev_length i h) }
{}
