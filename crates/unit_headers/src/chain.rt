//! The chain of units: each begins where its predecessor ends.

ghost use Rattle.std.specs.Prelude.{◌≡◌, ◌+◌, ◌*◌, ◌<◌, ◌≤◌, length, IfOk};
ghost use Rattle.unit_headers.specs.Links.{LeadsOn, link_at, unit_chain};

use crate::refusal::in_unit;
use dw_fields::{Code, Cut, Fault, Order};
use std::alloc::{AllocError, Global};

/// The number of units that a section may have.
pub const UNIT_LIMIT: u32 = 131_072;

/// A unit of the chain, or why the chain can't be followed there. Places are offsets from the
/// section's start.
#[derive(Clone, Copy, Debug, PartialEq, Eq)]
pub enum Link {
    /// A unit that is whole in the section.
    Whole {
        /// The unit's first byte.
        place: u64,
        /// The first byte behind its length.
        body: u64,
        /// The first byte behind the unit.
        end: u64,
        /// Whether the unit is of the 64-bit format.
        wide: bool,
    },
    /// The refusal of the unit's length, or of a unit past the limit.
    Broken(Fault),
}

/// The unit with this number that begins at `place`.
#[tactic(auto, unfolding(crate::specs::Links::link_at))]
fn read_link(info: &[u8], order: Order, number: u32, place: u64) -> Link
    requires inside { place ≤ length info.now }
    requires counted { number ≤ UNIT_LIMIT }
    ensures link { result ≡ link_at info.now order number place }
    ensures leads { LeadsOn (length info.now) number place result }
{
    if number == UNIT_LIMIT {
        return Link::Broken(Fault::at(Code::UnitLimit, place));
    }
    let end = info.len() as u64;
    let mut cut = Cut::new(info, place, end, order);
    match in_unit(cut.length()) {
        Ok(length) => {
            let body = cut.place();
            if length.value > end - body {
                return Link::Broken(Fault::at(Code::UnitTruncated, place));
            }
            Link::Whole {
                place,
                body,
                end: body + length.value,
                wide: length.wide,
            }
        }
        Err(fault) => Link::Broken(fault),
    }
}

/// All units of the section, up to the first link that can't be followed.
pub(crate) fn read_links(alloc: Global, info: &[u8], order: Order) -> Result<Vec<Link>, AllocError>
    ensures { IfOk result (λ links. links.items ≡ unit_chain info.now order) }
{
    let length = info.len() as u64;
    let mut links = Vec::new(alloc);
    let mut place: u64 = 0;
    let mut number: u32 = 0;
    'chain: while place < length {
        let link = read_link(info, order, number, place);
        links.push(link)?;
        match link {
            Link::Whole { end, .. } => {
                place = end;
                number += 1;
            }
            Link::Broken(_) => return Ok(links),
        }
    }
    Ok(links)
}
