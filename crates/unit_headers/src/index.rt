//! The index of a section's units.

ghost use Rattle.std.specs.Prelude.{◌≡◌, ◌+◌, ◌<◌, ◌≤◌, ◌^◌, length, IfOk};
ghost use Rattle.unit_headers.specs.Links.{LiesIn};
ghost use Rattle.unit_headers.specs.Headers.{HasShape, header_at, linked_header, unit_count};

use crate::chain::{Link, UNIT_LIMIT, read_links};
use crate::header::{UnitHeader, read_header};
use dw_fields::{Cut, Fault, Order};
use std::alloc::{AllocError, Global};
use std::marker::Model;

/// The units of a `.debug_info` section in their order.
#[derive(Drop)]
pub struct UnitIndex<'f> {
    info: &'f [u8],
    order: Order,
    abbrev_length: u64,
    links: Vec<Link>,
}

impl<'f> Model for UnitIndex<'f> {
    ghost use Rattle.std.specs.Prelude.{◌≡◌, ◌<◌, ◌^◌};
    ghost use Rattle.unit_headers.specs.Units.{Units};
    ghost use Rattle.unit_headers.specs.Links.{unit_chain};

    ghost Value = { Units };

    ghost view = { λ x. record {
      info = x.info.now;
      order = x.order;
      abbrev_length = x.abbrev_length;
    } };

    ghost invariant = { λ x. (x.links.items ≡ unit_chain x.info.now x.order)
        × (x.abbrev_length < 2 ^ 32) };
}

impl<'f> UnitIndex<'f> {
    /// Follows the chain of lengths of `info`, whose numbers are in `order`. A link that can't be
    /// followed counts as one last unit. `abbrev_length` is the length of `.debug_abbrev`.
    ///
    /// # Errors
    /// Want of memory.
    pub fn read(
        alloc: Global,
        info: &'f [u8],
        abbrev_length: u64,
        order: Order,
    ) -> Result<UnitIndex<'f>, AllocError>
        requires { abbrev_length < 2 ^ 32 }
        ensures { IfOk result (λ index. index ≡ record {
          info = info.entry.now;
          order = order;
          abbrev_length = abbrev_length;
        }) }
    {
        let links = read_links(alloc, info, order)?;
        Ok(UnitIndex {
            info,
            order,
            abbrev_length,
            links,
        })
    }

    /// The number of units, with the last one that can't be followed.
    #[tactic(auto, using(crate::proofs::UnitLaws::chain_limit), unfolding(crate::specs::Headers::unit_count))]
    pub fn count(&self) -> u32
        ensures count { result ≡ unit_count self.now.info self.now.order }
        ensures limit { result ≤ UNIT_LIMIT + 1 }
    {
        self.links.len() as u32
    }

    /// The header of unit `i`.
    ///
    /// # Errors
    /// The first refusal in byte order. At the unit's first byte: `UnitLimit` at the unit past the
    /// limit, `LengthReserved` and `UnitTruncated` where the chain can't be followed. Else at the
    /// field: `UnitTruncated` where it passes the unit's end, `UnitVersion`, `UnitType`,
    /// `AddressSize`, `AbbrevOutside`.
    #[tactic(auto, using(crate::proofs::UnitLaws::header_met))]
    pub fn header(&self, i: u32) -> Result<UnitHeader, Fault>
        requires { i < unit_count self.now.info self.now.order }
        ensures header { result ≡ header_at self.now.info self.now.order self.now.abbrev_length i }
        ensures shape { IfOk result
            (λ h. HasShape (length self.now.info) self.now.abbrev_length i h) }
    {
        match self.link(i) {
            Link::Whole {
                place,
                body,
                end,
                wide,
            } => read_header(
                Cut::new(self.info, body, end, self.order),
                self.abbrev_length,
                i,
                place,
                wide,
            ),
            Link::Broken(fault) => Err(fault),
        }
    }

    #[tactic(auto, using(crate::proofs::UnitLaws::linked_met, crate::proofs::UnitLaws::linked_inside), unfolding(crate::specs::Headers::unit_count))]
    fn link(&self, i: u32) -> Link
        requires { i < unit_count self.now.info self.now.order }
        ensures header { linked_header self.now.info self.now.order self.now.abbrev_length i result
            ≡ header_at self.now.info self.now.order self.now.abbrev_length i }
        ensures inside { LiesIn (length self.now.info) result }
    {
        self.links[i as usize]
    }
}
