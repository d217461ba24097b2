//! The lists of a unit's entries, made as the entries are taken.

ghost use Rattle.std.specs.Prelude.{◌≡◌, [], Ok, OnOk};
ghost use Rattle.dw_fields.specs.Reading.{IsAddressSize};
ghost use Rattle.elf_sections.specs.Shapes.{sections_view};
ghost use Rattle.entry_tree.specs.Views.{attr_view};
ghost use Rattle.unit_text.specs.Lists.{attr_lists};
ghost use Rattle.unit_text.specs.Pieces.{Writes};
ghost use Rattle.unit_text.specs.UnitStreams.{AddedPiece};
ghost use Rattle.unit_text.specs.UnitView.{unit_view};

use crate::last_lists::LastLists;
use crate::lists::put_list;
use crate::unit::Unit;
use crate::unit_sink::keep_piece;
use dw_fields::Fault;
use dw_text::{keep_whole, push_text};
use entry_tree::{Attr, EntryHead, EntrySink};
use std::alloc::{AllocError, Global};
use std::marker::Model;
use unit_headers::UnitRefusal;

/// The lists of the entries of a unit that were taken so far, or the first refusal among them. Behind a refusal nothing is
/// made.
#[derive(Drop)]
pub(crate) struct ListSink<'s, 'f> {
    alloc: Global,
    unit: Unit<'s, 'f>,
    lists: LastLists<'f>,
    text: Vec<u8>,
    entries: u32,
    place: u64,
    refused: Option<Fault>,
}

impl<'s, 'f> Model for ListSink<'s, 'f> {
    ghost use Rattle.std.specs.Prelude.{◌≡◌};
    ghost use Rattle.dw_fields.specs.Reading.{IsAddressSize};
    ghost use Rattle.elf_sections.specs.Shapes.{sections_view};
    ghost use Rattle.unit_text.specs.UnitStreams.{MadeLists, made_text};
    ghost use Rattle.unit_text.specs.UnitView.{unit_view};

    ghost Value = { MadeLists };

    ghost view = { λ s. record {
      made = record { unit = unit_view s.unit; text = made_text s.text.items s.refused; entries = s.entries };
      place = s.place;
    } };

    ghost invariant = { λ s. IsAddressSize s.unit.header.now.address_size
        × (s.lists ≡ sections_view s.unit.sections.now) };
}

impl<'s, 'f> ListSink<'s, 'f> {
    /// A sink that took no entry yet.
    pub fn new(alloc: Global, unit: Unit<'s, 'f>, lists: LastLists<'f>) -> ListSink<'s, 'f>
        requires size { IsAddressSize unit.header.now.address_size }
        requires sections { lists ≡ sections_view unit.sections.now }
        ensures unit { result.made.unit ≡ unit_view unit.entry }
        ensures text { result.made.text ≡ Ok [] }
    {
        ListSink {
            alloc,
            unit,
            lists,
            text: Vec::new(alloc),
            entries: 0,
            place: 0,
            refused: None,
        }
    }

    /// Appends the text, or answers the first refusal; and gives the lists back that were read last.
    pub fn finish(self, lists: &mut LastLists<'f>, out: &mut Vec<u8>) -> Result<(), UnitRefusal>
        ensures text { Writes result out.old.items out.new.items self.entry.made.text }
        ensures lists { lists.new ≡ self.entry.made.unit.sections }
    {
        let ListSink {
            lists: last,
            text,
            refused,
            ..
        } = self;
        *lists = last;
        match refused {
            None => append_whole(out, &text),
            Some(fault) => Err(UnitRefusal::Refused(fault)),
        }
    }

    /// Appends the list of an attribute, if it has one.
    #[inline(always)]
    fn put_list(&mut self, attr: &Attr<'_>) -> Result<(), AllocError>
        ensures piece { OnOk result (AddedPiece self.old.made self.new.made
            (attr_lists self.old.made.unit self.old.place (attr_view attr.now))) }
        ensures place { OnOk result (self.new.place ≡ self.old.place) }
    {
        if self.refused.is_some() {
            return Ok(());
        }
        let done = put_list(
            &mut self.text,
            self.alloc,
            &mut self.lists,
            &self.unit,
            self.place,
            attr,
        );
        keep_piece(done, &mut self.refused)
    }
}

/// Appends a text, or leaves the list as it was where memory is wanting.
fn append_whole(out: &mut Vec<u8>, text: &[u8]) -> Result<(), UnitRefusal>
    ensures { Writes result out.old.items out.new.items (Ok text.now) }
{
    let before = out.len();
    let done = push_text(out, text);
    Ok(keep_whole(out, before, done)?)
}

impl<'s, 'f> EntrySink<'f> for ListSink<'s, 'f> {
    ghost use Rattle.unit_text.specs.MadeLaws.{added_both, added_none};
    ghost use Rattle.unit_text.specs.UnitStreams.{AddedTexts, BeganLists};
    ghost use Rattle.unit_text.specs.Lists.{entry_lists};

    ghost took = { λ x y es. AddedTexts entry_lists x.made y.made es };

    ghost began = { λ x y e. BeganLists x y e };

    #[inline(always)]
    fn begin(&mut self, head: EntryHead, _room: usize) -> Result<(), AllocError> {
        self.place = head.place;
        Ok(())
    }

    #[inline(always)]
    fn add(&mut self, attr: Attr<'f>) -> Result<(), AllocError> {
        self.put_list(&attr)
    }

    #[inline(always)]
    fn end(&mut self) -> Result<(), AllocError> {
        self.entries = self.entries.wrapping_add(1);
        Ok(())
    }

    ghost nothing = { λ x. added_none entry_lists x.made };

    ghost together = { λ x y z es fs p q.
        added_both entry_lists x.made y.made z.made es fs p q };
}
