//! The text of a unit's entries, made as they are taken.

ghost use Rattle.std.specs.Prelude.{◌≡◌, ℕ, List, [], None, Ok, IfOk, OnErr, OnOk};
ghost use Rattle.dw_fields.specs.Reading.{IsAddressSize};
ghost use Rattle.entry_tree.specs.Taken.{begun};
ghost use Rattle.entry_tree.specs.Views.{attr_view};
ghost use Rattle.unit_headers.specs.Refusals.{Answers};
ghost use Rattle.unit_text.specs.Pieces.{Puts, Text, joined};
ghost use Rattle.unit_text.specs.UnitStreams.{AddedPiece, made_text};
ghost use Rattle.unit_text.specs.UnitView.{unit_view};
ghost use Rattle.unit_text.specs.Units.{attr_text, entry_line};

use crate::entry_line::push_entry_line;
use crate::pieces::as_put;
use crate::unit::Unit;
use crate::values::put_attr;
use dw_fields::Fault;
use dw_text::LineBuffer;
use entry_tree::{Attr, Entry, EntryHead, EntrySink};
use std::alloc::AllocError;
use std::marker::Model;
use unit_headers::UnitRefusal;

/// The text of the entries of a unit that were taken so far, or the first value among them that can't be resolved. Behind such a
/// value nothing is made.
#[derive(Drop)]
pub(crate) struct UnitSink<'s, 'f> {
    /// The unit.
    pub unit: Unit<'s, 'f>,
    /// The text.
    pub text: Vec<u8>,
    /// A line is made in it.
    pub line: LineBuffer,
    /// How many entries were taken.
    pub entries: u32,
    /// The first value that can't be resolved.
    pub refused: Option<Fault>,
}

impl<'s, 'f> Model for UnitSink<'s, 'f> {
    ghost use Rattle.dw_fields.specs.Reading.{IsAddressSize};
    ghost use Rattle.unit_text.specs.UnitStreams.{Made, made_text};
    ghost use Rattle.unit_text.specs.UnitView.{unit_view};

    ghost Value = { Made };

    ghost view = { λ s. record {
      unit = unit_view s.unit;
      text = made_text s.text.items s.refused;
      entries = s.entries;
    } };

    ghost invariant = { λ s. IsAddressSize s.unit.header.now.address_size };
}

/// Remembers what became of a piece: where it was refused, the text is.
#[inline(always)]
#[tactic(auto, unfolding(crate::specs::Pieces::joined))]
pub(crate) fn keep_piece(
    done: Result<(), UnitRefusal>,
    refused: &mut Option<Fault>,
) -> Result<(), AllocError>
    requires { refused.old ≡ None }
    ensures { (old new : List ℕ) (piece : Text) → Puts done old new piece
        → OnOk result (made_text new refused.new ≡ joined (Ok old) piece) }
{
    match done {
        Ok(()) => Ok(()),
        Err(UnitRefusal::Refused(fault)) => {
            *refused = Some(fault);
            Ok(())
        }
        Err(UnitRefusal::OutOfMemory) => Err(AllocError),
    }
}

impl<'s, 'f> UnitSink<'s, 'f> {
    /// A sink that took no entry yet, whose text goes on behind `text`.
    pub fn new(unit: Unit<'s, 'f>, text: Vec<u8>) -> UnitSink<'s, 'f>
        requires { IsAddressSize unit.header.now.address_size }
        ensures unit { result.unit ≡ unit_view unit.entry }
        ensures text { result.text ≡ Ok text.items }
        ensures entries { result.entries ≡ 0 }
    {
        UnitSink {
            unit,
            text,
            line: LineBuffer::new(),
            entries: 0,
            refused: None,
        }
    }

    /// The text is put in the place of what `out` held, or the first value that can't be resolved is answered.
    pub fn finish(self, out: &mut Vec<u8>) -> Result<u32, UnitRefusal>
        ensures text { Answers (λ count. out.new.items) result self.entry.text }
        ensures empty { OnErr result (out.new.items ≡ []) }
        ensures entries { IfOk result (λ count. count ≡ self.entry.entries) }
    {
        let UnitSink {
            text,
            entries,
            refused,
            ..
        } = self;
        *out = text;
        match refused {
            None => Ok(entries),
            Some(fault) => {
                out.clear();
                Err(UnitRefusal::Refused(fault))
            }
        }
    }

    /// Appends the line of an entry.
    #[inline(always)]
    fn put_line(&mut self, head: EntryHead) -> Result<(), AllocError>
        ensures { OnOk result (AddedPiece self.old self.new
            (Ok (entry_line (begun head)))) }
    {
        if self.refused.is_some() {
            return Ok(());
        }
        let entry = Entry {
            place: head.place,
            depth: head.depth,
            code: head.code,
            tag: head.tag,
            attrs: &[],
        };
        let done = as_put(push_entry_line(&mut self.text, &mut self.line, &entry));
        keep_piece(done, &mut self.refused)
    }

    /// Appends the line of an attribute.
    #[inline(always)]
    fn put_attr(&mut self, attr: &Attr<'_>) -> Result<(), AllocError>
        ensures { OnOk result (AddedPiece self.old self.new
            (attr_text self.old.unit (attr_view attr.now))) }
    {
        if self.refused.is_some() {
            return Ok(());
        }
        let done = put_attr(&mut self.text, &mut self.line, &self.unit, attr);
        keep_piece(done, &mut self.refused)
    }
}

impl<'s, 'f> EntrySink<'f> for UnitSink<'s, 'f> {
    ghost use Rattle.unit_text.specs.MadeLaws.{added_both, added_none};
    ghost use Rattle.unit_text.specs.UnitStreams.{AddedPiece, AddedTexts};
    ghost use Rattle.unit_text.specs.Units.{entry_text};

    ghost took = { λ x y es. AddedTexts entry_text x y es };

    ghost began = { λ x y e. AddedPiece x y (entry_text x.unit e) };

    #[inline(always)]
    fn begin(&mut self, head: EntryHead, _room: usize) -> Result<(), AllocError> {
        self.put_line(head)
    }

    #[inline(always)]
    fn add(&mut self, attr: Attr<'f>) -> Result<(), AllocError> {
        self.put_attr(&attr)
    }

    #[inline(always)]
    fn end(&mut self) -> Result<(), AllocError> {
        self.entries = self.entries.wrapping_add(1);
        Ok(())
    }

    ghost nothing = { λ x. added_none entry_text x };

    ghost together = { λ x y z es fs p q. added_both entry_text x y z es fs p q };
}
