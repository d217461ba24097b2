//! Texts of units that one worker hands to another, and memory for texts that is handed back.

ghost use Rattle.std.specs.Prelude.{◌≡◌, IfErr, Ok};
ghost use Rattle.elf_sections.specs.Shapes.{SectionsView};
ghost use Rattle.crossbeam_queue.specs.Passes.{IsPassOf};
ghost use Rattle.dump_workers.specs.UnitDumps.{entry_count, unit_dump};

use crossbeam_queue::protocol::Free;
use crossbeam_queue::{Pass, RuledArrayQueue};
use std::alloc::{AllocError, Global};
use std::marker::{Brand, PhantomData};

/// How many texts may be on their way: those of a window.
const PLACES: usize = 256;

/// How often a worker tries to hand a text on while others are in the way. A text that isn't handed on holds up all
/// behind it until the window is read.
const TRIES: usize = 1000;

/// The file that is dumped, as contracts see it. Each dump picks it.
pub(crate) trait DumpedFile {
    ghost sections: { SectionsView };
}

impl DumpedFile for Brand {
    ghost use Rattle.dw_fields.specs.declared.byte_order.Order.TheVariants.{Little};
    ghost use Rattle.elf_sections.specs.Shapes.{no_sections};

    ghost sections = { no_sections Little };
}

/// The text of a unit of the file, and how many entries the unit has.
#[derive(Drop)]
pub(crate) struct UnitText<N: DumpedFile> {
    /// The number of the unit.
    pub unit: u32,
    /// The text.
    pub text: Vec<u8>,
    /// The number of entries.
    pub entries: u32,
    /// The file.
    pub of: PhantomData<N>,
    /// It is the unit's text.
    pub ghost is: { unit_dump N.sections unit ≡ Ok text.items },
    /// The unit has so many entries.
    pub ghost has: { entries ≡ entry_count N.sections unit },
}

/// Texts on their way to the worker that prints, and memory on its way back.
#[derive(Drop)]
pub(crate) struct Hatch<N: DumpedFile> {
    texts: RuledArrayQueue<UnitText<N>, (), Free>,
    buffers: RuledArrayQueue<Vec<u8>, (), Free>,
}

impl<N: DumpedFile> Hatch<N> {
    /// A hatch with nothing in it.
    pub(crate) fn new(alloc: Global) -> Result<Hatch<N>, AllocError> {
        let (texts, _) = RuledArrayQueue::ruled(alloc, PLACES)?;
        let (buffers, _) = RuledArrayQueue::ruled(alloc, PLACES)?;
        Ok(Hatch { texts, buffers })
    }

    /// A place at the hatch.
    pub(crate) fn seat(&self) -> HatchSeat<'_, N> {
        HatchSeat {
            hatch: self,
            texts: self.texts.pass(),
            buffers: self.buffers.pass(),
        }
    }
}

/// What one worker has of a hatch.
#[derive(Drop)]
pub(crate) struct HatchSeat<'q, N: DumpedFile> {
    hatch: &'q Hatch<N>,
    texts: Pass<UnitText<N>, ()>,
    buffers: Pass<Vec<u8>, ()>,
    ghost of_texts: { IsPassOf hatch.now.texts texts },
    ghost of_buffers: { IsPassOf hatch.now.buffers buffers },
}

impl<'q, N: DumpedFile> HatchSeat<'q, N> {
    /// Hands a text on, or gives it back where other workers are in the way at each try.
    pub(crate) fn give(&mut self, text: UnitText<N>) -> Result<(), UnitText<N>>
        ensures { IfErr result (λ back. back ≡ text) }
    {
        let mut left = text;
        'tries: for _ in 0..TRIES {
            match self.hatch.texts.try_push_as::<Free>(&mut self.texts, left) {
                Ok(()) => return Ok(()),
                Err(back) => left = back,
            }
        }
        Err(left)
    }

    /// Takes a text that another worker has handed on.
    pub(crate) fn take(&mut self) -> Option<UnitText<N>> {
        self.hatch.texts.try_pop_as::<Free>(&mut self.texts)
    }

    /// Hands memory back, or lets it go where there is no place for it.
    pub(crate) fn give_buffer(&mut self, buffer: Vec<u8>) {
        let _ = self
            .hatch
            .buffers
            .try_push_as::<Free>(&mut self.buffers, buffer);
    }

    /// Takes memory that was handed back.
    pub(crate) fn take_buffer(&mut self) -> Option<Vec<u8>> {
        self.hatch.buffers.try_pop_as::<Free>(&mut self.buffers)
    }
}
