//! The texts of a window's units go out in the units' order, while other units are still read.

ghost use Rattle.std.specs.Prelude.{◌≡◌, ℕ, List, Option, IfOk, ◌<◌, ◌≤◌, ◌+◌, ◌*◌, ◌-◌, ◌^◌, ◌≢◌, Err, Ok, None, IfSome, IsFalse, IsTrue};
ghost use Rattle.unit_draws.specs.declared.windows.TheConstants.{WINDOW};
ghost use Rattle.unit_headers.specs.Headers.{unit_count};
ghost use Rattle.handle_cache.specs.Handles.{sections_in};
ghost use Rattle.dump_workers.specs.Printers.{GoesOn, Leaves, printing};
ghost use Rattle.dump_workers.specs.Readings.{IsRead};
ghost use Rattle.dump_workers.specs.UnitDumps.{entries_from, entry_count, unit_dump};
ghost use Rattle.dump_workers.specs.Windows.{ReadsWindow};

use crate::desk::Desk;
use crate::ends::{DumpFault, RefusedUnit};
use crate::handing::{DumpedFile, HatchSeat, UnitText};
use crate::printing::{find_reading, print_text};
use crate::reading::{Reading, UnitRead};
use crate::unit::read_anew;
use dw_outside::Sink;
use handle_cache::Handle;
use std::alloc::{AllocError, Global};
use std::marker::{Model, PhantomData};
use unit_draws::WINDOW;
use unit_headers::UnitRefusal;

/// The printing of a window's texts, as far as it has come. What comes before its turn waits.
#[derive(Drop)]
pub(crate) struct Printer<'q, N: DumpedFile> {
    hatch: HatchSeat<'q, N>,
    /// The first unit of the window.
    start: u32,
    /// The unit behind its last one.
    end: u32,
    /// The unit whose text goes out next.
    next: u32,
    /// How many entries the units before it have.
    entries: u64,
    /// Texts whose turn hasn't come.
    pending: Vec<UnitText<N>>,
    /// What stopped the printing.
    fault: Option<DumpFault>,
}

impl<'q, N: DumpedFile> Model for Printer<'q, N> {
    ghost use Rattle.dump_workers.specs.Printers.{IsPrinting, PrinterState};

    ghost Value = { PrinterState };

    ghost view = { λ p. record {
      start = p.start;
      end = p.end;
      next = p.next;
      entries = p.entries;
      fault = p.fault;
    } };

    ghost invariant = { λ p. IsPrinting N.sections p.start p.end p.next p.entries };
}

/// Takes the first text of this unit out of those that wait.
fn take_pending<N: DumpedFile>(pending: &mut Vec<UnitText<N>>, unit: u32) -> Option<UnitText<N>>
    ensures { IfSome result (λ text. text.unit ≡ unit) }
{
    for place in 0..pending.len() {
        if pending[place].unit == unit {
            return Some(pending.swap_remove(place));
        }
    }
    None
}

impl<'q, N: DumpedFile> Printer<'q, N> {
    /// The printing of the texts of these units, before the first one.
    pub(crate) fn new(
        alloc: Global,
        hatch: HatchSeat<'q, N>,
        start: u32,
        end: u32,
        entries: u64,
    ) -> Printer<'q, N>
        requires order { start ≤ end }
        requires room { entries ≤ start * 2 ^ 32 }
        ensures { result ≡ record {
          start = start;
          end = end;
          next = start;
          entries = entries;
          fault = None;
        } }
    {
        Printer {
            hatch,
            start,
            end,
            next: start,
            entries,
            pending: Vec::new(alloc),
            fault: None,
        }
    }

    /// Writes the text of the next unit, which has so many entries.
    fn print<O: Sink>(&mut self, text: &[u8], entries: u32, out: &mut O)
        requires open { self.old.fault ≡ None }
        requires more { self.old.next < self.old.end }
        requires is { unit_dump N.sections self.old.next ≡ Ok text.now }
        requires has { entries ≡ entry_count N.sections self.old.next }
        ensures goes { GoesOn N.sections (printing self.old (O.held out.old) (O.faults out.old))
            (printing self.new (O.held out.new) (O.faults out.new)) }
        ensures next { self.new.fault ≡ None → self.new.next ≡ self.old.next + 1 }
    {
        match print_text(text, out) {
            Ok(()) => {
                self.entries += u64::from(entries);
                self.next += 1;
            }
            Err(fault) => self.fault = Some(fault),
        }
    }

    /// Keeps a text until its turn comes.
    ///
    /// # Errors
    /// Want of memory.
    fn keep(&mut self, text: UnitText<N>) -> Result<(), AllocError>
        ensures { self.new ≡ self.old }
    {
        match self.pending.push(text) {
            Ok(()) => Ok(()),
            Err(_) => Err(AllocError),
        }
    }

    /// Takes the texts that others have handed on.
    ///
    /// # Errors
    /// Want of memory.
    fn fetch(&mut self) -> Result<(), AllocError>
        ensures { self.new ≡ self.old }
    {
        'texts: for _ in 0..WINDOW {
            match self.hatch.take() {
                Some(text) => self.keep(text)?,
                None => return Ok(()),
            }
        }
        Ok(())
    }

    /// Writes the text of the next unit, if it is here; tells whether it was. Its memory goes back.
    fn print_next<O: Sink>(&mut self, out: &mut O) -> bool
        requires more { self.old.next < self.old.end }
        requires open { self.old.fault ≡ None }
        ensures goes { GoesOn N.sections (printing self.old (O.held out.old) (O.faults out.old))
            (printing self.new (O.held out.new) (O.faults out.new)) }
        ensures next { IsTrue result → self.new.fault ≡ None
            → self.new.next ≡ self.old.next + 1 }
        ensures same { IsFalse result → self.new ≡ self.old }
        ensures still { IsFalse result → out.new ≡ out.old }
    {
        let next = self.next;
        match take_pending(&mut self.pending, next) {
            Some(made) => {
                let UnitText { text, entries, .. } = made;
                self.print(text.as_slice(), entries, out);
                self.hatch.give_buffer(text);
                true
            }
            None => false,
        }
    }

    /// Writes the texts whose turn has come.
    fn print_ready<O: Sink>(&mut self, out: &mut O)
        ensures { GoesOn N.sections (printing self.old (O.held out.old) (O.faults out.old))
            (printing self.new (O.held out.new) (O.faults out.new)) }
    {
        'units: for _ in self.next..self.end {
            if self.fault.is_some() || self.next >= self.end || !self.print_next(out) {
                return;
            }
        }
    }

    /// Writes the text of the next unit, which was handed on and isn't here: it is read again.
    fn print_again<O: Sink>(
        &mut self,
        alloc: Global,
        handle: &Handle<'_>,
        out: &mut O,
    ) -> Option<Result<Option<RefusedUnit>, DumpFault>>
        requires more { self.old.next < self.old.end }
        requires open { self.old.fault ≡ None }
        requires name { sections_in handle.now ≡ N.sections }
        requires inside { self.old.end ≤ unit_count N.sections.info N.sections.order }
        ensures goes { result ≡ None → GoesOn N.sections
            (printing self.old (O.held out.old) (O.faults out.old))
            (printing self.new (O.held out.new) (O.faults out.new)) }
        ensures next { result ≡ None → self.new.fault ≡ None
            → self.new.next ≡ self.old.next + 1 }
        ensures ends { IfSome result
            (λ r. Leaves N.sections (printing self.old (O.held out.old) (O.faults out.old))
            None r (O.held out.new) (O.faults out.new)) }
        ensures stops { IfSome result (λ r. r ≢ Ok None) }
    {
        let unit = self.next;
        let mut text = match self.hatch.take_buffer() {
            Some(text) => text,
            None => Vec::new(alloc),
        };
        match read_anew(alloc, handle, unit, &mut text) {
            Ok(entries) => {
                self.print(text.as_slice(), entries, out);
                None
            }
            Err(UnitRefusal::Refused(fault)) => Some(Ok(Some(RefusedUnit { unit, fault }))),
            Err(UnitRefusal::OutOfMemory) => Some(Err(DumpFault::OutOfMemory)),
        }
    }

    /// Writes the text of the next unit of a window that was read, or tells how the printing ends there.
    fn finish_unit<O: Sink>(
        &mut self,
        alloc: Global,
        handle: &Handle<'_>,
        window: u32,
        readings: &[Reading],
        out: &mut O,
    ) -> Option<Result<Option<RefusedUnit>, DumpFault>>
        requires more { self.old.next < self.old.end }
        requires open { self.old.fault ≡ None }
        requires name { sections_in handle.now ≡ N.sections }
        requires from { WINDOW * window ≡ self.old.start }
        requires below { self.old.end ≤ WINDOW * (window + 1) }
        requires inside { self.old.end ≤ unit_count N.sections.info N.sections.order }
        requires reads { ReadsWindow N.sections window readings.now }
        ensures goes { result ≡ None → GoesOn N.sections
            (printing self.old (O.held out.old) (O.faults out.old))
            (printing self.new (O.held out.new) (O.faults out.new)) }
        ensures next { result ≡ None → self.new.fault ≡ None
            → self.new.next ≡ self.old.next + 1 }
        ensures ends { IfSome result
            (λ r. Leaves N.sections (printing self.old (O.held out.old) (O.faults out.old))
            None r (O.held out.new) (O.faults out.new)) }
        ensures stops { IfSome result (λ r. r ≢ Ok None) }
    {
        if self.print_next(out) {
            return None;
        }
        let unit = self.next;
        match find_reading(readings, unit) {
            UnitRead::Whole { text, entries } => {
                self.print(text.as_slice(), *entries, out);
                None
            }
            UnitRead::Handed => self.print_again(alloc, handle, out),
            // the printing ends at the refused unit before it
            UnitRead::Skipped => Some(Ok(None)),
            UnitRead::Refused(fault) => Some(Ok(Some(RefusedUnit {
                unit,
                fault: *fault,
            }))),
        }
    }

    /// Writes the texts that are left of a window that was read, each by one `write_all`, up to the first unit
    /// that is refused.
    ///
    /// # Errors
    /// Those of the sink, and want of memory.
    pub(crate) fn finish<O: Sink>(
        &mut self,
        alloc: Global,
        handle: &Handle<'_>,
        window: u32,
        readings: &[Reading],
        out: &mut O,
    ) -> Result<Option<RefusedUnit>, DumpFault>
        requires name { sections_in handle.now ≡ N.sections }
        requires from { WINDOW * window ≡ self.old.start }
        requires below { self.old.end ≤ WINDOW * (window + 1) }
        requires inside { self.old.end ≤ unit_count N.sections.info N.sections.order }
        requires reads { ReadsWindow N.sections window readings.now }
        ensures rest { Leaves N.sections (printing self.old (O.held out.old) (O.faults out.old))
            self.old.fault result (O.held out.new) (O.faults out.new) }
        ensures entries { result ≡ Ok None → self.new.entries ≡ self.old.entries
            + entries_from N.sections self.old.next (self.old.end - self.old.next) }
        ensures room { result ≡ Ok None → self.new.entries ≤ self.old.end * 2 ^ 32 }
    {
        let fetched = self.fetch();
        if let Some(fault) = self.fault {
            return Err(fault);
        }
        if fetched.is_err() {
            return Err(DumpFault::OutOfMemory);
        }
        'units: for _ in self.next..self.end {
            if let Some(fault) = self.fault {
                return Err(fault);
            }
            if let Some(end) = self.finish_unit(alloc, handle, window, readings, out) {
                return end;
            }
        }
        if let Some(fault) = self.fault {
            return Err(fault);
        }
        Ok(None)
    }

    /// Why nothing more is printed: what stopped the printing, or want of memory elsewhere.
    pub(crate) fn stopped<O: Sink>(&self, out: &mut O) -> DumpFault
        ensures still { out.new ≡ out.old }
        ensures leaves { Leaves N.sections
            (printing self.now (O.held out.old) (O.faults out.old))
            self.now.fault (Err result) (O.held out.new) (O.faults out.new) }
    {
        let _ = &*out;
        match self.fault {
            Some(fault) => fault,
            None => DumpFault::OutOfMemory,
        }
    }

    /// How many entries the units have whose texts went out, and those before the window.
    pub(crate) fn entries(&self) -> u64
        ensures { result ≡ self.now.entries }
    {
        self.entries
    }

    /// Memory that was handed back.
    fn take_buffer(&mut self) -> Option<Vec<u8>>
        ensures { self.new ≡ self.old }
    {
        self.hatch.take_buffer()
    }

    /// Takes the text out of what was read of a unit, and writes the texts whose turn has come.
    ///
    /// # Errors
    /// Want of memory.
    fn hand<O: Sink>(&mut self, reading: Reading, out: &mut O) -> Result<Reading, AllocError>
        requires read { IsRead N.sections reading.unit reading.read }
        ensures unit { IfOk result (λ r. r.unit ≡ reading.unit) }
        ensures read { IfOk result (λ r. IsRead N.sections r.unit r.read) }
        ensures goes { GoesOn N.sections (printing self.old (O.held out.old) (O.faults out.old))
            (printing self.new (O.held out.new) (O.faults out.new)) }
    {
        let Reading { unit, read } = reading;
        let left = match read {
            UnitRead::Whole { text, entries } => {
                self.keep(UnitText {
                    unit,
                    text,
                    entries,
                    of: PhantomData,
                })?;
                UnitRead::Handed
            }
            other => other,
        };
        self.fetch()?;
        self.print_ready(out);
        Ok(Reading { unit, read: left })
    }
}

/// The desk of the worker that prints: the printing, and the sink.
#[derive(Drop)]
pub(crate) struct PrintDesk<'p, 'o, 'q, N: DumpedFile, O: Sink> {
    /// The printing.
    pub printer: &'p mut Printer<'q, N>,
    /// The sink.
    pub out: &'o mut O,
}

impl<'p, 'o, 'q, N: DumpedFile, O: Sink> Desk<N> for PrintDesk<'p, 'o, 'q, N, O> {
    ghost use Rattle.dump_workers.specs.Printers.{GoesOn, goes_same, goes_then, printing};
    ghost use Rattle.std.proofs.Common.{refl, ◌∙◌};

    ghost goes = { λ x y. (y.printer.ghost_name ≡ x.printer.ghost_name)
        × (y.out.ghost_name ≡ x.out.ghost_name)
        × GoesOn N.sections
        (printing x.printer.now (O.Sink.held x.out.now) (O.Sink.faults x.out.now))
        (printing y.printer.now (O.Sink.held y.out.now) (O.Sink.faults y.out.now)) };

    fn buffer(&mut self) -> Option<Vec<u8>> {
        self.printer.take_buffer()
    }

    fn hand(&mut self, reading: Reading) -> Result<Reading, AllocError> {
        self.printer.hand(reading, self.out)
    }

    ghost stays = { λ x. (refl, refl, goes_same N.sections _) };

    ghost together = { λ x y z p q. (
      q.0 ∙ p.0,
      q.1 ∙ p.1,
      goes_then N.sections _ _ _ p.2 q.2,
    ) };
}
