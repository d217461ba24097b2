//! The command `addr`: the place of each address, a line each.

ghost use Rattle.std.specs.Prelude.{◌≡◌, ◌++◌, IfOk};
ghost use Rattle.dw_outside.specs.Faults.{HasCause};
ghost use Rattle.dw_outside.specs.declared.stops.WriteStop.TheVariants as write_stops;
ghost use Rattle.handle_cache.specs.Handles.{Belongs, sections_in};
ghost use Rattle.address_lookup.specs.Places.{place_of};
ghost use Rattle.dw_run.specs.AddressLines.{address_line, addresses_printed};
ghost use Rattle.dw_run.specs.CommandTexts.{Prints, Sends};

use crate::address_lines::push_address_line;
use crate::file_command::FileCommand;
use crate::opened::{OpenedCommand, open_and_print};
use crate::refusals::Refusal;
use abbrev_decl::Steps;
use address_lookup::AddressIndex;
use dw_outside::{Sink, WriteStop, write_all};
use handle_cache::{Cached, Handle, HandlePass};
use std::alloc::{AllocError, Global};

/// How long a text of lines may grow before it is written.
const MOST_KEPT: usize = 65536;

/// How many addresses are looked up without sorting the rows: a walk takes less time than a sort.
const FEW: usize = 4;

/// The places of these addresses.
#[derive(Drop)]
pub(crate) struct Addresses<'w> {
    pub addresses: &'w [u64],
}

impl<'w> FileCommand for Addresses<'w> {
    ghost use Rattle.dw_run.specs.AddressLines.{addresses_printed};
    ghost use Rattle.dw_run.specs.Commands.{text_of_sections};

    ghost text = { λ c. text_of_sections (addresses_printed c.addresses.now) };

    fn print<O: Sink>(
        self,
        alloc: Global,
        file: &[u8],
        out: &mut O,
    ) -> Result<Option<Refusal>, WriteStop> {
        open_and_print(alloc, self, file, out)
    }
}

impl<'w> OpenedCommand for Addresses<'w> {
    ghost use Rattle.dw_run.specs.AddressLines.{addresses_printed};

    ghost text = { λ c. addresses_printed c.addresses.now };

    fn print_opened<'f, O: Sink>(
        self,
        alloc: Global,
        handle: &Handle<'f>,
        pass: &mut HandlePass<'f>,
        out: &mut O,
    ) -> Result<Option<Refusal>, WriteStop> {
        match index_of(alloc, handle, pass, self.addresses.len()) {
            Ok(index) => print_lines(alloc, &index, self.addresses, out),
            Err(_) => Err(WriteStop::OutOfMemory),
        }
    }
}

/// The index of an opened file for so many addresses. Declarations are looked up through the pass.
fn index_of<'f>(
    alloc: Global,
    handle: &Handle<'f>,
    pass: &mut HandlePass<'f>,
    count: usize,
) -> Result<AddressIndex<'f>, AllocError>
    requires { Belongs handle.now pass.old }
    ensures { IfOk result (λ index. index ≡ sections_in handle.entry.now) }
{
    let mut steps = Steps::start(());
    let mut cached = Cached { handle, pass };
    let sections = handle.sections();
    if count <= FEW {
        return AddressIndex::build_for_few(
            alloc,
            sections,
            handle.index(),
            &mut cached,
            &mut steps,
        );
    }
    AddressIndex::build(alloc, sections, handle.index(), &mut cached, &mut steps)
}

/// Writes the line of each address.
fn print_lines<O: Sink>(
    alloc: Global,
    index: &AddressIndex<'_>,
    addresses: &[u64],
    out: &mut O,
) -> Result<Option<Refusal>, WriteStop>
    ensures printed { Prints result (addresses_printed addresses.now index.now)
        (O.held out.old) (O.held out.new) }
    ensures cause { HasCause write_stops.Failed (O.faults out.old) (O.faults out.new) result }
{
    let mut text = Vec::new(alloc);
    'addresses: for address in addresses {
        match print_line(index, *address, &mut text, out) {
            Ok(()) => {}
            Err(stop) => return Err(stop),
        }
    }
    match write_all(out, text.as_slice()) {
        Ok(()) => Ok(None),
        Err(stop) => Err(stop),
    }
}

/// Appends the line of an address to the text that is to be written, and writes it where it is long.
fn print_line<O: Sink>(
    index: &AddressIndex<'_>,
    address: u64,
    text: &mut Vec<u8>,
    out: &mut O,
) -> Result<(), WriteStop>
    ensures sent { Sends result (text.old.items ++ address_line (place_of index.now address))
        text.new.items (O.held out.old) (O.held out.new) }
    ensures cause { HasCause write_stops.Failed (O.faults out.old) (O.faults out.new) result }
{
    match push_address_line(text, index.place_of(address)) {
        Ok(()) => send_long(text, out),
        Err(_) => Err(WriteStop::OutOfMemory),
    }
}

/// Writes a text that is long, and clears it.
fn send_long<O: Sink>(text: &mut Vec<u8>, out: &mut O) -> Result<(), WriteStop>
    ensures sent { Sends result text.old.items text.new.items (O.held out.old) (O.held out.new) }
    ensures cause { HasCause write_stops.Failed (O.faults out.old) (O.faults out.new) result }
{
    if text.len() < MOST_KEPT {
        return Ok(());
    }
    match write_all(out, text.as_slice()) {
        Ok(()) => {
            text.clear();
            Ok(())
        }
        Err(stop) => Err(stop),
    }
}
