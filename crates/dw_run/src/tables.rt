//! The command `abbrev`: all abbreviation tables.

ghost use Rattle.std.specs.Prelude.{◌<◌, ◌^◌, length};
ghost use Rattle.dw_outside.specs.Faults.{HasCause};
ghost use Rattle.dw_outside.specs.declared.stops.WriteStop.TheVariants as write_stops;
ghost use Rattle.dw_run.specs.Commands.{tables_printed};
ghost use Rattle.dw_run.specs.CommandTexts.{Prints};

use crate::refusals::Refusal;
use dw_outside::{Sink, WriteStop, write_all};
use std::alloc::Global;
use unit_text::write_tables;

/// Writes the text of all abbreviation tables, up to the first fault.
#[tactic(auto, unfolding(crate::specs::Commands::tables_printed))]
pub(crate) fn print_tables<O: Sink>(
    alloc: Global,
    section: &[u8],
    out: &mut O,
) -> Result<Option<Refusal>, WriteStop>
    requires { length section.now < 2 ^ 32 }
    ensures printed { Prints result (tables_printed section.now) (O.held out.old) (O.held out.new) }
    ensures cause { HasCause write_stops.Failed (O.faults out.old) (O.faults out.new) result }
{
    let mut text = Vec::new(alloc);
    let fault = match write_tables(alloc, section, &mut text) {
        Ok(fault) => fault,
        Err(_) => return Err(WriteStop::OutOfMemory),
    };
    write_all(out, text.as_slice())?;
    match fault {
        Some(fault) => Ok(Some(Refusal::Tables(fault))),
        None => Ok(None),
    }
}
