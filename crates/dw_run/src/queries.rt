//! The command `query`: the report of a visitor on all entries of a file.

ghost use Rattle.dw_outside.specs.Faults.{HasCause};
ghost use Rattle.dw_outside.specs.declared.stops.WriteStop.TheVariants as write_stops;
ghost use Rattle.handle_cache.specs.Handles.{sections_in};
ghost use Rattle.visit_queries.specs.Seen.{Walks, report_on};
ghost use Rattle.visit_queries.specs.Shown.{met_in};
ghost use Rattle.dw_run.specs.CommandTexts.{Prints};
ghost use Rattle.dw_run.specs.Queries.{query_printed};

use crate::file_command::FileCommand;
use crate::opened::{OpenedCommand, open_and_print};
use crate::refusals::Refusal;
use abbrev_decl::Steps;
use dw_outside::{Sink, WriteStop, write_all};
use handle_cache::{Handle, HandlePass};
use std::alloc::Global;
use visit_queries::{Visitor, WalkStop, walk};
use walked_tables::TableWalker;

/// The report of a visitor.
#[derive(Drop)]
pub(crate) struct Query {
    pub visitor: Box<dyn Visitor>,
}

impl FileCommand for Query {
    ghost use Rattle.dw_run.specs.Commands.{text_of_sections};
    ghost use Rattle.dw_run.specs.Queries.{query_printed};

    ghost text = { λ q. text_of_sections (query_printed (record {
      state = (Visitor-box q.visitor).state q.visitor.value;
      step = (Visitor-box q.visitor).step q.visitor.value;
      text = (Visitor-box q.visitor).text q.visitor.value;
    })) };

    fn print<O: Sink>(
        self,
        alloc: Global,
        file: &[u8],
        out: &mut O,
    ) -> Result<Option<Refusal>, WriteStop> {
        open_and_print(alloc, self, file, out)
    }
}

impl OpenedCommand for Query {
    ghost use Rattle.dw_run.specs.Queries.{query_printed};

    ghost text = { λ q. query_printed (record {
      state = (Visitor-box q.visitor).state q.visitor.value;
      step = (Visitor-box q.visitor).step q.visitor.value;
      text = (Visitor-box q.visitor).text q.visitor.value;
    }) };

    fn print_opened<'f, O: Sink>(
        self,
        alloc: Global,
        handle: &Handle<'f>,
        _pass: &mut HandlePass<'f>,
        out: &mut O,
    ) -> Result<Option<Refusal>, WriteStop> {
        print_report(alloc, self.visitor, handle, out)
    }
}

/// Writes the report of a visitor on all entries of an opened file; nothing where a unit is refused that
/// is reached.
fn print_report<V: Visitor, O: Sink>(
    alloc: Global,
    visitor: V,
    handle: &Handle<'_>,
    out: &mut O,
) -> Result<Option<Refusal>, WriteStop>
    ensures printed { Prints result (query_printed
        (record { state = V.state visitor; step = V.step visitor; text = V.text visitor })
        (sections_in handle.now)) (O.held out.old) (O.held out.new) }
    ensures cause { HasCause write_stops.Failed (O.faults out.old) (O.faults out.new) result }
{
    let mut text = Vec::new(alloc);
    match write_report(alloc, visitor, handle, &mut text) {
        Ok(()) => match write_all(out, text.as_slice()) {
            Ok(()) => Ok(None),
            Err(stop) => Err(stop),
        },
        Err(WalkStop::Refused { unit, fault }) => Ok(Some(Refusal::Unit { unit, fault })),
        Err(WalkStop::OutOfMemory) => Err(WriteStop::OutOfMemory),
    }
}

/// Appends the report of a visitor. The file is read once, unit after unit, so no declaration is put into
/// the shared table: each is passed once on the way.
fn write_report<V: Visitor>(
    alloc: Global,
    visitor: V,
    handle: &Handle<'_>,
    text: &mut Vec<u8>,
) -> Result<(), WalkStop>
    ensures { Walks result text.old.items text.new.items (report_on
        (record { state = V.state visitor; step = V.step visitor; text = V.text visitor })
        (met_in (sections_in handle.entry.now))) }
{
    let mut steps = Steps::start(());
    let sections = handle.sections();
    let mut walker = TableWalker::new(alloc, sections.abbrev);
    walk(
        alloc,
        sections,
        handle.index(),
        &mut walker,
        visitor,
        text,
        &mut steps,
    )
}
