//! The top call.

ghost use Rattle.std.specs.Prelude.{◌≡◌, ◌<◌, ◌≤◌, ◌⊎◌, [], None, IfSome, IsSome, map};
ghost use Rattle.std.specs.String.{string_bytes};
ghost use Rattle.dw_outside.specs.Faults.{Rose};
ghost use Rattle.dw_outside.specs.Gains.{Gains, GainsPart};
ghost use Rattle.dw_words.specs.Requests.{IsWithinLimits, request_view};
ghost use Rattle.dw_run.specs.Endings.{EndsWith, misunderstood_line, unread_line};
ghost use Rattle.dw_run.specs.FileRequests.{asked_by, file_request_of};
ghost use Rattle.dw_run.specs.Output.{EndsRun, Meets, NothingFailed, StopsWithin, output_of, told_at};

use crate::addresses::Addresses;
use crate::dump::{DumpWords, answer_dump};
use crate::endings::{NO_MEANING, NO_MEMORY, RunEnd, end_with};
use crate::exercise::answer_exercise;
use crate::file_command::answer_on_file;
use crate::queries::Query;
use dw_outside::{Gate, Sink, Source};
use dw_words::{Request, WordsRefusal, read_words};
use std::alloc::Global;
use std::thread::Threads;
use visit_queries::{IsNamed, NamedVisitor, pick};

/// Does what the words after the program's name ask for: reads the file that they name from
/// `source`, and writes the texts of their command to `out` and the line of a refusal to `err`. The
/// first failure of the source or of a sink ends the reading and the writing to `out`. A query is
/// answered by the first of `visitors` that has its name; where none has it, the words have no meaning.
///
/// A dump has as many workers as its words say, in threads of their own where these can be made. The gate
/// is entered before a worker reads a unit and left behind it. The bytes are those of reading unit after
/// unit anew, whatever the number of workers. A whole dump tells how many of the file's keys are in
/// the table of the file's handle. `exercise` reads no file: it makes one in memory, dumps that twice by as
/// many workers, and writes what came of it.
pub fn run<R: Threads + Sync, S: Source, O: Sink, E: Sink, G: Gate + Sync>(
    rt: &R,
    alloc: Global,
    words: &[String],
    source: &mut S,
    out: &mut O,
    err: &mut E,
    visitors: Vec<NamedVisitor>,
    gate: &G,
) -> RunEnd
    ensures answers { result.status ≤ 5 }

    // the defined output, whole, with the statuses 0, 1 and 2
    ensures output { result.status < 3
        → IfSome (output_of (map string_bytes words.now)
        (map ⟦<NamedVisitor as IsNamed>⟧.named visitors.items) (S.holds source.old))
        (λ output. Meets output result.status
        (O.held out.old) (O.held out.new) (E.held err.old) (E.held err.new)) }

    // what a whole dump tells, and else nothing
    ensures told { IfSome (output_of (map string_bytes words.now)
        (map ⟦<NamedVisitor as IsNamed>⟧.named visitors.items) (S.holds source.old))
        (λ output. result.published ≡ told_at result.status output.published) }
    ensures meaningless { result.status ≡ 2 → asked_by (map string_bytes words.now)
        (map ⟦<NamedVisitor as IsNamed>⟧.named visitors.items) ≡ None }

    // each other status has its cause, and leaves nothing or a prefix on `out`
    ensures read { result.status ≡ 3 → Rose (S.faults source.old) (S.faults source.new) }
    ensures unread { result.status ≡ 3 → Gains (O.held out.old) (O.held out.new) []
        × Gains (E.held err.old) (E.held err.new) unread_line }
    ensures written { result.status ≡ 4
        → Rose (O.faults out.old) (O.faults out.new) ⊎ Rose (E.faults err.old) (E.faults err.new) }
    ensures prefix { IfSome (output_of (map string_bytes words.now)
        (map ⟦<NamedVisitor as IsNamed>⟧.named visitors.items) (S.holds source.old))
        (λ output. GainsPart (O.held out.old) (O.held out.new) output.out) }

    // and a prefix of one line on `err`
    ensures stopped { 3 < result.status
        → IfSome (output_of (map string_bytes words.now)
        (map ⟦<NamedVisitor as IsNamed>⟧.named visitors.items) (S.holds source.old))
        (λ output. StopsWithin output.err (S.faults source.old) (S.faults source.new)
        (E.held err.old) (E.held err.new)) }

    // where the words have a meaning and nothing outside failed, the file is answered, or memory
    // was wanted
    ensures complete { IsSome (asked_by (map string_bytes words.now)
        (map ⟦<NamedVisitor as IsNamed>⟧.named visitors.items))
        → NothingFailed (S.faults source.old) (S.faults source.new)
        (O.faults out.old) (O.faults out.new) (E.faults err.old) (E.faults err.new)
        → (result.status < 2) ⊎ (result.status ≡ 5) }
{
    answer_words(rt, alloc, words, source, out, err, visitors, gate)
}

/// Does what the words ask for.
fn answer_words<R: Threads + Sync, S: Source, O: Sink, E: Sink, G: Gate + Sync>(
    rt: &R,
    alloc: Global,
    words: &[String],
    source: &mut S,
    out: &mut O,
    err: &mut E,
    visitors: Vec<NamedVisitor>,
    gate: &G,
) -> RunEnd
    ensures { EndsRun (asked_by (map string_bytes words.now)
        (map ⟦<NamedVisitor as IsNamed>⟧.named visitors.items)) (S.holds source.old)
        result.status result.published
        (O.held out.old) (O.held out.new) (E.held err.old) (E.held err.new)
        (S.faults source.old) (S.faults source.new) (O.faults out.old) (O.faults out.new)
        (E.faults err.old) (E.faults err.new) }
{
    match read_words(alloc, words) {
        Ok(request) => answer(rt, alloc, &request, source, out, err, visitors, gate),
        Err(WordsRefusal::NoMeaning) => RunEnd::of(end_misunderstood(err)),
        Err(WordsRefusal::OutOfMemory) => {
            RunEnd::of(end_with(err, b"dwtool: out of memory\n", NO_MEMORY))
        }
    }
}

/// Answers a request: reads its file, and prints its text.
#[tactic(auto, unfolding(crate::specs::FileRequests::file_request_of))]
fn answer<R: Threads + Sync, S: Source, O: Sink, E: Sink, G: Gate + Sync>(
    rt: &R,
    alloc: Global,
    request: &Request<'_>,
    source: &mut S,
    out: &mut O,
    err: &mut E,
    visitors: Vec<NamedVisitor>,
    gate: &G,
) -> RunEnd
    requires { IsWithinLimits (request_view request.now) }
    ensures { EndsRun (file_request_of (map ⟦<NamedVisitor as IsNamed>⟧.named visitors.items)
        (request_view request.now)) (S.holds source.old) result.status result.published
        (O.held out.old) (O.held out.new) (E.held err.old) (E.held err.new)
        (S.faults source.old) (S.faults source.new) (O.faults out.old) (O.faults out.new)
        (E.faults err.old) (E.faults err.new) }
{
    match request {
        Request::File { command, file } => answer_on_file(alloc, *command, file, source, out, err),
        Request::Dump {
            file,
            workers,
            stats,
        } => {
            let words = DumpWords {
                workers: *workers as u32,
                stats: *stats,
            };
            answer_dump(rt, alloc, words, file, source, out, err, gate)
        }
        Request::Addresses { file, addresses } => {
            let command = Addresses {
                addresses: addresses.as_slice(),
            };
            answer_on_file(alloc, command, file, source, out, err)
        }
        Request::Query { visitor, file } => match pick(visitors, visitor) {
            Some(found) => {
                let query = Query {
                    visitor: found.visitor,
                };
                answer_on_file(alloc, query, file, source, out, err)
            }
            None => RunEnd::of(end_misunderstood(err)),
        },
        Request::Exercise { units, workers } => {
            answer_exercise(rt, alloc, *units as u32, *workers as u32, out, err, gate)
        }
    }
}

/// Ends a run whose words ask for nothing.
fn end_misunderstood<E: Sink>(err: &mut E) -> u8
    ensures { EndsWith misunderstood_line 2 result (E.held err.old) (E.held err.new)
        (E.faults err.old) (E.faults err.new) }
{
    end_with(err, b"dwtool: words not understood\n", NO_MEANING)
}
