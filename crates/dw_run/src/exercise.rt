//! The command `exercise`: a generated file, dumped twice.

ghost use Rattle.std.specs.Prelude.{◌≡◌, ℕ, List, Option, Some};
ghost use Rattle.dw_words.specs.GivenWords.{AreFewWorkers};
ghost use Rattle.dw_words.specs.Requests.{AreFewUnits};
ghost use Rattle.exercise_file.specs.Views.{generated_sections};
ghost use Rattle.dw_run.specs.CommandTexts.{whole};
ghost use Rattle.dw_run.specs.DumpTexts.{sections_tell};
ghost use Rattle.dw_run.specs.ExerciseTexts.{exercise_printed};
ghost use Rattle.dw_run.specs.FileRequests.{exercised};
ghost use Rattle.dw_run.specs.Output.{Ends, EndsRun, told_at};

use crate::endings::{DONE, RunEnd, end_stopped};
use dw_outside::{Gate, Sink, WriteStop, write_all};
use exercise_dumps::{ExerciseText, exercise_lines};
use std::alloc::Global;
use std::thread::Threads;

/// Makes the file of so many units, dumps it twice with so many workers, prints the lines of that, and ends
/// the run.
pub(crate) fn answer_exercise<R: Threads + Sync, O: Sink, E: Sink, G: Gate + Sync>(
    rt: &R,
    alloc: Global,
    units: u32,
    workers: u32,
    out: &mut O,
    err: &mut E,
    gate: &G,
) -> RunEnd
    requires units { AreFewUnits units }
    requires workers { AreFewWorkers workers }
    ensures { (holds : List ℕ → Option (List ℕ)) (source : ℕ)
        → EndsRun (Some (exercised units workers)) holds result.status result.published
        (O.held out.old) (O.held out.new) (E.held err.old) (E.held err.new)
        source source (O.faults out.old) (O.faults out.new)
        (E.faults err.old) (E.faults err.new) }
{
    exercise_and_end(rt, alloc, units, workers, out, err, gate)
}

/// The same, by the sections of the generated file.
fn exercise_and_end<R: Threads + Sync, O: Sink, E: Sink, G: Gate + Sync>(
    rt: &R,
    alloc: Global,
    units: u32,
    workers: u32,
    out: &mut O,
    err: &mut E,
    gate: &G,
) -> RunEnd
    requires units { AreFewUnits units }
    requires workers { AreFewWorkers workers }
    ensures ends { Ends (exercise_printed (generated_sections units)) result.status
        (O.held out.old) (O.held out.new) (E.held err.old) (E.held err.new)
        (O.faults out.old) (O.faults out.new) (E.faults err.old) (E.faults err.new) }
    ensures told { result.published
        ≡ told_at result.status (Some (sections_tell workers (generated_sections units))) }
{
    match exercise_lines(rt, alloc, units, workers, gate) {
        Ok(exercise) => print_exercise(exercise, out, err),
        Err(_) => RunEnd::of(end_stopped(err, WriteStop::OutOfMemory)),
    }
}

/// Prints the lines, and ends the run.
fn print_exercise<O: Sink, E: Sink>(exercise: ExerciseText, out: &mut O, err: &mut E) -> RunEnd
    ensures ends { Ends (whole exercise.text.items) result.status
        (O.held out.old) (O.held out.new) (E.held err.old) (E.held err.new)
        (O.faults out.old) (O.faults out.new) (E.faults err.old) (E.faults err.new) }
    ensures told { result.published ≡ told_at result.status (Some exercise.published) }
{
    match write_all(out, exercise.text.as_slice()) {
        Ok(()) => RunEnd {
            status: DONE,
            published: Some(exercise.published),
        },
        Err(stop) => RunEnd::of(end_stopped(err, stop)),
    }
}
