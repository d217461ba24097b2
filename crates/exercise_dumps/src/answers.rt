//! The whole of `exercise`: the lines, and what was published.

ghost use Rattle.std.specs.Prelude.{◌≡◌, ◌≤◌, IfOk};
ghost use Rattle.dump_workers.specs.declared.serving.TheConstants.{MOST_WORKERS};
ghost use Rattle.exercise_file.specs.Views.{generated_sections};
ghost use Rattle.exercise_file.specs.declared.generated.TheConstants.{MOST_UNITS};
ghost use Rattle.exercise_dumps.specs.Lines.{exercise_text};
ghost use Rattle.exercise_dumps.specs.Twice.{published_view};

use crate::lines::push_exercise;
use crate::twice::dump_twice;
use dump_workers::Published;
use dw_outside::Gate;
use std::alloc::{AllocError, Global};
use std::thread::Threads;

/// What `exercise` prints, and what its first dump left in the table.
#[derive(Drop)]
pub struct ExerciseText {
    /// The six lines.
    pub text: Vec<u8>,
    /// What the first dump left.
    pub published: Published,
}

/// Makes the file of so many units, dumps it twice with so many workers, and gives the six lines of that. They
/// are the same for every number of workers.
///
/// # Errors
///
/// Where memory runs out.
pub fn exercise_lines<R: Threads + Sync, G: Gate + Sync>(
    rt: &R,
    alloc: Global,
    units: u32,
    workers: u32,
    gate: &G,
) -> Result<ExerciseText, AllocError>
    requires units { units ≤ MOST_UNITS }
    requires some { 1 ≤ workers }
    requires few { workers ≤ MOST_WORKERS }
    ensures text { IfOk result (λ e. e.text.items ≡ exercise_text (generated_sections units)) }
    ensures published { IfOk result (λ e. e.published
        ≡ published_view (generated_sections units) workers) }
{
    let exercise = dump_twice(rt, alloc, units, workers, gate)?;
    let mut text = Vec::new(alloc);
    push_exercise(&mut text, &exercise)?;
    Ok(ExerciseText {
        text,
        published: exercise.published,
    })
}
