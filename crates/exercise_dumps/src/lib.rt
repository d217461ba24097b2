//! The generated file, dumped twice by some workers: what `exercise` shows.
//!
//! [`dump_twice`] opens the generated file with twice as many passes as workers, dumps it, joins all passes
//! into the first, splits them off again and dumps it once more. Its clauses say what comes of that for every
//! number of units and of workers: the second dump makes no step, and the two texts are the same.
//! [`push_exercise`] writes the six lines, and [`exercise_lines`] does all of this. What the lines are says
//! [`lines_are_those_of_the_units`].
#![tactic(auto)]

mod answers;
mod laws;
mod lines;
mod once;
mod steps;
mod twice;

pub use answers::{ExerciseText, exercise_lines};
pub use laws::lines_are_those_of_the_units;
pub use lines::push_exercise;
pub use twice::{Exercise, dump_twice};
