//! What the lines of the generated file are. The function does nothing: its contract is the law.

ghost use Rattle.std.specs.Prelude.{◌≡◌, ◌≤◌, ◌*◌, ◌++◌, length, true};
ghost use Rattle.dump_workers.specs.Dumps.{dump_of};
ghost use Rattle.exercise_file.specs.Keys.{generated_key_count};
ghost use Rattle.exercise_file.specs.Views.{generated_sections};
ghost use Rattle.exercise_file.specs.declared.generated.TheConstants.{MOST_UNITS};
ghost use Rattle.exercise_dumps.specs.Lines.{exercise_text, file_lines, table_lines};

/// The lines of the generated file: its units, seven entries for each of them, the bytes of its text, four keys for
/// each table of declarations and eight for each unit, no step again, and that the texts are equal.
#[tactic(auto, using(crate::proofs::Generated::lines_generated))]
pub fn lines_are_those_of_the_units(units: u64)
    requires { units ≤ MOST_UNITS }
    ensures { exercise_text (generated_sections units)
        ≡ file_lines units (7 * units) (length (dump_of (generated_sections units)).text)
        ++ table_lines (generated_key_count units) 0 true }
{}
