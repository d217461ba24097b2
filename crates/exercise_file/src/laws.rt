//! What readers find in the generated file. The functions do nothing: their contracts are the laws.

ghost use Rattle.std.specs.Prelude.{◌≡◌, ◌≤◌, ◌<◌, ◌*◌, ◌↔◌, ℕ, List, Ok, length, true};
ghost use Rattle.dw_fields.specs.declared.byte_order.Order.TheVariants.{Little};
ghost use Rattle.elf_sections.specs.Names.{elf_of};
ghost use Rattle.elf_sections.specs.Shapes.{sections_of};
ghost use Rattle.unit_headers.specs.Headers.{unit_count};
ghost use Rattle.map_core.specs.History.{is_in};
ghost use Rattle.map_core.specs.Passes.{Distinct};
ghost use Rattle.handle_cache.specs.Scanned.{room_for};
ghost use Rattle.dump_workers.specs.FileKeys.{HasSmallCodes, IsFileKey, RefusesNone};
ghost use Rattle.dump_workers.specs.UnitDumps.{file_entries};
ghost use Rattle.built_files.specs.Tables.{table_of_given};
ghost use Rattle.exercise_file.specs.Generated.{generated, generated_file, info};
ghost use Rattle.exercise_file.specs.Keys.{AreAllKeys, generated_key_count, generated_keys};
ghost use Rattle.exercise_file.specs.Views.{generated_sections};
ghost use Rattle.exercise_file.specs.declared.generated.TheConstants.{MOST_UNITS};

/// The file's section table is the sections that were given to the builder, and those with debugging data
/// are found by their names.
#[tactic(auto, using(crate::proofs::FoundSections::table_read, crate::proofs::FoundSections::sections_found))]
pub fn sections_are_found(units: u64)
    requires { units ≤ MOST_UNITS }
    ensures table { elf_of (generated_file units) ≡ Ok (table_of_given (generated units)) }
    ensures sections { sections_of (table_of_given (generated units)) ≡ generated_sections units }
{}

/// There are as many units as were wanted, with seven entries each, and no unit is refused: its header, its
/// root, its entries and all that its text stands for are read without a fault.
#[tactic(auto, using(crate::proofs::Headers::count_read, crate::proofs::Dumps::none_refused, crate::proofs::Dumps::entries_read_whole))]
pub fn nothing_is_refused(units: u64)
    requires { units ≤ MOST_UNITS }
    ensures count { unit_count (info units) Little ≡ units }
    ensures none { RefusesNone (generated_sections units) }
    ensures entries { file_entries (generated_sections units) ≡ 7 * units }
{}

/// The keys that the file uses in the table of its handle are those of a list, each once, and the table
/// has room for more.
#[tactic(auto, using(crate::proofs::Keys::all_keys, crate::proofs::Keys::key_count_is, crate::proofs::Keys::small_codes, crate::proofs::Keys::room_left))]
pub fn room_is_left(units: u64)
    requires { units ≤ MOST_UNITS }
    ensures keys { AreAllKeys units (generated_keys units) }
    ensures count { (keys : List ℕ) → AreAllKeys units keys
        → length keys ≡ generated_key_count units }
    ensures codes { HasSmallCodes (generated_sections units) }
    ensures room { generated_key_count units < room_for (generated_sections units) }
{}
