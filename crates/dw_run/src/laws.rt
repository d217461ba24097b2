//! What the definition of the text of units says in the format's own words. The function does
//! nothing: its contract is the law.

ghost use Rattle.std.specs.Prelude.{◌≡◌, ℕ, List, Result};
ghost use Rattle.dw_fields.specs.declared.fault_code.Fault.{Fault};
ghost use Rattle.elf_sections.specs.Shapes.{SectionsView};
ghost use Rattle.unit_headers.specs.Headers.{unit_count};
ghost use Rattle.dump_workers.specs.UnitDumps.{unit_dump};
ghost use Rattle.dw_run.specs.DumpTexts.{units_dumped};
ghost use Rattle.dw_run.specs.declared.parts.Part.{Part};
ghost use Rattle.dw_run.specs.FirstRefusal.{TextsBeforeRefusal};
ghost use Rattle.dw_run.specs.CommandTexts.{CommandText, units_printed};
ghost use Rattle.dw_run.specs.Parts.{unit_part, part_of_units};

/// What is printed of units is the texts of the units before the first refused one, in the units'
/// order, and that unit's refusal ends it; or it is the texts of all units, where none is refused.
/// Each command that goes over the units prints so.
#[tactic(auto, using(crate::proofs::FirstRefusalLaws::texts_before, crate::proofs::FirstRefusalLaws::part_before, crate::proofs::FirstRefusalLaws::dump_before))]
pub fn texts_before_the_first_refusal()
    ensures stand { (text : ℕ → Result (List ℕ) Fault) (all : ℕ)
        → TextsBeforeRefusal text all (units_printed text 0 all) }
    ensures only { (text : ℕ → Result (List ℕ) Fault) (all : ℕ) (printed : CommandText)
        → TextsBeforeRefusal text all printed → printed ≡ units_printed text 0 all }
    ensures commands { (part : Part) (s : SectionsView)
        → TextsBeforeRefusal (unit_part part s) (unit_count s.info s.order) (part_of_units part s) }
    ensures dumps { (s : SectionsView)
        → TextsBeforeRefusal (unit_dump s) (unit_count s.info s.order) (units_dumped s) }
{}
