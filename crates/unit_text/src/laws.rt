//! What the definition of the text of abbreviation tables says in the format's own words. The function
//! does nothing: its contract is the law.

ghost use Rattle.std.specs.Prelude.{◌≡◌, ℕ, List, Option, length};
ghost use Rattle.dw_fields.specs.declared.fault_code.Fault.{Fault};
ghost use Rattle.dw_fields.specs.declared.fault_code.Code.TheVariants.{DeclTruncated};
ghost use Rattle.dw_fields.specs.Codes.{fault};
ghost use Rattle.abbrev_decl.specs.Declarations.{declaration_at};
ghost use Rattle.unit_text.specs.Tables.{tables_text};
ghost use Rattle.unit_text.specs.TableTiles.{TablesTile};

/// The abbreviation tables tile the section: the first begins at its start, each other one behind the code
/// 0 that ends its predecessor, and the last ends at the section's end or has the first place where
/// neither a declaration nor a code 0 stands. The text is theirs in this order, each with its line and its
/// declarations, and they have no other. At the section's end stands neither, and the fault there is
/// `DeclTruncated`.
#[tactic(auto, using(crate::proofs::TableTileLaws::tables_tile, crate::proofs::TableTileLaws::end_faults))]
pub fn tables_tile_the_section(section: &[u8])
    ensures tile { TablesTile section.now 0 (tables_text section.now).0
        (tables_text section.now).1 }
    ensures only { (text : List ℕ) (stop : Option Fault) → TablesTile section.now 0 text stop
        → tables_text section.now ≡ (text, stop) }
    ensures unended { declaration_at section.now (length section.now)
        ≡ Err (fault DeclTruncated (length section.now)) }
{}
